// Where the nodes of pages are, in bytes.
use std::alloc::Global;
use std::test::Fail;
use ve_html_tree::{Forest, read};

/// A node as numbers: the bytes of the whole node, those of its content, and the number past its
/// subtree.
type Places = (usize, usize, usize, usize, usize);

const PAGE: &str = "<p id=\"x\">a<br/></p><style>x</style><!--c-->";

// The two fragments that WHATWG HTML gives as what its algorithm for serializing writes. An HTML
// parser would not read these trees from them, since it moves and joins elements; here each element
// is where its tags are.
const FORMS: &str =
    "<html><head></head><body><form id=\"outer\"><div><form id=\"inner\"><input></form></div></form></body></html>";

const LINKS: &str = "<html><head></head><body><a><a></a><table></table></a></body></html>";

/// Pages with their nodes.
const CASES: [(&str, &[Places]); 3] = [
    (
        PAGE,
        &[
            (0, 20, 10, 16, 3),
            (10, 11, 10, 11, 2),
            (11, 16, 16, 16, 3),
            (20, 36, 27, 28, 5),
            (27, 28, 27, 28, 5),
            (36, 44, 40, 41, 6),
        ],
    ),
    (
        FORMS,
        &[
            (0, 105, 6, 98, 7),
            (6, 19, 12, 12, 2),
            (19, 98, 25, 91, 7),
            (25, 91, 42, 84, 7),
            (42, 84, 47, 78, 7),
            (47, 78, 64, 71, 7),
            (64, 71, 71, 71, 7),
        ],
    ),
    (
        LINKS,
        &[
            (0, 68, 6, 61, 6),
            (6, 19, 12, 12, 2),
            (19, 61, 25, 54, 6),
            (25, 54, 28, 50, 6),
            (28, 35, 31, 31, 5),
            (35, 50, 42, 42, 6),
        ],
    ),
];

/// The first node of a forest that isn't where it should be.
fn first_other(forest: &Forest<'_>, expected: &[Places]) -> Option<usize> {
    if forest.len() != expected.len() {
        return Some(forest.len());
    }
    for n in 0..forest.len() {
        let node = forest.node(n);
        let places = (
            node.span.from,
            node.span.to,
            node.inner.from,
            node.inner.to,
            node.next,
        );
        if places != expected[n] {
            return Some(n);
        }
    }
    None
}

/// Whether a page has just these nodes.
fn has_nodes(alloc: Global, page: &str, expected: &[Places]) -> bool {
    match read(alloc, page) {
        Ok(forest) => first_other(&forest, expected).is_none(),
        Err(_) => false,
    }
}

#[test]
fn nodes_are_where_their_tags_are(rt: HostRuntime) -> Result<(), Fail> {
    for (page, expected) in CASES {
        assert!(rt; has_nodes(rt.alloc(), page, expected), "{page}");
    }
    Ok(())
}
