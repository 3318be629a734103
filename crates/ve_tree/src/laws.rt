// Other words for links that are a tree. Each function does nothing, and its contract is a law that
// is proved.
ghost use Rattle.ve_tree.specs.Fits.{TreeFits, FitsAreTree};
ghost use Rattle.ve_tree.specs.Nodes.{LinksLeadToNodes, NodesAreInTree};
ghost use Rattle.ve_tree.specs.Reads.{TreeIsRead, ReadIsTree, OneIsRead, OneNumbering};
ghost use Rattle.ve_tree.specs.Shapes.{ShapesAreRead};

/// Linked nodes are the tree of a list exactly where the list's tree is read under the root. It is
/// read by first child and next sibling; parent, sibling before, last child and length agree, and
/// no node stands besides. From one node on one forest is read. So the links decide which node is
/// which of the tree's, and which items are characters, openings and closings of which kinds.
/// Characters, heads, marks, whitespace, origins and the flag generated stand in no link.
pub fn links_are_read()
    ensures tree { TreeIsRead }
    ensures read { ReadIsTree }
    ensures one { OneIsRead }
    ensures numbering { OneNumbering }
{}

/// Linked nodes are the tree of a list exactly where the links of each node fit a list of its
/// children. From such lists, however they are kept, the tree is known. Of each tree there are such
/// lists.
pub fn children_lists_fit()
    ensures tree { TreeFits }
    ensures lists { FitsAreTree }
{}

/// In a tree every link of a node leads to a node, and every node of the arena is one of the
/// tree's. So who asks for the range of a node has to know only that it is there.
pub fn nodes_are_linked()
    ensures links { LinksLeadToNodes }
    ensures nodes { NodesAreInTree }
{}

/// A tree is that of every list whose items have the same shapes in order: a character, or an
/// opening or a closing of a kind. So it stays where characters, heads, marks, whitespace, origins
/// or the flag generated change, and no item comes or goes.
pub fn shapes_are_read()
    ensures { ShapesAreRead }
{}
