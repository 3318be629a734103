// Pieces, and reading them one after the other.
ghost use Rattle.ve_reader.specs.Claimed.{ClaimsAreKeys};
ghost use Rattle.ve_reader.specs.Laws.{DepthsJoin, InsidesAreEven, MarksAreLeft, NodeDepths, NodesJoin, PiecesAreEven, PiecesJoin};
ghost use Rattle.ve_reader.specs.Leaves.{LeavesArePieces, LeavesAreNumbered, MarksAreAround, HeadsAreReferences};
ghost use Rattle.ve_reader.specs.TagAttrs.{TagsAreRead};

/// Converted siblings have a span for each opening and whole nodes alone, and so has the inside of
/// a branch.
#[tactic(auto, using(crate::proofs::EvenLemmas::pieces_are_even, crate::proofs::EvenLemmas::insides_are_even))]
pub fn pieces_are_even()
    ensures parts { PiecesAreEven }
    ensures insides { InsidesAreEven }
{}

/// Joined pieces are read one after the other. A node is read as its opening, its inside and its
/// closing; and the inside of a mark before the mark is left.
#[tactic(auto, using(crate::proofs::JoinLemmas::pieces_join, crate::proofs::JoinLemmas::nodes_join, crate::proofs::JoinLemmas::marks_are_left))]
pub fn pieces_join()
    ensures pieces { PiecesJoin }
    ensures nodes { NodesJoin }
    ensures marks { MarksAreLeft }
{}

/// The first opening that is too deep stands in the first of two pieces or else in the other. Of a
/// node it is its own, or else it stands inside.
#[tactic(auto, using(crate::proofs::JoinLemmas::depths_join, crate::proofs::JoinLemmas::node_depths))]
pub fn depths_join()
    ensures pieces { DepthsJoin }
    ensures nodes { NodeDepths }
{}

/// A leaf, its origin, the mark of an annotation and the head of a reference are the model's.
#[tactic(auto, using(crate::proofs::LeafLaws::leaves_are_pieces, crate::proofs::LeafLaws::leaves_are_numbered, crate::proofs::LeafLaws::marks_are_around, crate::proofs::LeafLaws::heads_are_references))]
pub fn leaves_are_pieces()
    ensures leaves { LeavesArePieces }
    ensures origins { LeavesAreNumbered }
    ensures marks { MarksAreAround }
    ensures references { HeadsAreReferences }
{}

/// Each start tag of a text that was read has attributes that a start tag may have.
#[tactic(auto, using(crate::proofs::TagLemmas::tags_are_read))]
pub fn tags_are_read()
    ensures { TagsAreRead }
{}

/// The texts of a `data-mw` claim the key and the body that model_page gives the reference, or
/// nothing where it takes it for none.
pub fn claims_are_keys()
    ensures { ClaimsAreKeys }
{}
