// Laws of edits, tables, list items, selections and carets. Each function does nothing, and its
// contract is a law that is proved.
ghost use Rattle.model_edit_law.specs.ApartLaws.{AttributeIsApart, ColInIsApart, ColOutIsApart, ConvertIsApart, EditsAreApart, EditsInsertPieces, EditsStayApart, FineStaysApart, IndentIsApart, InsertionIsApart, MarkingIsApart, OutdentIsApart, PlainTypingIsApart, RemovalIsApart, RowInIsApart, RowOutIsApart, SplitIsApart, TypingIsApart, UnmarkingIsApart, WrapIsApart};
ghost use Rattle.model_edit_law.specs.Fine.{EditsAreFine, EditsSubstitute, FineIsNormal};
ghost use Rattle.model_edit_law.specs.InsertLaws.{FragmentStaysLawful, InsertionIsFine, SplitIsFine, SplitStaysLawful, TypingStaysLawful};
ghost use Rattle.model_edit_law.specs.ListLaws.{IndentIsFine, IndentIsUndone, IndentKeepsText, IndentStaysLawful, OutdentIsFine, OutdentKeepsText, OutdentStaysLawful};
ghost use Rattle.model_edit_law.specs.NextLaws.{CaretStaysInBranch, CaretStopsAtEnds};
ghost use Rattle.model_edit_law.specs.RemoveLaws.{RemovalIsFine, RemovalStaysLawful};
ghost use Rattle.model_edit_law.specs.ResultLaws.{AttributeSets, ColInPuts, ColOutTakes, ConvertConverts, IndentIndents, InsertionPuts, MarkingMarks, OutdentOutdents, RemovalTakes, RowInPuts, RowOutTakes, SplitParts, TypingPuts, UnmarkingUnmarks, WrapWraps};
ghost use Rattle.model_edit_law.specs.SelectLaws.{OffsetsKeepNeighbours, OffsetsKeepOrder, OffsetsOutsideStay, OffsetsStayWithin, SelectionKeepsDirection, SelectionKeepsItems};
ghost use Rattle.model_edit_law.specs.ShapeLaws.{AttributeIsFine, AttributeStaysLawful, ConvertIsFine, ConvertStaysLawful, MarkingIsFine, MarkingStaysLawful, UnmarkingIsFine, UnmarkingStaysLawful, WrapIsFine};
ghost use Rattle.model_edit_law.specs.TableLaws.{ColInIsFine, ColInStaysLawful, ColOutGrid, ColOutIsFine, ColOutLays, ColOutStaysLawful, GridLays, RowInIsFine, RowInStaysLawful, RowOutGrid, RowOutIsFine, RowOutLays, RowOutStaysLawful};

/// Edits that stand in order are a transaction that cannot be written shorter and applies. It can
/// put back each attribute that it removes, and gives the list with the edits made. It is in normal
/// form exactly where the list's length and what it inserts add up to at most 2^60.
pub fn edits_are_one_transaction()
    ensures fine { EditsAreFine }
    ensures gives { EditsSubstitute }
    ensures normal { FineIsNormal }
{}

/// The result of each edit of a lawful list. Typing in a content branch puts just the text at its
/// position. An insertion puts its pieces there with the brackets round them, and a split the
/// brackets alone. A removal takes its range but for the brackets that stay. Marks change in their
/// range, and a kind and an attribute at their positions. Wraps, list items, rows and columns are
/// the list with their edits made.
pub fn edits_give()
    ensures typing { TypingPuts }
    ensures insertion { InsertionPuts }
    ensures split { SplitParts }
    ensures removal { RemovalTakes }
    ensures marking { MarkingMarks }
    ensures unmarking { UnmarkingUnmarks }
    ensures convert { ConvertConverts }
    ensures attribute { AttributeSets }
    ensures wrap { WrapWraps }
    ensures indent { IndentIndents }
    ensures outdent { OutdentOutdents }
    ensures row_in { RowInPuts }
    ensures col_in { ColInPuts }
    ensures row_out { RowOutTakes }
    ensures col_out { ColOutTakes }
{}

/// An insertion and a split are reduced transactions that apply, and can put back what they remove.
pub fn insertions_are_fine()
    ensures insertion { InsertionIsFine }
    ensures split { SplitIsFine }
{}

/// A split leaves a lawful list lawful.
#[tactic(auto, using(crate::proofs::InsertLemmas::split_lawful))]
pub fn split_stays_lawful()
    ensures { SplitStaysLawful }
{}

/// Typing, with any marks, leaves a lawful list lawful, unless nodes are then nested over 100 deep.
#[tactic(auto, using(crate::proofs::TypingLemmas::typing_stays_lawful))]
pub fn typing_stays_lawful()
    ensures { TypingStaysLawful }
{}

/// So does what is pasted, where its pieces are children of some kind.
#[tactic(auto, using(crate::proofs::FragmentLemmas::fragment_stays_lawful))]
pub fn fragment_stays_lawful()
    ensures { FragmentStaysLawful }
{}

/// A removal from a lawful list is a reduced transaction that applies.
pub fn removal_is_fine()
    ensures { RemovalIsFine }
{}

/// A removal leaves a lawful list lawful.
#[tactic(auto, using(crate::proofs::RemoveLawfulLemmas::removal_lawful))]
pub fn removal_stays_lawful()
    ensures { RemovalStaysLawful }
{}

/// Setting and taking marks, converting a branch, setting an attribute and wrapping nodes each give
/// a reduced transaction that applies.
pub fn shapes_are_fine()
    ensures marking { MarkingIsFine }
    ensures unmarking { UnmarkingIsFine }
    ensures convert { ConvertIsFine }
    ensures attribute { AttributeIsFine }
    ensures wrap { WrapIsFine }
{}

/// Marks set and taken, and an attribute set, leave a lawful list lawful.
pub fn marks_stay_lawful()
    ensures marking { MarkingStaysLawful }
    ensures unmarking { UnmarkingStaysLawful }
    ensures attribute { AttributeStaysLawful }
{}

/// A converted branch leaves a lawful list lawful.
#[tactic(auto, using(crate::proofs::ShapeLemmas::convert_lawful))]
pub fn convert_stays_lawful()
    ensures { ConvertStaysLawful }
{}

/// Moving a list item deeper and out are reduced transactions that apply, and can put back what
/// they remove.
pub fn moves_are_fine()
    ensures indent { IndentIsFine }
    ensures outdent { OutdentIsFine }
{}

/// An item moved in and out again: the list is as it was, where no whitespace was lost and the item
/// did not join an empty list.
#[tactic(auto, using(crate::proofs::ListLemmas::indent_is_undone))]
pub fn indent_is_undone()
    ensures { IndentIsUndone }
{}

/// Moving an item deeper keeps characters and leaves in order, and a lawful list lawful, unless
/// nodes are then nested over 100 deep.
#[tactic(auto, using(crate::proofs::IndentLemmas::indent_keeps_text, crate::proofs::IndentLemmas::indent_stays_lawful))]
pub fn indent_keeps()
    ensures text { IndentKeepsText }
    ensures lawful { IndentStaysLawful }
{}

/// Moving an item out keeps characters and leaves in order, and a lawful list lawful.
#[tactic(auto, using(crate::proofs::OutdentLemmas::outdent_keeps_text, crate::proofs::OutdentLemmas::outdent_stays_lawful))]
pub fn outdent_keeps()
    ensures text { OutdentKeepsText }
    ensures lawful { OutdentStaysLawful }
{}

/// Rows and columns put in and taken out are reduced transactions that apply, and can put back what
/// they remove.
pub fn tables_are_fine()
    ensures row_in { RowInIsFine }
    ensures col_in { ColInIsFine }
    ensures row_out { RowOutIsFine }
    ensures col_out { ColOutIsFine }
{}

/// A row or a column taken out leaves a lawful list lawful.
#[tactic(auto, using(crate::proofs::TableLawfulLemmas::row_out_lawful, crate::proofs::TableLawfulLemmas::col_out_lawful))]
pub fn outs_stay_lawful()
    ensures row { RowOutStaysLawful }
    ensures column { ColOutStaysLawful }
{}

/// A row put in leaves a lawful list lawful, unless nodes are then nested over 100 deep.
#[tactic(auto, using(crate::proofs::TableGrowLemmas::row_in_lawful))]
pub fn row_in_stays_lawful()
    ensures { RowInStaysLawful }
{}

/// So does a column put in.
#[tactic(auto, using(crate::proofs::TableGrowLemmas::col_in_lawful))]
pub fn col_in_stays_lawful()
    ensures { ColInStaysLawful }
{}

/// A grid's rectangles are those that its rows' spans give; without a row they are those without
/// the row, and without a column those without the column.
#[tactic(auto, using(crate::proofs::LayLemmas::row_out_lays, crate::proofs::ColumnLemmas::col_out_lays, crate::proofs::LinkLemmas::grid_lays))]
pub fn grids_lay()
    ensures grid { GridLays }
    ensures row_out { RowOutLays }
    ensures col_out { ColOutLays }
{}

/// The grid of a table after a row or a column is taken out is the old one without it. Each other
/// cell keeps its position and its spans but for that row or column, in the same order.
#[tactic(auto, using(crate::proofs::RowOutGridLemmas::row_out_grid, crate::proofs::ColOutGridLemmas::col_out_grid))]
pub fn outs_leave_the_others()
    ensures row { RowOutGrid }
    ensures column { ColOutGrid }
{}

/// The one transaction of edits inserts their pieces, one after the other. Where these have names
/// apart, so has what it inserts. Edits in order leave names of the list apart, as each reduced
/// transaction does that applies and inserts names apart.
pub fn edits_stay_apart()
    ensures pieces { EditsInsertPieces }
    ensures inserted { EditsAreApart }
    ensures list { EditsStayApart }
    ensures fine { FineStaysApart }
{}

/// The items that an edit inserts have names apart, where the list has, and the pieces or nodes
/// that are given.
pub fn inserted_names_are_apart()
    ensures insertion { InsertionIsApart }
    ensures typing { TypingIsApart }
    ensures plain_typing { PlainTypingIsApart }
    ensures split { SplitIsApart }
    ensures removal { RemovalIsApart }
    ensures marking { MarkingIsApart }
    ensures unmarking { UnmarkingIsApart }
    ensures convert { ConvertIsApart }
    ensures attribute { AttributeIsApart }
    ensures wrap { WrapIsApart }
    ensures indent { IndentIsApart }
    ensures outdent { OutdentIsApart }
    ensures row_in { RowInIsApart }
    ensures col_in { ColInIsApart }
    ensures row_out { RowOutIsApart }
    ensures col_out { ColOutIsApart }
{}

/// After a transaction an offset stands in the new list, and offsets keep their order. An offset
/// beside an item that is retained stays beside it. Outside the active range each stays or moves by
/// the difference of the lengths.
pub fn offsets_lead_on()
    ensures within { OffsetsStayWithin }
    ensures order { OffsetsKeepOrder }
    ensures neighbours { OffsetsKeepNeighbours }
    ensures outside { OffsetsOutsideStay }
{}

/// A selection keeps the retained items that it has, and no other one joins it. It never turns
/// round.
pub fn selections_lead_on()
    ensures items { SelectionKeepsItems }
    ensures direction { SelectionKeepsDirection }
{}

/// A caret in content goes farther, and stays in its content branch; it goes nowhere exactly at an
/// end of the branch.
pub fn carets_stay_in_content()
    ensures branch { CaretStaysInBranch }
    ensures end { CaretStopsAtEnds }
{}
