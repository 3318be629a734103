//! Laws of the edits of a list, for every list. It defines no edit: those are `model_edit`'s. There
//! are definitions in specs/, of laws and of what they speak of:
//!
//! - `Fine`: every edit is one transaction that cannot be written shorter, applies, and can put
//!   back what it removes;
//! - `ResultLaws`: what each edit makes of the list;
//! - `ApartLaws`: what edits insert has names apart;
//! - `InsertLaws`, `RemoveLaws`, `ShapeLaws`, `ListLaws`: that each edit leaves a lawful list
//!   lawful, and what it keeps of the text;
//! - `Spans`, `TableLaws`: a table as the spans of its cells, and the grid after a row or a column
//!   is put in or taken out;
//! - `SelectLaws`, `NextLaws`: where offsets, selections and carets go.
//!
//! The laws stand in `laws`: each public function there does nothing, and its contract is a law
//! that is proved.
//!
//! The items that edits insert are judged without the law: names are apart where they are in the
//! list and in what is given.
#![tactic(auto)]

mod laws;

pub use laws::{
    carets_stay_in_content, col_in_stays_lawful, convert_stays_lawful, edits_are_one_transaction,
    edits_give, edits_stay_apart, fragment_stays_lawful, grids_lay, indent_is_undone, indent_keeps,
    inserted_names_are_apart, insertions_are_fine, marks_stay_lawful, moves_are_fine,
    offsets_lead_on, outdent_keeps, outs_leave_the_others, outs_stay_lawful, removal_is_fine,
    removal_stays_lawful, row_in_stays_lawful, selections_lead_on, shapes_are_fine,
    split_stays_lawful, tables_are_fine, typing_stays_lawful,
};
