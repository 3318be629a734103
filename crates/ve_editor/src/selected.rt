// The selection after a change.
ghost use Rattle.std.specs.Prelude.{◌≡◌, ◌<◌, ◌+◌, ◌^◌, true};
ghost use Rattle.model_items.specs.Offsets as offsets;
ghost use Rattle.model_items.specs.Plain.{plain_list};
ghost use Rattle.model_edit.specs.Translate as model;
ghost use Rattle.model_edit.specs.Translate.{moved_selection};
ghost use Rattle.ve_offsets.specs.Docs.{IsDoc};
ghost use Rattle.ve_tx.specs.Operation.{by_value};

use ve_offsets::{Doc, is_inside_leaf};
use ve_select::{Selection, translate_range};
use ve_tx::Transaction;

/// Whether any number, past the list's end too, is an offset inside a leaf.
fn is_inside(doc: Doc<'_>, at: usize) -> bool
    requires { IsDoc doc }
    ensures means { (values : _)
        → result ≡ offsets.is_inside_leaf (plain_list values doc.entry.list.now.items) at }
    ensures fits { result ≡ true → at + 1 < 2 ^ 64 }
{
    if at >= doc.list.len() {
        return false;
    }
    is_inside_leaf(doc, at)
}

/// An offset, or where it is inside a leaf the one past the leaf's closing.
fn past_leaf(doc: Doc<'_>, at: usize) -> usize
    requires { IsDoc doc }
    ensures { (values : _)
        → result ≡ model.past_leaf (plain_list values doc.entry.list.now.items) at }
{
    if is_inside(doc, at) { at + 1 } else { at }
}

/// The selection on a page after the transaction that made it.
pub fn moved(doc: Doc<'_>, tx: &Transaction, selection: Selection) -> Selection
    requires { IsDoc doc }
    ensures { (values others : _)
        → result
        ≡ moved_selection (by_value others tx.now) (plain_list values doc.entry.list.now.items)
        selection }
{
    let ends = translate_range(tx, selection);
    Selection {
        anchor: past_leaf(doc, ends.anchor),
        focus: past_leaf(doc, ends.focus),
    }
}
