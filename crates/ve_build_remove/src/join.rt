// Where one branch of content is joined to another.
ghost use Rattle.std.specs.Prelude.{◌≡◌, ◌≤◌, ◌<◌, ◌&&◌, Some, IfSome, length, option_map};
ghost use Rattle.model_items.specs.Plain.{plain_list};
ghost use Rattle.model_items.specs.declared.plain_item.PlainItem.TheVariants as plain_item;
ghost use Rattle.model_items.specs.Offsets.{partner};
ghost use Rattle.model_items.specs.Offsets as offsets;
ghost use Rattle.model_edit.specs.Remove as model;
ghost use Rattle.ve_kinds.specs.Table as table;
ghost use Rattle.ve_offsets.specs.Docs.{IsDoc};
ghost use Rattle.ve_build_remove.specs.Joined.{join_of, IsJoinTo, item_at};

use ve_edits::partner;
use ve_items::Item;
use ve_kinds::{Kind, is_content_branch};
use ve_offsets::Doc;

/// A branch of content that ends in a range, and one that begins in it and ends past it.
#[derive(Clone, Copy)]
pub struct Join {
    pub first: Kind,
    pub second: Kind,
    pub second_closing: usize,
}

fn are_content(first: Kind, second: Kind) -> bool
    ensures { result ≡ (table.is_content_branch first && table.is_content_branch second) }
{
    is_content_branch(first) && is_content_branch(second)
}

/// The join of a branch that ends to the one that an item opens.
fn join_to(doc: Doc<'_>, first: Kind, q: usize) -> Option<Join>
    requires doc { IsDoc doc }
    requires within { q < length doc.list.now.items }
    ensures join { (pre : _)
        → IsJoinTo doc.entry.list.now.items (λ _. Some (plain_item.Closing first pre)) q result }
    ensures after { IfSome result (λ join. q ≤ join.second_closing) }
    ensures within { IfSome result (λ join. join.second_closing < length doc.entry.list.now.items) }
    ensures closing { IfSome result (λ join.
        (values : _)
        → join.second_closing ≡ partner (plain_list values doc.entry.list.now.items) q) }
{
    match doc.list.get(q) {
        Item::Char { .. } => None,
        Item::Closing { .. } => None,
        Item::Opening { kind: second, .. } => {
            if !are_content(first, second) {
                return None;
            }
            let second_closing = partner(doc, q);
            Some(Join {
                first,
                second,
                second_closing,
            })
        }
    }
}

/// The join of the branch that an item closes to the one that another opens.
fn join_by(doc: Doc<'_>, p: usize, q: usize) -> Option<Join>
    requires doc { IsDoc doc }
    requires first { p < length doc.list.now.items }
    requires second { q < length doc.list.now.items }
    ensures join { IsJoinTo doc.entry.list.now.items (item_at doc.entry.list.now.items p) q result }
    ensures after { IfSome result (λ join. q ≤ join.second_closing) }
    ensures within { IfSome result (λ join. join.second_closing < length doc.entry.list.now.items) }
    ensures closing { IfSome result (λ join.
        (values : _)
        → join.second_closing ≡ partner (plain_list values doc.entry.list.now.items) q) }
{
    match doc.list.get(p) {
        Item::Char { .. } => None,
        Item::Opening { .. } => None,
        Item::Closing { kind: first, .. } => join_to(doc, first, q),
    }
}

/// The join in a range, where a closing and an opening of branches of content are all that is
/// unmatched there.
pub fn join_at(doc: Doc<'_>, from: usize, to: usize, unmatched: &[usize]) -> Option<Join>
    requires doc { IsDoc doc }
    requires order { from ≤ to }
    requires within { to ≤ length doc.list.now.items }
    requires unmatched { (values : _)
        → unmatched.now ≡ offsets.unmatched_places (plain_list values doc.list.now.items) from to }
    ensures join { (values : _)
        → option_map join_of result
        ≡ model.join_at (plain_list values doc.entry.list.now.items) unmatched.now }
    ensures past { IfSome result (λ join. to ≤ join.second_closing) }
    ensures within { IfSome result (λ join. join.second_closing < length doc.entry.list.now.items) }
{
    if unmatched.len() != 2 {
        return None;
    }
    join_by(doc, unmatched[0], unmatched[1])
}
