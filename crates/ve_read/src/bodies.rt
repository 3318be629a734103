// The internal list: the bodies of references, which are read after the page.
ghost use Rattle.std.specs.Prelude.{◌≡◌, ◌++◌, ◌<◌, [], None, false, flat_map, map, IfOk, OnOk};
ghost use Rattle.std.specs.Str.{chars};
ghost use Rattle.ve_base.specs.Limits.{max_open_kinds};
ghost use Rattle.model_page.specs.Limits.{body_limit, first_body_limit};
ghost use Rattle.model_page.specs.PageItems.{internal_item, internal_list, item_head};
ghost use Rattle.model_spelling.specs.Faults.{fault_of};
ghost use Rattle.ve_reader.specs.Claimed.{lent_owner};
ghost use Rattle.ve_reader.specs.ReadSoFar.{node_opened, with_opening};
ghost use Rattle.ve_read.specs.Bodies.{AreSpelled, InBodies, no_span, with_items};
ghost use Rattle.ve_read.specs.Faults.{Within};
ghost use Rattle.ve_read.specs.Moved.{owner_moved};

use crate::fault::{ReadFault, byte_in_page, stop_at_owner};
use crate::forests::{read_spelled, read_whole};
use std::alloc::Global;
use ve_base::{Attrs, Head, Memory, RefKey, Text, TryCopy};
use ve_html_scan::Span;
use ve_kinds::Kind;
use ve_reader::{NodeStart, OpenNode, Owner, Owners, ReadStop, Reader};

/// The head of an internal item, which says whose body it is.
fn item_head(alloc: Global, key: &RefKey) -> Result<Head, Memory>
    ensures { IfOk result (λ head. head ≡ item_head key.now) }
{
    let key = key.copy(alloc)?;
    Ok(Head {
        tag: Text::new(alloc),
        attrs: Attrs::new(alloc),
        raw: Text::new(alloc),
        reference: Some(key),
        owner: false,
    })
}

/// Opens the internal list or a node in it, where so few kinds are open that none is too deep.
fn open_internal(
    reader: &mut Reader,
    kind: Kind,
    head: Head,
    white: &str,
) -> Result<OpenNode, Memory>
    requires { reader.old.depth < max_open_kinds }
    ensures ok { OnOk result (
        reader.new ≡ with_opening kind head (chars white.now) false no_span reader.old) }
    ensures node { IfOk result (λ node. node ≡ node_opened kind reader.old) }
{
    let start = NodeStart {
        kind,
        head,
        generated: false,
        span: Span { from: 0, to: 0 },
    };
    match reader.open(start, white) {
        Ok(node) => Ok(node),
        Err(ReadStop::Memory) => Err(Memory),
        Err(_) => unreachable!(),
    }
}

/// The internal item of an owner, with its body. The page's body begins at the byte `from`, and
/// owners are counted from it.
fn read_owner(
    alloc: Global,
    reader: &mut Reader,
    owner: Owner<'_>,
    from: usize,
) -> Result<(), ReadFault>
    requires ready { InBodies 1 reader.old }
    requires spelled { fault_of owner.html.now ≡ None }
    ensures ok { OnOk result (
        reader.new ≡ with_items (internal_item (lent_owner owner.entry)) reader.old) }
    ensures limit { Within result (body_limit (owner_moved from (lent_owner owner.entry))) }
{
    let at = byte_in_page(from, owner.at)?;
    let forest = read_spelled(alloc, owner.html)?;
    let head = item_head(alloc, owner.key)?;
    let item = open_internal(reader, Kind::InternalItem, head, "")?;
    let white = match read_whole(alloc, owner.html, &forest, reader, Kind::InternalItem) {
        Ok(white) => white,
        Err(stop) => return Err(stop_at_owner(stop, at)),
    };
    reader.close(item, white)?;
    Ok(())
}

/// The internal items of all owners, in order.
fn read_owners(
    alloc: Global,
    reader: &mut Reader,
    owners: &Owners,
    from: usize,
) -> Result<(), ReadFault>
    requires ready { InBodies 1 reader.old }
    requires spelled { AreSpelled owners.now }
    ensures ok { OnOk result (
        reader.new ≡ with_items (flat_map internal_item owners.now) reader.old) }
    ensures limit { Within result (first_body_limit (map (owner_moved from) owners.now)) }
{
    let mut k = 0;
    while k < owners.len() {
        read_owner(alloc, reader, owners.get(k), from)?;
        k += 1;
    }
    Ok(())
}

/// Reads the internal list of a page that was read but for it, after the whitespace at the end.
/// What is over a limit in a body is named by the byte of the page where its owner starts.
pub fn read_bodies(
    alloc: Global,
    reader: &mut Reader,
    white: &str,
    from: usize,
) -> Result<(), ReadFault>
    requires depth { reader.old.depth ≡ 0 }
    requires unmarked { reader.old.marks ≡ [] }
    requires spelled { AreSpelled reader.old.owners }
    ensures items { OnOk result (
        reader.new.items
        ≡ reader.old.items ++ internal_list (chars white.now) reader.old.owners) }
    ensures rows { OnOk result (reader.new.rows ≡ reader.old.rows) }
    ensures limit { Within result (first_body_limit (map (owner_moved from) reader.old.owners)) }
{
    let owners = reader.turn_to_bodies();
    let list = open_internal(reader, Kind::InternalList, Head::empty(alloc), white)?;
    read_owners(alloc, reader, &owners, from)?;
    reader.close(list, "")?;
    Ok(())
}
