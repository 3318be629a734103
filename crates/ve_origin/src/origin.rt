// The page that was first read, and which nodes are still as they were.
ghost use Rattle.std.specs.Prelude.{◌≡◌, ◌≤◌, ◌<◌, ◌↔◌, IsTrue, length, take, drop, slice_get, Some};
ghost use Rattle.model_page_write.specs.PageText.{part_at};
ghost use Rattle.ve_origin.specs.Known.{AreKnown, IsKnown, IsCompared, IsKnownNode};
ghost use Rattle.ve_origin.specs.Origins.{spans, first_read, items_had, FirstRead, IsCut, IsRow, AreRows, Keeps};

use crate::carried::{Side, all_carry_same};
use crate::compare::alike_after;
use crate::known::Known;
use crate::node::{run_of, same_node};
use model_page::RefTable;
use std::alloc::Global;
use std::marker::Model;
use ve_base::{ListOf, Memory, TryCopy};
use ve_html_scan::Span;
use ve_items::Linear;

/// An origin: its bytes of the page, and the positions of its node in the list that was first read,
/// half open.
#[derive(Clone, Copy, Debug, PartialEq, Eq)]
pub struct OriginRow {
    pub span: Span,
    pub from: usize,
    pub to: usize,
}

impl TryCopy for OriginRow {
    fn copy(&self, _alloc: Global) -> Result<OriginRow, Memory> {
        Ok(*self)
    }
}

/// The origins of a page by their numbers.
pub type OriginTable = ListOf<OriginRow>;

/// The page that was first read with its origins, its list and the table of its references,
/// borrowed together.
#[derive(Drop)]
pub struct Origins<'a> {
    page: &'a str,
    body: Span,
    table: &'a OriginTable,
    first: &'a Linear,
    first_refs: &'a RefTable,
}

impl<'a> Model for Origins<'a> {
    ghost use Rattle.std.specs.Prelude.{length};
    ghost use Rattle.ve_origin.specs.Origins.{FirstRead, first_read, IsCut, AreRows};

    ghost Value = { FirstRead };

    ghost view = { λ o. first_read o.page.now o.body o.table.now o.first.now.items o.first_refs.now };

    ghost invariant = { λ o. IsCut o.page.now o.body × AreRows o.page.now (length o.first.now.items) o.table.now };
}

impl<'a> Origins<'a> {
    /// Lends them together.
    pub fn new(
        page: &'a str,
        body: Span,
        table: &'a OriginTable,
        first: &'a Linear,
        first_refs: &'a RefTable,
    ) -> Origins<'a>
        requires body { IsCut page.now body }
        requires rows { AreRows page.now (length first.now.items) table.now }
        ensures { result
            ≡ first_read page.entry.now body table.entry.now first.entry.now.items
            first_refs.entry.now }
    {
        Origins {
            page,
            body,
            table,
            first,
            first_refs,
        }
    }

    /// How many origins the page has.
    pub fn len(&self) -> usize
        ensures { result ≡ length self.now.rows }
    {
        self.table.as_slice().len()
    }

    /// The part of the page before its body.
    pub fn head(&self) -> &'a str
        ensures { result.now ≡ take self.now.body.from self.now.page }
    {
        &self.page[..self.body.from]
    }

    /// The part of the page after its body.
    pub fn tail(&self) -> &'a str
        ensures { result.now ≡ drop self.now.body.to self.now.page }
    {
        &self.page[self.body.to..]
    }

    /// Whether a list is the one that was first read. What is known isn't compared again; it stops
    /// at the first difference, and walks over borrowed pieces.
    pub fn is_first_after(&self, now: &Linear, known: Known) -> bool
        requires known { AreKnown now.now.items self.now.items known }
        ensures { IsTrue result ↔ (now.now.items ≡ self.now.items) }
    {
        let len = now.len();
        len == self.first.len() && alike_after(now, 0, self.first, 0, len, known) == len
    }

    fn row(&self, k: u32) -> OriginRow
        requires { k < length self.now.rows }
        ensures row { slice_get self.now.rows k ≡ Some result }
        ensures fits { IsRow self.now.page (length self.now.items) result }
    {
        self.table.as_slice()[k as usize]
    }

    /// The bytes of an origin.
    pub fn part(&self, k: u32) -> &'a str
        requires { k < length self.now.rows }
        ensures { result.now ≡ part_at self.now.page (slice_get (spans self.now.rows) k) }
    {
        let span = self.row(k).span;
        &self.page[span.from..span.to]
    }

    /// How many items the node of an origin had.
    pub fn count(&self, k: u32) -> usize
        requires { k < length self.now.rows }
        ensures { result ≡ items_had (slice_get self.now.rows k) }
    {
        let row = self.row(k);
        row.to - row.from
    }

    /// Whether the node that begins at a position of a list is as it was first read. It has the
    /// items that were first read for the origin, the whitespace before it aside, and each
    /// reference in it carries the body that it carried. `refs` is the table of the list. It stops
    /// at the first difference, and walks over borrowed pieces.
    pub fn kept(&self, k: u32, now: &Linear, from: usize, refs: &RefTable) -> bool
        requires number { k < length self.now.rows }
        requires within { from ≤ length now.now.items }
        ensures { Keeps self.now k now.now.items from refs.now result }
    {
        self.kept_after(k, now, from, refs, Known::nothing())
    }

    /// As `kept`, and what is known isn't compared again.
    pub fn kept_after(
        &self,
        k: u32,
        now: &Linear,
        from: usize,
        refs: &RefTable,
        known: Known,
    ) -> bool
        requires number { k < length self.now.rows }
        requires within { from ≤ length now.now.items }
        requires known { IsKnown now.now.items refs.now self.now known }
        ensures { Keeps self.now k now.now.items from refs.now result }
    {
        let row = self.row(k);
        let count = row.to - row.from;
        if now.len() - from < count {
            return false;
        }
        if !same_node(now, from, self.first, row.from, count, known) {
            return false;
        }
        let now = Side {
            list: now,
            refs: refs.as_slice(),
            from,
        };
        let first = Side {
            list: self.first,
            refs: self.first_refs.as_slice(),
            from: row.from,
        };
        all_carry_same(now, first, count)
    }

    /// Whether the node that begins at a position of a list is known to have all items that were
    /// first read for the origin. It compares nothing.
    pub fn is_known(&self, k: u32, from: usize, known: Known) -> bool
        requires { k < length self.now.rows }
        ensures { IsTrue result → IsKnownNode self.now k from known }
    {
        let row = self.row(k);
        row.to - row.from <= known.reach(from, row.from)
    }

    /// Compares the node that begins at a position of a list with that of the origin, and says what
    /// is known then. Asked with it, `kept_after` compares no item of this node or of those in it up
    /// to their first difference. Where too few items are left for such a node, no more is known
    /// than before.
    pub fn compared(
        &self,
        k: u32,
        now: &Linear,
        from: usize,
        refs: &RefTable,
        known: Known,
    ) -> Known
        requires number { k < length self.now.rows }
        requires within { from ≤ length now.now.items }
        requires known { IsKnown now.now.items refs.now self.now known }
        ensures known { IsKnown now.now.items refs.now self.now result }
        ensures compared { IsCompared self.now k now.now.items from known result }
    {
        let row = self.row(k);
        let count = row.to - row.from;
        if now.len() - from < count {
            return known;
        }
        let alike = run_of(now, from, self.first, row.from, count, known);
        Known { alike, ..known }
    }
}
