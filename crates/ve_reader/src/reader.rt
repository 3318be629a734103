// The state of reading, as it grows.
ghost use Rattle.std.specs.Prelude.{◌≡◌, [], false, length, All, IfOk, IfSome, OnOk};
ghost use Rattle.std.specs.Str.{chars};
ghost use Rattle.ve_kinds.specs.declared.kind.Kind.TheVariants.{Ref};
ghost use Rattle.model_items.specs.Plain.{plain_list, CitesWell};
ghost use Rattle.model_change.specs.Store.{cited, fill};
ghost use Rattle.model_page.specs.Heads.{characters};
ghost use Rattle.model_page.specs.Pieces.{leaf, chars_piece};
ghost use Rattle.model_page.specs.ReferenceNodes.{is_owned};
ghost use Rattle.ve_origin.specs.Origins.{source_span};
ghost use Rattle.ve_reader.specs.Claimed.{claim_of};
ghost use Rattle.ve_reader.specs.ReadSoFar.{nothing_read, with_piece, piece_after, opening_piece, with_opening, with_closing, node_opened, with_mark, mark_left, bodies_next, owned_at};
ghost use Rattle.ve_reader.specs.Stops.{Stops, deep_in, mark_limit};

use crate::purpose::{Purpose, ReadStop};
use crate::rows::{check_depth, end_row, next_origin, push_row, shows_generated};
use crate::{Claim, ItemDraft, Opening, Owners};
use std::alloc::Global;
use std::marker::Model;
use std::mem::replace;
use ve_base::{Head, MAX_MARKS, Mark, Memory, RefKey, Text};
use ve_html_scan::Span;
use ve_internal::RefRead;
use ve_items::Linear;
use ve_kinds::Kind;
use ve_origin::{OriginRow, OriginTable};
use ve_store::Store;

/// A node that is to come: its kind, its head, whether it was made for text that stood in none, and
/// its bytes.
#[derive(Drop)]
pub struct NodeStart {
    pub kind: Kind,
    pub head: Head,
    pub generated: bool,
    pub span: Span,
}

/// A node that is open: its kind, and the number of its origin, if it has one.
#[derive(Clone, Copy, Debug, PartialEq, Eq)]
pub struct OpenNode {
    pub kind: Kind,
    pub row: Option<u32>,
}

/// The key and the text of a body that has an owner.
#[derive(Drop)]
pub struct NewOwner {
    pub key: RefKey,
    pub html: Text,
}

/// All that was read: the list, the values that it cites, and the origins.
#[derive(Drop)]
pub struct ReadParts {
    pub list: Linear,
    pub values: Store,
    pub rows: OriginTable,
}

/// The items read so far, of a page, a body or a fragment.
#[derive(Drop)]
pub struct Reader {
    draft: ItemDraft,
    purpose: Purpose,
    rows: Vec<OriginRow>,
    owners: Owners,
    depth: usize,
    mark_count: usize,
    alloc: Global,
}

impl Model for Reader {
    ghost use Rattle.std.specs.Prelude.{◌≡◌, length};
    ghost use Rattle.ve_reader.specs.ReadSoFar.{ReadSoFar};

    ghost Value = { ReadSoFar };

    ghost view = { λ r. record { purpose = r.purpose; depth = r.depth; items = r.draft.items; marks = r.draft.marks; rows = r.rows.items; owners = r.owners } };

    ghost invariant = { λ r. r.mark_count ≡ length r.draft.marks };
}

impl Reader {
    /// Nothing, of a page, a body or a fragment. It takes no memory.
    pub fn new(alloc: Global, purpose: Purpose) -> Reader
        ensures { result ≡ nothing_read purpose }
    {
        Reader {
            draft: ItemDraft::new(alloc),
            purpose,
            rows: Vec::new(alloc),
            owners: Owners::new(alloc),
            depth: 0,
            mark_count: 0,
            alloc,
        }
    }

    /// Whether a page, a body or a fragment is read.
    pub fn purpose(&self) -> Purpose
        ensures { result ≡ self.now.purpose }
    {
        self.purpose
    }

    /// The claim of a reference here by its `data-mw`. None where it would own a body that has an
    /// owner.
    pub fn claim(&self, reading: RefRead) -> Option<Claim>
        ensures claim { result ≡ claim_of self.now.owners reading }
        ensures free { IfSome result (λ c.
            IfSome c.html (λ _. is_owned self.now.owners c.key ≡ false)) }
    {
        self.owners.claim(reading)
    }

    /// One mark more, inside the others, of an annotation that starts at a byte.
    pub fn enter(&mut self, mark: Mark, at: usize) -> Result<(), ReadStop>
        ensures ok { OnOk result (self.new ≡ with_mark mark self.old) }
        ensures limit { Stops result (mark_limit self.old at) }
    {
        if self.mark_count >= MAX_MARKS {
            return Err(ReadStop::TooManyMarks { at });
        }
        self.draft.enter(mark)?;
        self.mark_count += 1;
        Ok(())
    }

    /// Without the innermost mark.
    pub fn leave(&mut self)
        ensures { self.new ≡ mark_left self.old }
    {
        self.draft.leave();
        self.mark_count = self.mark_count.saturating_sub(1);
    }

    /// The opening of a block, after whitespace.
    pub fn open(&mut self, start: NodeStart, white: &str) -> Result<OpenNode, ReadStop>
        ensures ok { OnOk result (
            self.new
            ≡ with_opening start.kind start.head (chars white.now) start.generated
            (source_span start.span) self.old) }
        ensures node { IfOk result (λ node. node ≡ node_opened start.kind self.old) }
        ensures limit { Stops result (
            deep_in self.old (
            opening_piece start.kind start.head (chars white.now) start.generated
            (source_span start.span))) }
    {
        check_depth(self.purpose, self.depth, start.span.from)?;
        let Some(depth) = self.depth.checked_add(1) else {
            return Err(ReadStop::Memory);
        };
        let from = self.draft.len();
        let origin = next_origin(self.purpose, self.rows.len())?;
        let opening = Opening {
            kind: start.kind,
            head: start.head,
            origin,
            generated: shows_generated(self.purpose, start.generated),
        };
        self.draft.open(opening, white)?;
        let to = self.draft.len();
        push_row(&mut self.rows, self.purpose, start.span, from, to)?;
        self.depth = depth;
        Ok(OpenNode {
            kind: start.kind,
            row: origin,
        })
    }

    /// The closing of a node that is open, after whitespace.
    pub fn close(&mut self, node: OpenNode, white: &str) -> Result<(), Memory>
        ensures { OnOk result (self.new ≡ with_closing node (chars white.now) self.old) }
    {
        self.draft.close(node.kind, white)?;
        let to = self.draft.len();
        end_row(&mut self.rows, node.row, to);
        self.depth = self.depth.saturating_sub(1);
        Ok(())
    }

    /// The characters of a text of the page, with the marks around.
    pub fn push_text(&mut self, spelled: &str) -> Result<(), Memory>
        ensures { OnOk result (
            self.new
            ≡ with_piece (chars_piece self.old.marks (characters spelled.now)) [] self.old) }
    {
        if crate::push_text(self.alloc, &mut self.draft, spelled).is_err() {
            self.draft = ItemDraft::new(self.alloc);
            self.mark_count = 0;
            return Err(Memory);
        }
        Ok(())
    }

    /// An inline leaf, with the marks around.
    pub fn push_leaf(&mut self, kind: Kind, head: Head, span: Span) -> Result<(), ReadStop>
        ensures ok { OnOk result (
            self.new
            ≡ with_piece (leaf kind head self.old.marks (source_span span)) [] self.old) }
        ensures limit { Stops result (
            deep_in self.old (leaf kind head self.old.marks (source_span span))) }
    {
        check_depth(self.purpose, self.depth, span.from)?;
        let from = self.draft.len();
        let origin = next_origin(self.purpose, self.rows.len())?;
        if crate::push_leaf(&mut self.draft, kind, head, origin).is_err() {
            self.draft = ItemDraft::new(self.alloc);
            self.mark_count = 0;
            return Err(ReadStop::Memory);
        }
        let to = self.draft.len();
        push_row(&mut self.rows, self.purpose, span, from, to)?;
        Ok(())
    }

    /// A leaf that stands as a block, after whitespace.
    pub fn push_block_leaf(
        &mut self,
        kind: Kind,
        head: Head,
        white: &str,
        span: Span,
    ) -> Result<(), ReadStop>
        ensures ok { OnOk result (
            self.new
            ≡ with_piece (piece_after (chars white.now) (leaf kind head [] (source_span span)))
            [] self.old) }
        ensures limit { Stops result (
            deep_in self.old (
            piece_after (chars white.now) (leaf kind head [] (source_span span)))) }
    {
        check_depth(self.purpose, self.depth, span.from)?;
        let from = self.draft.len();
        let origin = next_origin(self.purpose, self.rows.len())?;
        if crate::push_block_leaf(&mut self.draft, kind, head, origin, white).is_err() {
            self.draft = ItemDraft::new(self.alloc);
            self.mark_count = 0;
            return Err(ReadStop::Memory);
        }
        let to = self.draft.len();
        push_row(&mut self.rows, self.purpose, span, from, to)?;
        Ok(())
    }

    /// A reference, with the marks around, and the body that it owns, if it owns one: no owner so
    /// far has its key.
    pub fn push_reference(
        &mut self,
        head: Head,
        span: Span,
        owner: Option<NewOwner>,
    ) -> Result<(), ReadStop>
        requires { IfSome owner (λ o. is_owned self.old.owners o.key ≡ false) }
        ensures ok { OnOk result (
            self.new
            ≡ with_piece (leaf Ref head self.old.marks (source_span span))
            (owned_at span.from owner) self.old) }
        ensures limit { Stops result (
            deep_in self.old (leaf Ref head self.old.marks (source_span span))) }
    {
        self.push_leaf(Kind::Ref, head, span)?;
        if let Some(owner) = owner {
            self.owners.push(span.from, owner.key, owner.html)?;
        }
        Ok(())
    }

    /// The owners among the items are handed over, and the rest is read as bodies.
    pub fn turn_to_bodies(&mut self) -> Owners
        ensures owners { result ≡ self.old.owners }
        ensures next { self.new ≡ bodies_next self.old }
    {
        self.purpose = Purpose::Body;
        replace(&mut self.owners, Owners::new(self.alloc))
    }

    /// All that was read: the items over the values that they cite, each once and in the order in
    /// which the items cite them, and a row for each origin.
    pub fn into_parts(self) -> Result<ReadParts, Memory>
        ensures items { IfOk result (λ parts.
            plain_list parts.values parts.list.items ≡ self.items) }
        ensures values { IfOk result (λ parts. parts.values ≡ fill [] (cited self.items)) }
        ensures cites { IfOk result (λ parts. All (CitesWell parts.values) parts.list.items) }
        ensures rows { IfOk result (λ parts. parts.rows ≡ self.rows) }
    {
        let (list, values) = self.draft.into_parts()?;
        Ok(ReadParts {
            list,
            values,
            rows: OriginTable::from_vec(self.rows),
        })
    }
}
