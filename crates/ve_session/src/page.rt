// A page that is open, with the sites that edit it.
ghost use Rattle.std.specs.Prelude.{◌≡◌, ◌≤◌, ◌<◌, ◌+◌, ◌++◌, true, false, length, Ok, Some, IfOk, IfErr, OnOk, OnErr, IsUtf8, encode_utf8_all, option_map, slice_get};
ghost use Rattle.model_world.specs.declared.command.Command.TheVariants.{Ask};
ghost use Rattle.model_world.specs.declared.command.Request.TheVariants as request;
ghost use Rattle.model_world.specs.Opening.{open_page, session_of};
ghost use Rattle.model_world.specs.Cost.{cost_of_command, cost_of_opening};
ghost use Rattle.ve_run.specs.Run.{reply_line};
ghost use Rattle.ve_changes.specs.Stops.{IsRefused};
ghost use Rattle.ve_read.specs.Pages.{HasPlaces, IsReadPage};
ghost use Rattle.ve_session.specs.Asked.{completed_request, is_shown, reply_and_world, IsAsked};
ghost use Rattle.ve_session.specs.Opened.{world_on, HasUtf8Page, IsLed, MayOpen};
ghost use Rattle.ve_editor.specs.Page.{replica_of};

use crate::completion::completed_request;
use crate::edits::doc_at;
use crate::ends::{ends_within, known_at};
use crate::faults::of_page;
use crate::laws::unedited_page_is_told;
use crate::shown::{is_shown, shown};
use crate::turn::turn;
use model_change::transactions_give;
use model_items::plain_tells_apart;
use model_page::RefTable;
use model_world_law::{
    every_item_stands, every_site_holds, every_world_is_reached, insertions_stand, layers_fit,
};
use std::alloc::Global;
use std::marker::Model;
use std::sync::ledger::Ledger;
use ve_answers::{html, replies_are_as_asked};
use ve_base::{Bytes, Memory, Steps, Text};
use ve_changes::{ChangeStop, FirstItems};
use ve_editor::Editor;
use ve_html_scan::Span;
use ve_internal::table;
use ve_json::{Answer, Request, reply_text};
use ve_origin::{OriginTable, Origins};
use ve_read::{PageRead, page, rows_stand};
use ve_sites::Sites;

/// A page that is open: its text, the rest of the page that was first read, and the sites that edit
/// it.
#[derive(Drop)]
pub struct OpenPage {
    text: Text,
    body: Span,
    rows: OriginTable,
    // the references of the list as it was first read
    first_refs: RefTable,
    session: Sites,
}

impl Model for OpenPage {
    ghost use Rattle.ve_session.specs.Opened.{lent_of, page_on, IsOpen, OnPage};

    ghost Value = { OnPage };

    ghost view = { λ p. page_on (lent_of p.text p.body p.rows p.session.first p.first_refs) p.session.session };

    ghost invariant = { λ p. IsOpen (lent_of p.text p.body p.rows p.session.first p.first_refs) p.session.session };
}

impl OpenPage {
    /// Opens a page for so many sites, each of which gets a tree of its list. It is refused as
    /// `page` refuses it.
    pub fn open<L: Ledger>(
        alloc: Global,
        text: Text,
        sites: usize,
        steps: &mut Steps<L>,
    ) -> Result<OpenPage, ChangeStop>
        requires may { MayOpen text sites }
        ensures ok { IfOk result (λ p.
            (open_page text ≡ Ok p.page) × (p.session ≡ session_of p.page sites)) }
        ensures refused { IfErr result (λ stop. IsRefused stop (open_page text)) }
        ensures counted { steps.old ≤ steps.new }
        ensures steps { steps.new ≤ steps.old + cost_of_opening sites (open_page text) }
    {
        match page(alloc, text.as_str()) {
            Ok(read) => Ok(OpenPage::begin(alloc, text, read, sites, steps)?),
            Err(fault) => Err(of_page(fault)),
        }
    }

    /// A page that was read, with the sites that begin on it.
    fn begin<L: Ledger>(
        alloc: Global,
        text: Text,
        read: PageRead,
        sites: usize,
        steps: &mut Steps<L>,
    ) -> Result<OpenPage, Memory>
        requires may { MayOpen text sites }
        requires utf8 { IsUtf8 (encode_utf8_all text) }
        requires read { IsReadPage (encode_utf8_all text) read }
        requires places { HasPlaces read }
        ensures ok { IfOk result (λ p.
            (open_page text ≡ Ok p.page) × (p.session ≡ session_of p.page sites)) }
        ensures counted { steps.old ≤ steps.new }
        ensures steps { steps.new ≤ steps.old + cost_of_opening sites (open_page text) }
    {
        // a page that opens is a sound list, and its rows have their positions in it
        layers_fit();
        rows_stand();
        let Ok(count) = u32::try_from(sites) else {
            return Err(Memory);
        };
        let first_refs = table(alloc, &read.list, &read.values)?;
        let session = Sites::new(alloc, read.list, read.values, count, steps)?;
        Ok(OpenPage {
            text,
            body: read.body,
            rows: read.rows,
            first_refs,
            session,
        })
    }

    /// Tells that some lines lead to its world, which its type keeps, and that the text of its page
    /// is UTF-8.
    pub fn lines_lead(&self)
        ensures led { IsLed (world_on self.now) }
        ensures utf8 { HasUtf8Page (world_on self.now) }
    {
        // its type keeps that it is UTF-8, which `as_str` tells
        let _text = self.text.as_str();
    }

    /// How many items the list had as it was opened.
    pub fn first_len(&self) -> usize
        ensures { result ≡ length self.now.page.items }
    {
        self.session.first().len()
    }

    /// How many sites there are.
    pub fn sites(&self) -> usize
        ensures { result ≡ length self.now.session.members }
    {
        self.session.len()
    }

    /// Lends the editor of a site.
    pub fn editor(&self, k: usize) -> &Editor
        requires site { k < length self.now.session.members }
        ensures { option_map (λ m. m.site.replica) (slice_get self.now.session.members k)
            ≡ Some (replica_of result.now) }
    {
        self.session.site(k).editor()
    }

    /// Appends the page as it was opened, as the reply to `html`, where a site's list has the
    /// page's items.
    fn show_opened(&self, alloc: Global, k: usize, out: &mut Bytes) -> Result<(), Memory>
        requires site { k < length self.now.session.members }
        requires unedited { option_map (λ m. m.site.replica.items) (
            slice_get self.now.session.members k)
            ≡ Some self.now.page.items }
        ensures reply { OnOk result (
            out.new
            ≡ out.old
            ++ reply_line (reply_and_world (world_on self.now) (Ask request.Html k)).0) }
        ensures err { OnErr result (out.new ≡ out.old) }
    {
        unedited_page_is_told();
        let answer = Answer::Page(Text::from_str(alloc, self.text.as_str())?);
        reply_text(alloc, &answer, out)
    }

    /// Appends the page that a site's list gives, as the reply to `html`. Where the list is as it
    /// was opened, no node of it is looked for. Items before and after all that the site's history
    /// changed aren't compared with those that were opened.
    fn show_html(&self, alloc: Global, k: usize, out: &mut Bytes) -> Result<(), Memory>
        requires site { k < length self.now.session.members }
        ensures reply { OnOk result (
            out.new
            ≡ out.old
            ++ reply_line (reply_and_world (world_on self.now) (Ask request.Html k)).0) }
        ensures same { (reply_and_world (world_on self.now) (Ask request.Html k)).1
            ≡ world_on self.now }
        ensures err { OnErr result (out.new ≡ out.old) }
    {
        // in every world that lines lead to references are editable, and stores begin with the
        // first one
        every_site_holds();
        every_item_stands();
        replies_are_as_asked();
        // items outside of a transaction's range stay, and over distinct values they are the same
        transactions_give();
        plain_tells_apart();
        // who took nothing and has nothing pending has the list that was opened
        if self.session.site(k).is_untouched() {
            return self.show_opened(alloc, k, out);
        }
        let origins = Origins::new(
            self.text.as_str(),
            self.body,
            &self.rows,
            self.session.first(),
            &self.first_refs,
        );
        let doc = doc_at(&self.session, k);
        // a long history takes longer to pass than the list to compare
        let ends = ends_within(&self.session, k, doc.list.len() / 16);
        let known = known_at(ends, doc.list, self.session.first());
        if origins.is_first_after(doc.list, known) {
            return self.show_opened(alloc, k, out);
        }
        let answer = html(alloc, &origins, doc, known)?;
        reply_text(alloc, &answer, out)
    }

    /// Appends the reply to a request that changes nothing.
    fn show(
        &self,
        alloc: Global,
        request: &Request,
        k: usize,
        out: &mut Bytes,
    ) -> Result<(), Memory>
        requires site { k < length self.now.session.members }
        requires shown { is_shown request.now ≡ true }
        ensures reply { OnOk result (
            out.new
            ≡ out.old
            ++ reply_line (reply_and_world (world_on self.now) (Ask request.now k)).0) }
        ensures same { OnOk result (
            (reply_and_world (world_on self.now) (Ask request.now k)).1 ≡ world_on self.now) }
        ensures err { OnErr result (out.new ≡ out.old) }
    {
        if let Request::Html = request {
            return self.show_html(alloc, k, out);
        }
        let answer = shown(alloc, &self.session, k, request)?;
        reply_text(alloc, &answer, out)
    }

    /// A request to a site with what it takes from the page as it was first read.
    fn completed(&self, alloc: Global, k: usize, request: Request) -> Result<Request, Memory>
        requires site { k < length self.now.session.members }
        ensures { IfOk result (λ done.
            done ≡ completed_request self.now.page.items request) }
    {
        // every site's store begins with the first one
        every_site_holds();
        let first = FirstItems {
            list: self.session.first(),
            rows: &self.rows,
            store: doc_at(&self.session, k).store,
        };
        completed_request(alloc, first, request)
    }

    /// Performs a request to a site, and appends the reply. A refusal changes nothing.
    fn act<L: Ledger>(
        &mut self,
        alloc: Global,
        request: Request,
        k: usize,
        out: &mut Bytes,
        steps: &mut Steps<L>,
    ) -> Result<(), Memory>
        requires asked { IsAsked (Ask request k) }
        requires site { k < length self.old.session.members }
        requires acts { is_shown request ≡ false }
        ensures reply { OnOk result (
            out.new
            ≡ out.old
            ++ reply_line (reply_and_world (world_on self.old) (Ask request k)).0) }
        ensures world { OnOk result (
            world_on self.new ≡ (reply_and_world (world_on self.old) (Ask request k)).1) }
        ensures unsaid { OnErr result (out.new ≡ out.old) }
        ensures counted { steps.old ≤ steps.new }
        ensures cost { OnOk result (
            steps.new
            ≤ steps.old + cost_of_command (world_on self.old) (Ok (Ask request k))) }
    {
        layers_fit();
        every_site_holds();
        // the page was opened, so its items may stand
        every_world_is_reached();
        insertions_stand();
        let _text = self.text.as_str();
        let request = self.completed(alloc, k, request)?;
        let answer = turn(alloc, &mut self.session, k, &request, steps)?;
        reply_text(alloc, &answer, out)
    }

    /// Answers a request to a site: appends the reply and a newline. A refusal changes nothing.
    pub fn answer<L: Ledger>(
        &mut self,
        alloc: Global,
        request: Request,
        k: usize,
        out: &mut Bytes,
        steps: &mut Steps<L>,
    ) -> Result<(), Memory>
        requires asked { IsAsked (Ask request k) }
        requires site { k < length self.old.session.members }
        ensures reply { OnOk result (
            out.new
            ≡ out.old
            ++ reply_line (reply_and_world (world_on self.old) (Ask request k)).0) }
        ensures world { OnOk result (
            world_on self.new ≡ (reply_and_world (world_on self.old) (Ask request k)).1) }
        ensures unsaid { OnErr result (out.new ≡ out.old) }
        ensures counted { steps.old ≤ steps.new }
        ensures cost { OnOk result (
            steps.new
            ≤ steps.old + cost_of_command (world_on self.old) (Ok (Ask request k))) }
    {
        if is_shown(&request) {
            self.show(alloc, &request, k, out)
        } else {
            self.act(alloc, request, k, out, steps)
        }
    }
}
