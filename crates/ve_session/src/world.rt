// The page that is open, and the commands on it.
ghost use Rattle.std.specs.Prelude.{◌≡◌, ◌≤◌, ◌+◌, ◌++◌, true, Ok, IsErr, OnOk, OnErr, option_map};
ghost use Rattle.model_world.specs.declared.command.Command.TheVariants.{Ask, OpenPage as OpensPage};
ghost use Rattle.model_world.specs.declared.reply.Reply.TheVariants as reply;
ghost use Rattle.model_world.specs.World.{reply as model_reply};
ghost use Rattle.model_world.specs.Cost.{cost, cost_of_command};
ghost use Rattle.ve_run.specs.Run.{reply_line};
ghost use Rattle.ve_session.specs.Asked.{barred, reply_and_world, too_long, IsAsked};
ghost use Rattle.ve_session.specs.Opened.{replica_in, HasUtf8Page, IsLed};
ghost use Rattle.ve_session.specs.States.{after, closed_state, spent_state};
ghost use Rattle.ve_editor.specs.Page.{replica_of};

use crate::faults::{of_line, refusal_of};
use crate::page::OpenPage;
use std::alloc::Global;
use std::marker::Model;
use std::sync::ledger::Ledger;
use ve_base::{Bytes, MAX_LINE, Memory, Steps, Text};
use ve_editor::Editor;
use ve_json::{Answer, Command, Refusal, Request, command, reply_text};
use ve_run::Machine;

/// The page that is open, if one is. After it ran out of memory a world is spent: every later step
/// says so.
#[derive(Drop)]
pub struct World {
    alloc: Global,
    page: Option<OpenPage>,
    is_spent: bool,
}

impl Model for World {
    ghost use Rattle.ve_session.specs.Opened.{world_of};
    ghost use Rattle.ve_session.specs.States.{State};

    ghost Value = { State };

    ghost view = { λ w. record { world = world_of w.page; is_spent = w.is_spent } };
}

/// Why a line isn't read: it is too long.
fn too_long(line: &[u8]) -> Option<Refusal>
    ensures { result ≡ too_long line.now }
{
    if line.len() > MAX_LINE {
        Some(Refusal::LineTooLong { len: line.len() })
    } else {
        None
    }
}

/// Appends a refusal as a reply.
fn refuse(alloc: Global, refusal: Refusal, out: &mut Bytes) -> Result<(), Memory>
    ensures ok { OnOk result (out.new ≡ out.old ++ reply_line (reply.No refusal)) }
    ensures err { OnErr result (out.new ≡ out.old) }
{
    reply_text(alloc, &Answer::No(refusal), out)
}

/// Appends the length of a list as a reply.
fn tell_length(alloc: Global, len: usize, out: &mut Bytes) -> Result<(), Memory>
    ensures ok { OnOk result (out.new ≡ out.old ++ reply_line (reply.Length len)) }
    ensures err { OnErr result (out.new ≡ out.old) }
{
    reply_text(alloc, &Answer::Length(len), out)
}

impl World {
    /// A world without a page. It takes no memory.
    pub fn new(alloc: Global) -> World
        ensures { result ≡ closed_state }
    {
        World {
            alloc,
            page: None,
            is_spent: false,
        }
    }

    /// Lends the editor of a site: None where no page is open, and where the site is none.
    pub fn editor(&self, site: usize) -> Option<&Editor>
        ensures { option_map (λ editor. replica_of editor.now) result
            ≡ replica_in self.now.world site }
    {
        match &self.page {
            Some(page) if site < page.sites() => Some(page.editor(site)),
            _ => None,
        }
    }

    /// Tells that some lines lead to its world, which its type keeps, and that a page that is open
    /// is UTF-8. So the laws of every world that lines lead to hold of it.
    pub fn lines_lead(&self)
        ensures led { IsLed self.now.world }
        ensures utf8 { HasUtf8Page self.now.world }
    {
        if let Some(page) = &self.page {
            page.lines_lead();
        }
    }

    /// Opens a page for so many sites in place of the one that is open, unless it is refused.
    fn open<L: Ledger>(
        &mut self,
        text: Text,
        sites: usize,
        out: &mut Bytes,
        steps: &mut Steps<L>,
    ) -> Result<(), Memory>
        requires asked { IsAsked (OpensPage text sites) }
        ensures reply { OnOk result (
            out.new
            ≡ out.old
            ++ reply_line (reply_and_world self.old.world (OpensPage text sites)).0) }
        ensures world { OnOk result (
            self.new ≡ record self.old {
              world = (reply_and_world self.old.world (OpensPage text sites)).1;
            }) }
        ensures unsaid { OnErr result (out.new ≡ out.old) }
        ensures counted { steps.old ≤ steps.new }
        ensures cost { OnOk result (
            steps.new
            ≤ steps.old + cost_of_command self.old.world (Ok (OpensPage text sites))) }
    {
        self.lines_lead();
        match OpenPage::open(self.alloc, text, sites, steps) {
            Ok(page) => {
                let len = page.first_len();
                self.page = Some(page);
                tell_length(self.alloc, len, out)
            }
            Err(stop) => {
                let refusal = refusal_of(stop)?;
                refuse(self.alloc, refusal, out)
            }
        }
    }

    /// Why no site of this number is asked: no page is open, or it has no such site.
    fn barred(&self, site: usize) -> Option<Refusal>
        ensures { result ≡ barred self.now.world site }
    {
        match &self.page {
            None => Some(Refusal::NotOpen),
            Some(page) => {
                let sites = page.sites();
                if site >= sites {
                    Some(Refusal::BadSite { sites })
                } else {
                    None
                }
            }
        }
    }

    /// Answers a request to a site.
    fn ask<L: Ledger>(
        &mut self,
        request: Request,
        site: usize,
        out: &mut Bytes,
        steps: &mut Steps<L>,
    ) -> Result<(), Memory>
        requires asked { IsAsked (Ask request site) }
        ensures reply { OnOk result (
            out.new
            ≡ out.old
            ++ reply_line (reply_and_world self.old.world (Ask request site)).0) }
        ensures world { OnOk result (
            self.new ≡ record self.old {
              world = (reply_and_world self.old.world (Ask request site)).1;
            }) }
        ensures unsaid { OnErr result (out.new ≡ out.old) }
        ensures counted { steps.old ≤ steps.new }
        ensures cost { OnOk result (
            steps.new
            ≤ steps.old + cost_of_command self.old.world (Ok (Ask request site))) }
    {
        if let Some(refusal) = self.barred(site) {
            return refuse(self.alloc, refusal, out);
        }
        let Some(page) = &mut self.page else {
            unreachable!()
        };
        page.answer(self.alloc, request, site, out, steps)
    }

    /// Answers a command.
    fn obey<L: Ledger>(
        &mut self,
        command: Command,
        out: &mut Bytes,
        steps: &mut Steps<L>,
    ) -> Result<(), Memory>
        requires asked { IsAsked command }
        ensures reply { OnOk result (
            out.new
            ≡ out.old ++ reply_line (reply_and_world self.old.world command).0) }
        ensures world { OnOk result (
            self.new ≡ record self.old { world = (reply_and_world self.old.world command).1 }) }
        ensures unsaid { OnErr result (out.new ≡ out.old) }
        ensures counted { steps.old ≤ steps.new }
        ensures cost { OnOk result (
            steps.new ≤ steps.old + cost_of_command self.old.world (Ok command)) }
    {
        match command {
            Command::OpenPage { page, sites } => self.open(page, sites, out, steps),
            Command::Ask { request, site } => self.ask(request, site, out, steps),
        }
    }

    /// Answers a line, where the world isn't spent.
    fn answer<L: Ledger>(
        &mut self,
        line: &[u8],
        out: &mut Bytes,
        steps: &mut Steps<L>,
    ) -> Result<(), Memory>
        ensures reply { OnOk result (
            out.new
            ≡ out.old ++ reply_line (model_reply self.old.world line.now).0) }
        ensures state { OnOk result (self.new ≡ after self.old line.now) }
        ensures unsaid { OnErr result (out.new ≡ out.old) }
        ensures stays_spent { self.old.is_spent ≡ true → IsErr result }
        ensures counted { steps.old ≤ steps.new }
        ensures cost { OnOk result (steps.new ≤ steps.old + cost self.old.world line.now) }
    {
        if self.is_spent {
            return Err(Memory);
        }
        if let Some(refusal) = too_long(line) {
            return refuse(self.alloc, refusal, out);
        }
        match command(self.alloc, line) {
            Ok(command) => self.obey(command, out, steps),
            Err(fault) => {
                let refusal = refusal_of(of_line(fault))?;
                refuse(self.alloc, refusal, out)
            }
        }
    }

    /// Answers one line of a script: appends the text of the reply and a newline. A refusal leaves
    /// the world as it was.
    ///
    /// After `Memory` nothing is appended, and the world is spent: it has no page, and every later
    /// step answers `Memory`.
    pub fn step<L: Ledger>(
        &mut self,
        line: &[u8],
        out: &mut Bytes,
        steps: &mut Steps<L>,
    ) -> Result<(), Memory>
        ensures reply { OnOk result (
            out.new
            ≡ out.old ++ reply_line (model_reply self.old.world line.now).0) }
        ensures state { OnOk result (self.new ≡ after self.old line.now) }
        ensures unsaid { OnErr result (out.new ≡ out.old) }
        ensures spent_state { OnErr result (self.new ≡ spent_state) }
        ensures stays_spent { self.old.is_spent ≡ true → IsErr result }
        ensures counted { steps.old ≤ steps.new }
        ensures cost { OnOk result (steps.new ≤ steps.old + cost self.old.world line.now) }
    {
        match self.answer(line, out, steps) {
            Ok(()) => Ok(()),
            Err(Memory) => {
                self.page = None;
                self.is_spent = true;
                Err(Memory)
            }
        }
    }
}

impl Machine for World {
    ghost use Rattle.ve_session.specs.States.{meaning};

    ghost meaning = { meaning };

    fn step<L: Ledger>(
        &mut self,
        line: &[u8],
        out: &mut Bytes,
        steps: &mut Steps<L>,
    ) -> Result<(), Memory> {
        World::step(self, line, out, steps)
    }
}
