// Messages between the sites and the server.
ghost use Rattle.std.specs.Prelude.{◌≡◌, ◌≤◌, ◌<◌, ◌+◌, None, option_map, IsOk, IfOk, IfErr, OnErr};
ghost use Rattle.model_site.specs.Session.{serve_next, take_next};
ghost use Rattle.model_site.specs.Site.{send};
ghost use Rattle.ve_site.specs.Refusal.{IsSendRefusal};
ghost use Rattle.ve_sites.specs.Shared.{member_at, site_at, sites};
ghost use Rattle.ve_sites.specs.Turns.{HasSent, steps_of_turn};

use crate::Sites;
use model_site::{SendFault, Served, Taken};
use std::sync::ledger::Ledger;
use ve_base::{Memory, Steps};

impl Sites {
    /// Sends all entries that site `k` has not sent, as one submission, and gives how many they
    /// are. It is refused as `Site::send` refuses, and an `Err` changes nothing.
    pub fn send(&mut self, k: usize) -> Result<usize, SendFault>
        requires site { k < sites self.old }
        ensures sent { IfOk result (λ count. HasSent k count self.old self.new) }
        ensures refused { IfErr result (IsSendRefusal (send (site_at self.old k))) }
        ensures memory { IfErr result (λ why.
            why ≡ SendFault.Memory → IsOk (send (site_at self.old k))) }
        ensures kept { OnErr result (self.new ≡ self.old) }
    {
        self.members[k].send()
    }

    /// The server's turn at the next submission of site `k`, if there is one: the accepted entries
    /// are committed, and each site is fed. The answer says how many entries were accepted of how
    /// many, and which ranges are in conflict.
    ///
    /// The only `Err` is want of memory, where a submission waits. It changes nothing.
    pub fn serve(&mut self, k: usize) -> Result<Option<Served>, Memory>
        requires site { k < sites self.old }
        ensures served { IfOk result (λ served.
            option_map (λ answer. (self.new.session, answer)) served
            ≡ serve_next k (member_at self.old k) self.old.session) }
        ensures idle { IfOk result (λ served. served ≡ None → self.new ≡ self.old) }
        ensures nothing { serve_next k (member_at self.old k) self.old.session ≡ None
            → IsOk result }
        ensures first { self.new.first ≡ self.old.first }
        ensures kept { OnErr result (self.new ≡ self.old) }
    {
        let Some(submit) = self.members[k].next() else {
            return Ok(None);
        };
        let served = self.server.serve(submit)?;
        self.members[k].drop_next();
        Ok(Some(served))
    }

    /// The turn of site `k`: it takes the next feed that the server has for it, if there is one.
    ///
    /// The only `Err` is want of memory, where a feed waits. It is also the answer where a joined
    /// transaction would be longer than a transaction may be. Then nothing changes.
    pub fn take<L: Ledger>(
        &mut self,
        k: usize,
        steps: &mut Steps<L>,
    ) -> Result<Option<Taken>, Memory>
        requires site { k < sites self.old }
        ensures taken { IfOk result (λ taken.
            option_map (λ told. (self.new.session, told)) taken
            ≡ take_next k (member_at self.old k) self.old.session) }
        ensures idle { IfOk result (λ taken. taken ≡ None → self.new ≡ self.old) }
        ensures nothing { take_next k (member_at self.old k) self.old.session ≡ None
            → IsOk result }
        ensures first { self.new.first ≡ self.old.first }
        ensures kept { OnErr result (self.new ≡ self.old) }
        ensures counted { steps.old ≤ steps.new }
        ensures steps { steps.new ≤ steps.old + steps_of_turn (member_at self.old k) }
    {
        let number = self.members[k].number();
        let Some(feed) = self.server.next_feed(number) else {
            return Ok(None);
        };
        let taken = self.members[k].take(feed, steps)?;
        let _gone = self.server.feed(number);
        Ok(Some(taken))
    }
}
