// A page under edit by several sites.
ghost use Rattle.std.specs.Prelude.{◌≡◌, ◌≤◌, ◌<◌, ◌+◌, ◌*◌, [], All, IfOk, length};
ghost use Rattle.model_change.specs.Replay.{flattened};
ghost use Rattle.model_items.specs.Plain.{plain_list, CitesWell};
ghost use Rattle.model_edit.specs.Translate.{between};
ghost use Rattle.model_site.specs.Replica.{opened_with};
ghost use Rattle.model_site.specs.Session.{started};
ghost use Rattle.model_site.specs.Site.{entries_of, starting, told};
ghost use Rattle.model_site_law.specs.Sound.{Sound};
ghost use Rattle.ve_editor.specs.Page.{page_of};
ghost use Rattle.ve_site.specs.Ends.{LeaveEnds, least_ends, whole_list};
ghost use Rattle.model_items.specs.Cost.{cost_of_tree};
ghost use Rattle.ve_sites.specs.Senders.{first_senders};
ghost use Rattle.ve_sites.specs.Shared.{site_at, sites as sites_of};

use crate::member::Member;
use model_site::Patch;
use std::alloc::Global;
use std::marker::Model;
use std::sync::ledger::Ledger;
use ve_base::{Memory, Steps, TryCopy};
use ve_editor::Editor;
use ve_items::Linear;
use ve_server::{Parcels, Server};
use ve_site::{Ends, Site, ends_under};
use ve_store::Store;

/// A page under edit by several sites, each with its queues to and from one server. The view is the
/// model's session beside the list that it was opened with. Sites are named by their numbers, from
/// 0.
#[derive(Drop)]
pub struct Sites {
    // the list as it was opened, and the values that it cites
    first: Linear,
    values: Store,
    pub(crate) server: Server,
    pub(crate) members: Vec<Member>,
}

impl Model for Sites {
    ghost use Rattle.ve_sites.specs.Shared.{Shared};
    ghost use Rattle.ve_sites.specs.Senders.{shared_of};
    ghost use Rattle.ve_sites.specs.IsShared.{IsShared};

    ghost Value = { Shared };

    ghost view = { λ s. shared_of s.values s.first.items s.server s.members.items };

    ghost invariant = { λ s. IsShared s.values s.first.items s.server s.members.items };
}

/// A site that begins with the blocks of the list, and a copy of its values.
fn begin<L: Ledger>(
    alloc: Global,
    number: u32,
    list: &mut Linear,
    values: &Store,
    steps: &mut Steps<L>,
) -> Result<Member, Memory>
    requires sound { Sound (plain_list values.now list.old.items) }
    requires cites { All (CitesWell values.now) list.old.items }
    ensures kept { list.new ≡ list.old }
    ensures ok { IfOk result (λ member.
        member ≡ record {
          number = number;
          site = starting (page_of values.now list.old.items (between 0 0));
          submissions = [];
        }) }
    ensures counted { steps.old ≤ steps.new }
    ensures steps { steps.new ≤ steps.old + cost_of_tree (plain_list values.now list.old.items) }
{
    let list = list.share(alloc)?;
    let values = values.copy(alloc)?;
    let editor = Editor::new(alloc, list, values, steps)?;
    Ok(Member::new(alloc, Site::new(alloc, number, editor)?))
}

/// So many sites, each of which begins with the blocks of the list, and a copy of its values.
fn all_begun<L: Ledger>(
    alloc: Global,
    list: &mut Linear,
    values: &Store,
    sites: u32,
    steps: &mut Steps<L>,
) -> Result<Vec<Member>, Memory>
    requires sound { Sound (plain_list values.now list.old.items) }
    requires cites { All (CitesWell values.now) list.old.items }
    ensures kept { list.new ≡ list.old }
    ensures ok { IfOk result (λ members.
        members.items
        ≡ first_senders 0 sites (starting (page_of values.now list.old.items (between 0 0)))) }
    ensures counted { steps.old ≤ steps.new }
    ensures steps { steps.new
        ≤ steps.old + sites * cost_of_tree (plain_list values.now list.old.items) }
{
    let mut members = Vec::new(alloc);
    for number in 0..sites {
        let member = begin(alloc, number, list, values, steps)?;
        members.push(member)?;
    }
    Ok(members)
}

/// What the entries that a site knows leave of these ends: the committed ones that it has seen, and
/// its pending ones.
fn ends_of(most: Ends, committed: &Parcels, site: &Site) -> Ends
    requires { site.now.site.seen ≤ length committed.now.entries }
    ensures least { result
        ≡ least_ends most (flattened (entries_of committed.now.entries site.now.site)) }
    ensures within { (result.prefix ≤ most.prefix) × (result.suffix ≤ most.suffix) }
    ensures left { LeaveEnds result (flattened (entries_of committed.now.entries site.now.site)) }
{
    let seen = &committed.as_slice()[..site.seen()];
    site.ends(ends_under(most, seen))
}

impl Sites {
    /// A session of so many sites, each of which has the page as it was opened. Each site's tree is
    /// built, in as many steps as `Editor::new` may take.
    pub fn new<L: Ledger>(
        alloc: Global,
        list: Linear,
        values: Store,
        sites: u32,
        steps: &mut Steps<L>,
    ) -> Result<Sites, Memory>
        requires sound { Sound (plain_list values list.items) }
        requires cites { All (CitesWell values) list.items }
        requires filled { values ≡ (opened_with (plain_list values list.items)).store }
        ensures ok { IfOk result (λ s.
            s ≡ record {
              first = list.items;
              session = started (opened_with (plain_list values list.items)) sites;
            }) }
        ensures counted { steps.old ≤ steps.new }
        ensures steps { steps.new ≤ steps.old + sites * cost_of_tree (plain_list values list.items) }
    {
        let server = Server::new(alloc, sites as usize)?;
        let mut list = list;
        let members = all_begun(alloc, &mut list, &values, sites, steps)?;
        Ok(Sites {
            first: list,
            values,
            server,
            members,
        })
    }

    /// How many sites there are.
    pub fn len(&self) -> usize
        ensures { result ≡ sites_of self.now }
    {
        self.members.len()
    }

    /// Lends the list as it was opened. It cites the values of the base.
    pub fn first(&self) -> &Linear
        ensures same { result.now.items ≡ self.now.first }
        ensures cites { All (CitesWell self.now.session.base.store) self.now.first }
        ensures items { plain_list self.now.session.base.store self.now.first
            ≡ self.now.session.base.items }
    {
        &self.first
    }

    /// Lends site `k`.
    pub fn site(&self, k: usize) -> &Site
        requires site { k < sites_of self.now }
        ensures { result.now.site ≡ site_at self.now k }
    {
        self.members[k].site()
    }

    /// What site `k` has not told yet of how its list changed, as `Site::told` says.
    pub fn told(&self, k: usize) -> Result<Vec<Patch>, Memory>
        requires site { k < sites_of self.now }
        ensures { IfOk result (λ patches. patches.items ≡ told (site_at self.now k)) }
    {
        self.members[k].site().told()
    }

    /// How many items all transactions that site `k` knows leave as they were, at the list's
    /// beginning and at its end: those of the committed entries that it has seen, and of its
    /// pending ones. They are the most that all of them leave, of as many as the list had when it
    /// was opened. It takes no memory.
    pub fn ends(&self, k: usize) -> Ends
        requires site { k < sites_of self.now }
        ensures least { result
            ≡ least_ends (whole_list (length self.now.first)) (
            flattened (entries_of self.now.session.committed (site_at self.now k))) }
        ensures within { (result.prefix ≤ length self.now.first)
            × (result.suffix ≤ length self.now.first) }
        ensures left { LeaveEnds result (
            flattened (entries_of self.now.session.committed (site_at self.now k))) }
    {
        let count = self.first.len();
        let whole = Ends {
            prefix: count,
            suffix: count,
        };
        ends_of(whole, self.server.committed(), self.members[k].site())
    }
}
