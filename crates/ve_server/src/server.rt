// The server.
ghost use Rattle.std.specs.Prelude.{◌≡◌, ◌<◌, ◌≤◌, [], drop, length, map, take, option_copied, option_map, replicate, IfOk, OnOk, OnErr};
ghost use Rattle.model_change.specs.Replay.{flattened};
ghost use Rattle.model_site.specs.Session.{accepted_of, clash_of, feed_for as model_feed_for};
ghost use Rattle.ve_rebase.specs.Lists.{RunFromOneLength};
ghost use Rattle.ve_server.specs.Fed.{feed_of, feeds_of, submission_of};
ghost use Rattle.ve_server.specs.Serving.{answer_to, first_feed, after_serving};
ghost use Rattle.ve_server.specs.Waiting.{all_staged, feeds_in, released};

use crate::queue::Queue;
use crate::{Feed, Parcels, Submit};
use model_site::{Clash, Served};
use std::alloc::Global;
use std::marker::Model;
use ve_base::{Memory, TryCopy};
use ve_rebase::{JoinedEntries, entries_over_list};

/// The committed entries, and for each site its feeds, the next one first.
#[derive(Drop)]
pub struct Server {
    committed: Parcels,
    queues: Vec<Queue>,
}

impl Model for Server {
    ghost use Rattle.ve_server.specs.Serving.{Serving};
    ghost use Rattle.ve_server.specs.Waiting.{feeds_in};

    ghost Value = { Serving };

    ghost view = { λ s. record {
      committed = s.committed.entries;
      hints = s.committed.hints;
      queues = feeds_in s.queues.items;
    } };
}

/// A submission's entries joined over those committed since its base, up to the first conflict, and
/// the ranges that conflict.
fn accepted(
    alloc: Global,
    committed: &Parcels,
    submit: &Submit,
) -> Result<(Parcels, Option<Clash>), Memory>
    requires base { submit.now.base ≤ length committed.now.entries }
    requires run { RunFromOneLength (flattened (drop submit.now.base committed.now.entries))
        (flattened submit.now.parcels.entries) }
    ensures kept { IfOk result (λ two.
        two.0.entries
        ≡ (accepted_of committed.now.entries (submission_of submit.now)).kept) }
    ensures hints { IfOk result (λ two.
        two.0.hints ≡ take (length two.0.entries) submit.now.parcels.hints) }
    ensures clash { IfOk result (λ two.
        two.1 ≡ clash_of (accepted_of committed.now.entries (submission_of submit.now)).clash) }
{
    let since = &committed.as_slice()[submit.base..];
    let JoinedEntries { kept, clash } = entries_over_list(alloc, since, submit.parcels.as_slice())?;
    Ok((Parcels::from_list(kept), clash))
}

/// The feed to one site when entries of the sender are accepted: to the sender their number, to any
/// other site the entries, if there is one.
fn feed_for(
    alloc: Global,
    sender: usize,
    site: usize,
    entries: &Parcels,
) -> Result<Option<Feed>, Memory>
    ensures { IfOk result (λ feed.
        feeds_of feed ≡ model_feed_for sender site entries.now.entries) }
{
    if site == sender {
        return Ok(Some(Feed::Ack(entries.len())));
    }
    if entries.is_empty() {
        return Ok(None);
    }
    Ok(Some(Feed::Foreign(entries.copy(alloc)?)))
}

/// Stages in each queue what its site is fed when these entries of the sender are accepted. What
/// can be taken stays, whatever comes.
fn stage_all(
    alloc: Global,
    queues: &mut [Queue],
    sender: usize,
    entries: &Parcels,
) -> Result<(), Memory>
    ensures feeds { feeds_in queues.new ≡ feeds_in queues.old }
    ensures staged { OnOk result (
        queues.new ≡ all_staged sender 0 entries.now.entries queues.old) }
{
    for site in 0..queues.len() {
        let feed = feed_for(alloc, sender, site, entries)?;
        queues[site].stage(feed)?;
    }
    Ok(())
}

/// Lets all sites take what is staged for them.
fn release_all(queues: &mut [Queue])
    ensures { queues.new ≡ map released queues.old }
{
    for site in 0..queues.len() {
        queues[site].release();
    }
}

impl Server {
    /// A server of so many sites, which has no entry yet.
    pub fn new(alloc: Global, sites: usize) -> Result<Server, Memory>
        ensures { IfOk result (λ server.
            server ≡ record { committed = []; hints = []; queues = replicate sites [] }) }
    {
        let mut queues = Vec::new(alloc);
        for _site in 0..sites {
            queues.push(Queue::new(alloc))?;
        }
        Ok(Server {
            committed: Parcels::new(alloc),
            queues,
        })
    }

    /// Lends the committed entries, in order.
    pub fn committed(&self) -> &Parcels
        ensures entries { result.now.entries ≡ self.now.committed }
        ensures hints { result.now.hints ≡ self.now.hints }
    {
        &self.committed
    }

    /// Joins a submission's entries, one after the other, over those committed since its base. At
    /// the first conflict that entry and the rest are refused. The accepted ones are committed; the
    /// sender is told their number, and each other site gets them, if there is one. The answer says
    /// how many were accepted of how many, and which ranges are in conflict.
    ///
    /// The only `Err` is want of memory, and then nothing changes.
    pub fn serve(&mut self, submit: &Submit) -> Result<Served, Memory>
        requires base { submit.now.base ≤ length self.old.committed }
        requires run { RunFromOneLength (flattened (drop submit.now.base self.old.committed))
            (flattened submit.now.parcels.entries) }
        ensures server { OnOk result (
            self.new ≡ after_serving submit.now.site (submission_of submit.now) self.old) }
        ensures answer { IfOk result (λ answer.
            answer ≡ answer_to (submission_of submit.now) self.old) }
        ensures kept { OnErr result (self.new ≡ self.old) }
    {
        let alloc = *self.queues.allocator();
        let (kept, clash) = accepted(alloc, &self.committed, submit)?;
        let answer = Served {
            accepted: kept.len(),
            total: submit.parcels.len(),
            clash,
        };
        let sender = submit.site as usize;
        stage_all(alloc, self.queues.as_mut_slice(), sender, &kept)?;
        self.committed.append(kept)?;
        release_all(self.queues.as_mut_slice());
        Ok(answer)
    }

    /// Lends the next feed of a site, if there is one, and takes nothing.
    pub fn next_feed(&self, site: u32) -> Option<&Feed>
        requires { site < length self.now.queues }
        ensures { option_map feed_of (option_copied result) ≡ (first_feed site self.now).0 }
    {
        self.queues[site as usize].first()
    }

    /// Takes the next feed of a site, if there is one. It takes no memory.
    pub fn feed(&mut self, site: u32) -> Option<Feed>
        requires { site < length self.old.queues }
        ensures { (option_map feed_of result, self.new) ≡ first_feed site self.old }
    {
        self.queues[site as usize].pop()
    }
}
