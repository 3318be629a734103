// A queue to a site.
ghost use Rattle.std.specs.Prelude.{◌≡◌, [], option_copied, option_map, OnOk};
ghost use Rattle.ve_server.specs.Fed.{feed_of, feeds_of};
ghost use Rattle.ve_server.specs.Serving.{first_of};
ghost use Rattle.ve_server.specs.Waiting.{released};

use crate::Feed;
use std::alloc::Global;
use std::collections::VecDeque;
use std::marker::Model;
use ve_base::Memory;

/// The queue to a site, first in and first out. Behind the feeds that wait there may be staged
/// ones. These can be dropped, or released without memory, so that several queues are fed together
/// or not at all.
#[derive(Drop)]
pub struct Queue {
    feeds: VecDeque<Feed>,
    // how many can be taken; those behind them are staged
    ready: usize,
}

impl Model for Queue {
    ghost use Rattle.std.specs.Prelude.{◌≤◌, length, map, take, drop};
    ghost use Rattle.ve_server.specs.Fed.{feed_of};
    ghost use Rattle.ve_server.specs.Waiting.{Waiting};

    ghost Value = { Waiting };

    ghost view = { λ q. record { feeds = map feed_of (take q.ready q.feeds.items); staged = map feed_of (drop q.ready q.feeds.items) } };

    ghost invariant = { λ q. q.ready ≤ length q.feeds.items };
}

impl Queue {
    /// The empty queue. It takes no memory.
    pub fn new(alloc: Global) -> Queue
        ensures { result.feeds ≡ [] }
    {
        Queue {
            feeds: VecDeque::new(alloc),
            ready: 0,
        }
    }

    /// Puts a feed, if there is one, in the place of what is staged. What can be taken stays,
    /// whatever comes.
    pub fn stage(&mut self, feed: Option<Feed>) -> Result<(), Memory>
        ensures feeds { self.new.feeds ≡ self.old.feeds }
        ensures staged { OnOk result (self.new.staged ≡ feeds_of feed) }
    {
        self.feeds.truncate(self.ready);
        if let Some(feed) = feed {
            self.feeds.push_back(feed)?;
        }
        Ok(())
    }

    /// Lets the staged feeds be taken, after the others.
    pub fn release(&mut self)
        ensures { self.new ≡ released self.old }
    {
        self.ready = self.feeds.len();
    }

    /// Lends the next feed, if there is one.
    pub fn first(&self) -> Option<&Feed>
        ensures { option_map feed_of (option_copied result) ≡ (first_of self.now.feeds).0 }
    {
        if self.ready == 0 {
            return None;
        }
        self.feeds.front()
    }

    /// Takes the next feed, if there is one.
    pub fn pop(&mut self) -> Option<Feed>
        ensures { (option_map feed_of result, self.new.feeds) ≡ first_of self.old.feeds }
    {
        if self.ready == 0 {
            return None;
        }
        self.ready -= 1;
        self.feeds.pop_front()
    }
}
