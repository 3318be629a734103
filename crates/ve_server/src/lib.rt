//! The server, which puts the entries of all sites into one order, and the messages between sites
//! and server.
//!
//! Proved: a submission is served exactly as the model does it, or nothing changes. Feeds come
//! first in, first out.
//!
//! - `Parcels` are serialised entries, seen by value; each cites its own values, by the type.
//!   `Submit` is a site's message, `Feed` the server's (specs/Fed.antt).
//! - The view of `Server` is the committed entries and the queue to each site (specs/Serving.antt).
//!   `serve` commits the entries of a submission before its first conflict and feeds each site.
//!   `next_feed` lends the next feed of a site, and `feed` takes it.
//! - A queue can hold staged feeds, which no view of the server shows (specs/Waiting.antt). So
//!   where `serve` stops for want of memory, there is nothing to undo.
//!
//! It knows neither lists nor stores, and reads no value.
//!
//! Law: `serving_is_turns` says that `serve` and `feed` do what a session's turns do to its
//! committed entries and queues. By its turn a site becomes what the feed that is handed out makes
//! of it.
#![tactic(auto)]

mod feed;
mod laws;
mod parcels;
mod queue;
mod server;

pub use feed::{Feed, Submit};
pub use laws::serving_is_turns;
pub use model_site::{Clash, Served};
pub use parcels::Parcels;
pub use server::Server;
