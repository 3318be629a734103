// What is known of a site's list beside the one that was opened.
ghost use Rattle.std.specs.Prelude.{◌≡◌, ◌≤◌, ◌<◌, IfSome, List, length};
ghost use Rattle.model_change.specs.Replay.{flattened};
ghost use Rattle.model_items.specs.declared.item.Item.{Item as Cited};
ghost use Rattle.model_site.specs.Site.{entries_of};
ghost use Rattle.ve_origin.specs.Known.{AreAlike, AreKnown};
ghost use Rattle.ve_site.specs.Ends.{LeaveEnds, least_ends, whole_list};
ghost use Rattle.ve_sites.specs.Shared.{site_at, sites};
ghost use Rattle.ve_session.specs.Ends.{AgreeAtEnds};

use ve_items::Linear;
use ve_origin::{Known, Run};
use ve_site::Ends;
use ve_sites::Sites;

/// What a site's history leaves at the ends of the list that was opened. There is none where it has
/// seen or pending more than so many entries: they take longer to pass than the list to compare.
pub fn ends_within(session: &Sites, k: usize, entries: usize) -> Option<Ends>
    requires site { k < sites session.now }
    ensures least { IfSome result (λ e.
        e
        ≡ least_ends (whole_list (length session.now.first)) (
        flattened (entries_of session.now.session.committed (site_at session.now k)))) }
    ensures within { IfSome result (λ e.
        (e.prefix ≤ length session.now.first) × (e.suffix ≤ length session.now.first)) }
    ensures left { IfSome result (λ e.
        LeaveEnds e (flattened (entries_of session.now.session.committed (site_at session.now k)))) }
{
    let site = session.site(k);
    let Ok(pending) = site.pending_len() else {
        return None;
    };
    if pending > entries || site.seen() > entries {
        return None;
    }
    Some(session.ends(k))
}

/// The items at the beginning of two lists that agree there.
fn prefix_of(ends: Ends) -> Run
    ensures { (now first : List Cited) → AgreeAtEnds ends first now → AreAlike now first result }
{
    Run {
        now: 0,
        first: 0,
        count: ends.prefix,
    }
}

/// The items at the end of two lists that agree there.
fn suffix_of(ends: Ends, now: &Linear, first: &Linear) -> Run
    requires { AgreeAtEnds ends first.now.items now.now.items }
    ensures { AreAlike now.now.items first.now.items result }
{
    Run {
        now: now.len() - ends.suffix,
        first: first.len() - ends.suffix,
        count: ends.suffix,
    }
}

/// What is known of two lists that agree at these ends; nothing, where there are none.
pub fn known_at(ends: Option<Ends>, now: &Linear, first: &Linear) -> Known
    requires { IfSome ends (λ e. AgreeAtEnds e first.now.items now.now.items) }
    ensures { AreKnown now.now.items first.now.items result }
{
    match ends {
        Some(ends) => Known {
            alike: prefix_of(ends),
            at_end: suffix_of(ends, now, first),
        },
        None => Known::nothing(),
    }
}
