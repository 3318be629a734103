// Laws of sites, each the contract of a function that does nothing.
ghost use Rattle.ve_site.specs.Laws.{TakeIsBounded, TakenStayWithin};
ghost use Rattle.ve_site.specs.Settled.{SettledIsPerformed};

/// The counts of `Site::take`, in words of the entries that are taken and pending. They are how
/// many changes of a page it makes at most, and how long the lists become: the confirmed list with
/// all that both sides insert.
///
/// Where that is at most 2^60 items, no transaction that is joined for the take of an entry is over
/// that length. So length is no reason for want of memory there. No clause says when it comes for
/// others.
pub fn takes_are_bounded()
    ensures steps { TakeIsBounded }
    ensures lengths { TakenStayWithin }
{}

/// A site that takes a changed copy of its editor is the site with the changes as a new entry.
pub fn settling_performs()
    ensures { SettledIsPerformed }
{}
