// Spans: all that joining asks of a transaction.
ghost use Rattle.std.specs.Prelude.{◌≡◌, ◌≤◌, ◌<◌, ◌+◌, ◌^◌, ◌&&◌, true, false, nat_le};
ghost use Rattle.ve_base.specs.Limits.{max_total_length};
ghost use Rattle.ve_rebase.specs.Pair.{FitsIn};
ghost use Rattle.ve_rebase.specs.Span.{old_size, new_size, end, meet, span_between, inert, joined_first, joined_second, moved_by, AreJoinedApart};

use ve_base::MAX_TOTAL_LENGTH;

/// Where a transaction is active, how many items it leaves before and after that, and the lengths
/// of what lies between: the old one and the new one. `attributes` says that it has attribute
/// operations and no replace; `reach` is the length of the active range, in the old list.
#[derive(Clone, Copy)]
pub struct ActiveSpan {
    pub active: bool,
    pub attributes: bool,
    pub first: usize,
    pub reach: usize,
    pub last: usize,
    pub removed: usize,
    pub inserted: usize,
}

impl ActiveSpan {
    /// Whether two active ranges overlap.
    pub fn meets(self, other: ActiveSpan) -> bool
        requires one { end self < 2 ^ 64 }
        requires other { end other < 2 ^ 64 }
        ensures { result ≡ meet self other }
    {
        self.active
            && other.active
            && other.first < self.first + self.reach
            && self.first < other.first + other.reach
    }

    /// Whether both change attributes alone.
    pub fn both_attributes(self, other: ActiveSpan) -> bool
        ensures { result ≡ (self.attributes && other.attributes) }
    {
        self.attributes && other.attributes
    }

    /// Whether its active range ends where the other one begins, or before.
    fn ends_before(self, other: ActiveSpan) -> bool
        requires { end self < 2 ^ 64 }
        ensures { result ≡ nat_le (end self) other.first }
    {
        self.first + self.reach <= other.first
    }

    /// Where the active range begins and ends, in the old list.
    pub fn range(self) -> (usize, usize)
        requires { end self < 2 ^ 64 }
        ensures start { result.0 ≡ self.first }
        ensures end { result.1 ≡ end self }
    {
        (self.first, self.first + self.reach)
    }

    /// The length of the old list.
    pub fn old_size(self) -> usize
        requires { old_size self < 2 ^ 64 }
        ensures { result ≡ old_size self }
    {
        self.first + (self.removed + self.last)
    }

    /// The length of the new list.
    pub fn new_size(self) -> usize
        requires { new_size self < 2 ^ 64 }
        ensures { result ≡ new_size self }
    {
        self.first + (self.inserted + self.last)
    }

    /// The same between other ends.
    fn ended(self, first: usize, last: usize) -> ActiveSpan
        ensures { result ≡ span_between self first last }
    {
        ActiveSpan {
            active: self.active,
            attributes: self.attributes,
            first,
            reach: self.reach,
            last,
            removed: self.removed,
            inserted: self.inserted,
        }
    }
}

/// How many items a transaction leaves on that side where another one is active, once that other
/// one is done.
fn moved(count: usize, other: ActiveSpan) -> usize
    requires other { FitsIn max_total_length other }
    requires count { count ≤ max_total_length }
    ensures { result ≡ moved_by other count }
{
    // What the other one leaves at its ends is in both of its sizes, and makes no difference.
    (count + other.inserted).saturating_sub(other.removed)
}

/// The span of a transaction that retains all.
fn inert(count: usize) -> ActiveSpan
    ensures { result ≡ inert count }
{
    ActiveSpan {
        active: false,
        attributes: false,
        first: count,
        reach: 0,
        last: 0,
        removed: 0,
        inserted: 0,
    }
}

/// The span of the first of two transactions on one list that don't conflict, joined: as it is
/// after the second.
pub fn joined_first(a: ActiveSpan, b: ActiveSpan) -> ActiveSpan
    requires first { FitsIn max_total_length a }
    requires second { FitsIn max_total_length b }
    ensures { result ≡ joined_first a b }
{
    if a.both_attributes(b) {
        a
    } else if !a.active {
        inert(b.new_size())
    } else if !b.active {
        a
    } else if a.ends_before(b) {
        a.ended(a.first, moved(a.last, b))
    } else {
        a.ended(moved(a.first, b), a.last)
    }
}

/// The span of the second, joined: as it is after the first.
pub fn joined_second(a: ActiveSpan, b: ActiveSpan) -> ActiveSpan
    requires first { FitsIn max_total_length a }
    requires second { FitsIn max_total_length b }
    ensures { result ≡ joined_second a b }
{
    if a.both_attributes(b) {
        b
    } else if !a.active {
        b
    } else if !b.active {
        inert(a.new_size())
    } else if a.ends_before(b) {
        b.ended(moved(b.first, a), b.last)
    } else {
        b.ended(b.first, moved(b.last, a))
    }
}

/// Joins two of which the first ends before the second begins.
fn join_before(a: &mut ActiveSpan, b: &mut ActiveSpan)
    requires first { FitsIn max_total_length a.old }
    requires second { FitsIn max_total_length b.old }
    requires room { b.old.removed ≤ a.old.last }
    requires before { a.old.removed ≤ b.old.first }
    ensures first { a.new ≡ span_between a.old a.old.first (moved_by b.old a.old.last) }
    ensures second { b.new ≡ span_between b.old (moved_by a.old b.old.first) b.old.last }
{
    a.last = a.last + b.inserted - b.removed;
    b.first = b.first + a.inserted - a.removed;
}

/// Joins two of which the second ends before the first begins.
fn join_after(a: &mut ActiveSpan, b: &mut ActiveSpan)
    requires first { FitsIn max_total_length a.old }
    requires second { FitsIn max_total_length b.old }
    requires room { b.old.removed ≤ a.old.first }
    requires after { a.old.removed ≤ b.old.last }
    ensures first { a.new ≡ span_between a.old (moved_by b.old a.old.first) a.old.last }
    ensures second { b.new ≡ span_between b.old b.old.first (moved_by a.old b.old.last) }
{
    a.first = a.first + b.inserted - b.removed;
    b.last = b.last + a.inserted - a.removed;
}

/// Joins two spans in place where both are active, their ranges lie apart, and no list becomes too
/// long: nearly every pair is such a one, and takes a few sums. It says whether they are; else both
/// stay as they are.
// How long the list becomes is asked of what was there before: so no sum waits for a choice.
pub fn join_apart(a: &mut ActiveSpan, b: &mut ActiveSpan) -> bool
    requires first { FitsIn max_total_length a.old }
    requires second { FitsIn max_total_length b.old }
    requires reach { a.old.removed ≤ a.old.reach }
    requires other_reach { b.old.removed ≤ b.old.reach }
    requires lengths { old_size a.old ≡ old_size b.old }
    ensures joined { result ≡ true → AreJoinedApart a.old b.old a.new b.new }
    ensures kept { result ≡ false → (a.new ≡ a.old) × (b.new ≡ b.old) }
{
    if a.both_attributes(*b) {
        return false;
    }
    if !a.active || !b.active {
        return false;
    }
    if a.new_size() + b.inserted > MAX_TOTAL_LENGTH + b.removed {
        return false;
    }
    if a.ends_before(*b) {
        join_before(a, b);
        return true;
    }
    if b.ends_before(*a) {
        join_after(a, b);
        return true;
    }
    false
}
