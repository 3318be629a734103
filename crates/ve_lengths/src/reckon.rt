// The starts of groups, reckoned from their lengths.
ghost use Rattle.std.specs.Prelude.{◌≡◌, ℕ, ◌≤◌, ◌<◌, ◌+◌, ◌-◌, ◌*◌, ◌/◌, ◌^◌, ◌++◌, length, take, drop, sum, slice_index, vec_capacity};
ghost use Rattle.ve_lengths.specs.Starts.{AreShifted, AreShiftedBack, AreStarts, RaisedFrom};

/// How many lengths stand in a group.
pub const GROUP: usize = 16;

/// Reckons the starts anew from a group on, which starts at `start`; those before it stand. Gives
/// the sum of all lengths. It takes no memory.
pub fn reckon(lens: &[usize], starts: &mut Vec<usize>, group: usize, start: usize) -> usize
    requires before { (g : ℕ)
        → g < group
        → slice_index starts.old.items g ≡ sum (take (16 * g) lens.now) }
    requires start { start ≡ sum (take (16 * group) lens.now) }
    requires among { group ≤ length starts.old.items }
    requires within { 16 * group ≤ length lens.now }
    requires room { (length lens.now + 15) / 16 ≤ vec_capacity starts.old }
    requires fits { sum lens.now < 2 ^ 64 }
    ensures starts { AreStarts lens.now starts.new.items result }
    ensures room { vec_capacity starts.old ≤ vec_capacity starts.new }
{
    starts.truncate(group);
    let mut start = start;
    for i in GROUP * group..lens.len() {
        if i % GROUP == 0 {
            let pushed = starts.push(start).is_ok();
            prove!(pushed);
        }
        start += lens[i];
    }
    start
}

/// Adds to the starts from one group on.
pub fn raise(starts: &mut [usize], first: usize, by: usize)
    requires { (g : ℕ)
        → first ≤ g
        → g < length starts.old
        → slice_index starts.old g + by < 2 ^ 64 }
    ensures { RaisedFrom starts.old starts.new first by }
{
    for group in first..starts.len() {
        starts[group] += by;
    }
}

/// Takes from the starts from one group on.
pub fn lower(starts: &mut [usize], first: usize, by: usize)
    requires { (g : ℕ) → first ≤ g → g < length starts.old → by ≤ slice_index starts.old g }
    ensures { RaisedFrom starts.new starts.old first by }
{
    for group in first..starts.len() {
        starts[group] -= by;
    }
}

/// The starts from one group on, when a length was put in before these groups: each length has
/// moved on by one place, so each of these groups begins with the last one of the group before it.
pub fn shift_on(lens: &[usize], starts: &mut [usize], first: usize, len: usize)
    requires within { 16 * length starts.old < length lens.now + 16 }
    requires fits { (g : ℕ)
        → first ≤ g
        → g < length starts.old
        → slice_index starts.old g + len < 2 ^ 64 }
    requires holds { (g : ℕ)
        → first ≤ g
        → g < length starts.old
        → slice_index lens.now (16 * g) ≤ slice_index starts.old g + len }
    ensures { AreShifted lens.now starts.old starts.new first len }
{
    for group in first..starts.len() {
        starts[group] = starts[group] + len - lens[GROUP * group];
    }
}

/// The starts from one group on, when a length was taken out before these groups: each length has
/// moved back by one place, so the group before each of these ends with what was its first one.
pub fn shift_back(lens: &[usize], starts: &mut [usize], first: usize, len: usize)
    requires some { 0 < first }
    requires within { 16 * length starts.old < length lens.now + 16 }
    requires fits { (g : ℕ)
        → first ≤ g
        → g < length starts.old
        → slice_index starts.old g + slice_index lens.now (16 * g - 1) < 2 ^ 64 }
    requires holds { (g : ℕ) → first ≤ g → g < length starts.old → len ≤ slice_index starts.old g }
    ensures { AreShiftedBack lens.now starts.old starts.new first len }
{
    for group in first..starts.len() {
        starts[group] = starts[group] + lens[GROUP * group - 1] - len;
    }
}

/// Takes the lengths from one up to another out.
pub fn cut_out(lens: &mut Vec<usize>, from: usize, to: usize)
    requires order { from ≤ to }
    requires within { to ≤ length lens.old.items }
    ensures lens { lens.new.items ≡ take from lens.old.items ++ drop to lens.old.items }
    ensures room { vec_capacity lens.new ≡ vec_capacity lens.old }
{
    let len = lens.len();
    lens[from..].rotate_left(to - from);
    lens.truncate(len - (to - from));
}
