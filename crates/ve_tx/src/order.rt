// Numbers in a row, kept in chunks.
ghost use Rattle.std.specs.Prelude.{◌≡◌, ◌≤◌, ◌<◌, ◌+◌, ◌^◌, ◌++◌, ◌∷◌, [], ℕ, Contains, IfOk, IfSome, None, OnErr, OnOk, Some, List, drop, false, length, min, slice_get, slice_index_or, take};
ghost use Rattle.ve_items.specs.Blocks.{joined};
ghost use Rattle.ve_tx.specs.Order.{place_of, without, counted, stands, EachOnce, AtHome, IsKept, AreBelow, settled, all_settled};

use std::alloc::Global;
use std::marker::Model;
use ve_base::Memory;

/// A chunk holds about as many numbers as there are chunks, but at least so many.
const MIN_CHUNK: usize = 64;

/// Where a number stands in a chunk.
fn place_in(chunk: &[usize], number: usize) -> Option<usize>
    ensures place { result ≡ place_of number chunk.now }
    ensures within { IfSome result (λ place. place < length chunk.now) }
{
    for i in 0..chunk.len() {
        if chunk[i] == number {
            return Some(i);
        }
    }
    None
}

/// A chunk, seen as the list of its numbers.
#[derive(Drop)]
struct Chunk {
    numbers: Vec<usize>,
}

impl Model for Chunk {
    ghost use Rattle.std.specs.Prelude.{List, ℕ};

    ghost Value = { List ℕ };

    ghost view = { λ chunk. chunk.numbers.items };
}

impl Chunk {
    /// A chunk of these numbers.
    fn of(alloc: Global, numbers: &[usize]) -> Result<Chunk, Memory>
        ensures { IfOk result (λ chunk. chunk ≡ numbers.now) }
    {
        Ok(Chunk {
            numbers: Vec::from_slice(alloc, numbers)?,
        })
    }

    fn as_slice(&self) -> &[usize]
        ensures { result.now ≡ self.now }
    {
        self.numbers.as_slice()
    }

    /// Takes a number out, and says whether it stood there.
    fn take_out(&mut self, number: usize) -> bool
        ensures left { self.new ≡ without number self.old }
        ensures stood { result ≡ stands number self.old }
    {
        let Some(place) = place_in(self.numbers.as_slice(), number) else {
            return false;
        };
        self.numbers.remove(place);
        true
    }

    /// Puts a number in at a position.
    fn put_in(&mut self, at: usize, number: usize) -> Result<(), Memory>
        requires { at ≤ length self.old }
        ensures ok { OnOk result (self.new ≡ take at self.old ++ number ∷ drop at self.old) }
        ensures err { OnErr result (self.new ≡ self.old) }
    {
        self.numbers.insert(at, number)?;
        Ok(())
    }
}

/// About the square root of a count.
fn chunk_size(count: usize) -> usize
    ensures some { 0 < result }
    ensures small { result ≤ 2 ^ 32 }
{
    count.isqrt().max(MIN_CHUNK)
}

/// So many numbers from 0 on.
fn numbers_below(alloc: Global, count: usize) -> Result<Vec<usize>, Memory>
    ensures { IfOk result (λ numbers. numbers.items ≡ counted 0 count) }
{
    let mut numbers = Vec::with_capacity(alloc, count)?;
    for number in 0..count {
        numbers.push(number)?;
    }
    Ok(numbers)
}

/// Cuts a row into chunks of a size.
fn cut(alloc: Global, row: &[usize], size: usize) -> Result<Vec<Chunk>, Memory>
    requires { 0 < size }
    ensures { IfOk result (λ chunks. joined chunks.items ≡ row.now) }
{
    let mut chunks = Vec::new(alloc);
    let mut rest = row;
    'cutting: while !rest.is_empty() {
        let len = size.min(rest.len());
        chunks.push(Chunk::of(alloc, &rest[..len])?)?;
        rest = &rest[len..];
    }
    Ok(chunks)
}

/// Gives the numbers of a chunk their home.
fn settle(homes: &mut [usize], chunk: &[usize], home: usize)
    requires { AreBelow chunk.now (length homes.old) }
    ensures { homes.new ≡ settled homes.old home chunk.now }
{
    for number in chunk {
        homes[*number] = home;
    }
}

/// Gives the numbers of all chunks their homes.
fn settle_all(homes: &mut [usize], chunks: &[Chunk])
    requires { AreBelow (joined chunks.now) (length homes.old) }
    ensures { homes.new ≡ all_settled homes.old 0 chunks.now }
{
    for i in 0..chunks.len() {
        settle(homes, chunks[i].as_slice(), i);
    }
}

/// The numbers of chunks one after the other.
fn copied(alloc: Global, chunks: &[Chunk]) -> Result<Vec<usize>, Memory>
    ensures { IfOk result (λ numbers. numbers.items ≡ joined chunks.now) }
{
    let mut numbers = Vec::new(alloc);
    for chunk in chunks {
        numbers.extend_from_slice(chunk.as_slice())?;
    }
    Ok(numbers)
}

/// How many numbers stand in the chunks before one.
fn count_before(chunks: &[Chunk], home: usize) -> usize
    requires within { home ≤ length chunks.now }
    requires small { length (joined chunks.now) < 2 ^ 64 }
    ensures { result ≡ length (joined (take home chunks.now)) }
{
    let mut count = 0;
    for i in 0..home {
        count += chunks[i].as_slice().len();
    }
    count
}

/// How many numbers stand in the chunks before one; none where it stands in no chunk.
fn position_in(chunks: &[Chunk], homes: &[usize], number: usize) -> Option<usize>
    requires home { AtHome chunks.now homes.now }
    requires small { length (joined chunks.now) < 2 ^ 64 }
    ensures { result ≡ place_of number (joined chunks.now) }
{
    if number >= homes.len() {
        return None;
    }
    let home = homes[number];
    if home >= chunks.len() {
        return None;
    }
    let Some(place) = place_in(chunks[home].as_slice(), number) else {
        return None;
    };
    Some(count_before(chunks, home) + place)
}

/// Takes a number out of its chunk, and says whether it stood there.
fn take_from(chunks: &mut [Chunk], homes: &[usize], number: usize) -> bool
    requires { AtHome chunks.old homes.now }
    ensures row { joined chunks.new ≡ without number (joined chunks.old) }
    ensures stood { result ≡ stands number (joined chunks.old) }
    ensures home { AtHome chunks.new homes.now }
{
    if number >= homes.len() {
        return false;
    }
    let home = homes[number];
    if home >= chunks.len() {
        return false;
    }
    chunks[home].take_out(number)
}

/// The chunk where a position falls, and the position in it; past the end, the end of the last one.
fn place_at(chunks: &[Chunk], at: usize) -> (usize, usize)
    requires { 0 < length chunks.now }
    ensures among { result.0 < length chunks.now }
    ensures within { result.1 ≤ length (slice_index_or chunks.now result.0 []) }
    ensures place { length (joined (take result.0 chunks.now)) + result.1
        ≡ min at (length (joined chunks.now)) }
{
    let mut left = at;
    for i in 0..chunks.len() {
        let len = chunks[i].as_slice().len();
        if left <= len {
            return (i, left);
        }
        left -= len;
    }
    let last = chunks.len() - 1;
    (last, chunks[last].as_slice().len())
}

/// Cuts the row of chunks anew, in chunks of a size. An `Err` changes nothing.
fn cut_anew(
    alloc: Global,
    chunks: &mut Vec<Chunk>,
    homes: &mut [usize],
    size: usize,
) -> Result<(), Memory>
    requires size { 0 < size }
    requires home { AtHome chunks.old.items homes.old }
    requires once { EachOnce (joined chunks.old.items) }
    ensures row { joined chunks.new.items ≡ joined chunks.old.items }
    ensures home { AtHome chunks.new.items homes.new }
{
    let row = copied(alloc, chunks.as_slice())?;
    let made = cut(alloc, row.as_slice(), size)?;
    settle_all(homes, made.as_slice());
    *chunks = made;
    Ok(())
}

/// Sees that the chunk where a position falls has room: where it is far longer than others, the row
/// is cut anew. An `Err` changes nothing.
fn make_room(
    alloc: Global,
    chunks: &mut Vec<Chunk>,
    homes: &mut [usize],
    at: usize,
    size: usize,
) -> Result<(), Memory>
    requires size { 0 < size }
    requires small { size ≤ 2 ^ 32 }
    requires home { AtHome chunks.old.items homes.old }
    requires once { EachOnce (joined chunks.old.items) }
    ensures row { joined chunks.new.items ≡ joined chunks.old.items }
    ensures home { AtHome chunks.new.items homes.new }
{
    if chunks.is_empty() {
        return Ok(());
    }
    let (home, _) = place_at(chunks.as_slice(), at);
    if chunks[home].as_slice().len() < 2 * size {
        return Ok(());
    }
    cut_anew(alloc, chunks, homes, size)
}

/// Sees that there is a chunk.
fn begin(alloc: Global, chunks: &mut Vec<Chunk>) -> Result<(), Memory>
    ensures row { joined chunks.new.items ≡ joined chunks.old.items }
    ensures home { (homes : List ℕ) → AtHome chunks.old.items homes
        → AtHome chunks.new.items homes }
    ensures some { OnOk result (0 < length chunks.new.items) }
{
    if !chunks.is_empty() {
        return Ok(());
    }
    chunks.push(Chunk::of(alloc, &[])?)?;
    Ok(())
}

/// Sees that a number may have a home.
fn reach(homes: &mut Vec<usize>, number: usize) -> Result<(), Memory>
    ensures kept { (other home : ℕ) → slice_get homes.old.items other ≡ Some home
        → slice_get homes.new.items other ≡ Some home }
    ensures reached { OnOk result (number < length homes.new.items) }
{
    'growing: while homes.len() <= number {
        homes.push(0)?;
    }
    Ok(())
}

/// Puts a number in at a position of the row, and gives it its home. An `Err` changes nothing.
fn insert(chunks: &mut [Chunk], homes: &mut [usize], at: usize, number: usize) -> Result<(), Memory>
    requires some { 0 < length chunks.old }
    requires within { number < length homes.old }
    requires home { AtHome chunks.old homes.old }
    requires new { stands number (joined chunks.old) ≡ false }
    ensures ok { OnOk result (
        joined chunks.new ≡ take at (joined chunks.old) ++ number ∷ drop at (joined chunks.old)) }
    ensures err { OnErr result (joined chunks.new ≡ joined chunks.old) }
    ensures home { AtHome chunks.new homes.new }
{
    let (home, place) = place_at(chunks, at);
    chunks[home].put_in(place, number)?;
    homes[number] = home;
    Ok(())
}

/// Numbers in a row, each at most once. Each has a home, the chunk where it stands, so that it is
/// looked for in that one alone.
pub(crate) struct Order {
    chunks: Vec<Chunk>,
    // the index of each number's chunk; of a number that stands nowhere it says nothing
    homes: Vec<usize>,
    len: usize,
}

impl Drop for Order {
    fn drop(self) {
        let Order {
            chunks,
            homes,
            len: _,
        } = self;
        drop(chunks);
        drop(homes);
    }
}

impl Model for Order {
    ghost use Rattle.std.specs.Prelude.{List, ℕ};
    ghost use Rattle.ve_items.specs.Blocks.{joined};
    ghost use Rattle.ve_tx.specs.Order.{IsKept};

    ghost Value = { List ℕ };

    ghost view = { λ order. joined order.chunks.items };

    ghost invariant = { λ order. IsKept order.chunks.items order.homes.items order.len };
}

impl Order {
    /// So many numbers from 0 on.
    pub fn first(alloc: Global, count: usize) -> Result<Order, Memory>
        ensures { IfOk result (λ order. order ≡ counted 0 count) }
    {
        let numbers = numbers_below(alloc, count)?;
        let chunks = cut(alloc, numbers.as_slice(), chunk_size(count))?;
        // there is a home for each number, so the memory of the numbers serves for the homes
        let mut homes = numbers;
        settle_all(homes.as_mut_slice(), chunks.as_slice());
        Ok(Order {
            chunks,
            homes,
            len: count,
        })
    }

    /// How many numbers stand before one; none where it doesn't stand there.
    pub fn position(&self, number: usize) -> Option<usize>
        ensures { result ≡ place_of number self.now }
    {
        position_in(self.chunks.as_slice(), self.homes.as_slice(), number)
    }

    /// Takes a number out, where it stands there.
    pub fn take_out(&mut self, number: usize)
        ensures { self.new ≡ without number self.old }
    {
        if !take_from(self.chunks.as_mut_slice(), self.homes.as_slice(), number) {
            return;
        }
        self.len -= 1;
    }

    /// Puts a number in at a position, or at the end where the position is past it. An `Err`
    /// changes nothing.
    pub fn put_in(&mut self, alloc: Global, at: usize, number: usize) -> Result<(), Memory>
        requires { ¬ Contains self.old number }
        ensures ok { OnOk result (self.new ≡ take at self.old ++ number ∷ drop at self.old) }
        ensures err { OnErr result (self.new ≡ self.old) }
    {
        let Some(len) = self.len.checked_add(1) else {
            return Err(Memory);
        };
        make_room(
            alloc,
            &mut self.chunks,
            self.homes.as_mut_slice(),
            at,
            chunk_size(len),
        )?;
        begin(alloc, &mut self.chunks)?;
        reach(&mut self.homes, number)?;
        insert(
            self.chunks.as_mut_slice(),
            self.homes.as_mut_slice(),
            at,
            number,
        )?;
        self.len = len;
        Ok(())
    }

    /// A copy of the row.
    pub fn numbers(&self, alloc: Global) -> Result<Vec<usize>, Memory>
        ensures { IfOk result (λ numbers. numbers.items ≡ self.now) }
    {
        copied(alloc, self.chunks.as_slice())
    }
}
