// Down to which row each column is covered: the row below a column's lowest cell, or 0.
ghost use Rattle.std.specs.Prelude.{◌≡◌, ◌≤◌, ◌<◌, ℕ, true, false, [], Ok, Some, None, All, IfOk, OnOk};
ghost use Rattle.ve_tables.specs.Runs.{AreFrom, IsBelow};
ghost use Rattle.ve_tables.specs.Floors.{AreApart, AreFreed, AreOut, AreTaken, HasTaken, IsCovering, IsFirst, IsInTheWay, IsSettled, IsStop};

use crate::runs::{Run, Runs};
use std::alloc::Global;
use ve_base::Memory;

/// Columns by runs of them: those that cells cover, by the row below the cell, and the others, by their first column.
/// From `width` on no cell ever covered one.
#[derive(Drop)]
pub struct Floors {
    pub taken: Runs,
    pub free: Runs,
    pub width: usize,
}

/// No columns are covered. It takes no memory.
pub fn no_floors(alloc: Global) -> Floors
    ensures { result ≡ record { taken = []; free = []; width = 0 } }
{
    Floors {
        taken: Runs::new(alloc),
        free: Runs::new(alloc),
        width: 0,
    }
}

/// Frees the columns that are covered above a row alone.
pub fn settle(floors: &mut Floors, row: usize) -> Result<(), Memory>
    requires { AreApart floors.old }
    ensures apart { OnOk result (AreApart floors.new) }
    ensures settled { OnOk result (IsSettled row floors.old floors.new) }
    ensures below { OnOk result (All (IsBelow row) floors.new.taken) }
{
    while let Some(run) = floors.taken.pop_up_to(row) {
        floors.free.push(Run {
            number: run.from,
            from: run.from,
            to: run.to,
        })?;
    }
    Ok(())
}

/// The first column that no run covers.
pub fn first_free(floors: &Floors) -> usize
    requires { AreApart floors.now }
    ensures { IsFirst floors.now result }
{
    match floors.free.least() {
        Some(first) => first,
        None => floors.width,
    }
}

/// Takes the free runs out that follow on one another from the first free column on, until another column is reached, and
/// gives the end of the last one.
fn free_end(free: &mut Runs, from: usize, to: usize) -> usize
    requires { AreFrom from free.old }
    ensures out { AreOut free.old from result free.new }
    ensures stop { IsStop result to free.new }
{
    let mut end = from;
    while end < to {
        match free.pop_up_to(end) {
            Some(run) => end = run.to,
            None => return end,
        }
    }
    end
}

/// Makes the columns from one on up to another free, if there are such.
fn free_rest(free: &mut Runs, from: usize, to: usize) -> Result<(), Memory>
    ensures { OnOk result (AreFreed free.old from to free.new) }
{
    if to <= from {
        return Ok(());
    }
    free.push(Run {
        number: from,
        from,
        to,
    })?;
    Ok(())
}

/// Covers the columns from the first free one on up to another, down to the row above `floor`. It answers `false` where one
/// of them is covered, and the floors are then of no use.
fn take_columns(floors: &mut Floors, from: usize, to: usize, floor: usize) -> Result<bool, Memory>
    requires apart { AreApart floors.old }
    requires order { from < to }
    requires first { IsFirst floors.old from }
    ensures taken { result ≡ Ok true → AreTaken floors.old from to floor floors.new }
    ensures apart { result ≡ Ok true → AreApart floors.new }
    ensures covered { result ≡ Ok false → HasTaken floors.old.taken from to }
{
    let end = free_end(&mut floors.free, from, to);
    if end < to.min(floors.width) {
        return Ok(false);
    }
    floors.width = floors.width.max(to);
    free_rest(&mut floors.free, to, end)?;
    floors.taken.push(Run {
        number: floor,
        from,
        to,
    })?;
    Ok(true)
}

/// Covers so many columns from the first one on that is free in a row, down to the row above `floor`, and gives that first
/// one; or none, where one of them is covered. The floors are then of no use.
pub fn cover(
    floors: &mut Floors,
    row: usize,
    columns: usize,
    floor: usize,
) -> Result<Option<usize>, Memory>
    requires apart { AreApart floors.old }
    requires some { 1 ≤ columns }
    ensures covering { (column : ℕ) → result ≡ Ok (Some column) →
        IsCovering row floors.old column columns floor floors.new }
    ensures in_the_way { result ≡ Ok None → IsInTheWay row floors.old columns }
{
    settle(floors, row)?;
    let column = first_free(floors);
    let Some(end) = column.checked_add(columns) else {
        return Err(Memory);
    };
    if take_columns(floors, column, end, floor)? {
        return Ok(Some(column));
    }
    Ok(None)
}
