// Whether each place left of a column is covered.
ghost use Rattle.ve_tables.specs.CellQuestions.{IsFirstRagged};
ghost use Rattle.ve_tables.specs.Covered.{AreGaps};

/// The first row in which a place left of a column is covered by no cell, by the first such column of each row.
pub fn first_ragged(gaps: &[usize], column: usize) -> Option<usize>
    ensures { (g : _) → AreGaps g.cells g.rows gaps.now → IsFirstRagged column g result }
{
    for row in 0..gaps.len() {
        if gaps[row] < column {
            return Some(row);
        }
    }
    None
}
