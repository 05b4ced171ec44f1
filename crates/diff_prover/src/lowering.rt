//! Lowering: a row that is not met sets its left variable's value to what its right one asks.
//! The row becomes that variable's parent; `specs/Search.antt` says what the parents explain.

ghost use Rattle.std.specs.Prelude.{◌≡◌, ◌<◌, ◌^◌, [], ◌∷◌, length, All};
ghost use Rattle.diff_prover.specs.Row.{IsWithin, IsRowOver};
ghost use Rattle.diff_prover.specs.Cycle.{row_at};
ghost use Rattle.diff_prover.specs.Search.{AreExplained, IsParent, Lowers, NeverRises};

use crate::row::DiffRow;

/// No value of a system that has a point falls below this.
const LOWEST: i128 = -(1 << 81);

/// Where values fell.
#[derive(Clone, Copy)]
pub enum Lowered {
    /// No value changed.
    Nowhere,
    /// Some did, and none below the lowest.
    Somewhere,
    /// This variable's fell below the lowest.
    Below(usize),
}

/// Looks at the row at `place`, and lowers its left variable's value where the row is not met.
fn lower_row(
    rows: &[DiffRow],
    place: usize,
    values: &mut [i128],
    parents: &mut [Option<usize>],
) -> Lowered
    requires place { place < length rows.now }
    requires rows { All (IsRowOver (length values.old)) rows.now }
    requires within { All (IsWithin (2 ^ 81)) values.old }
    requires explained { AreExplained (length values.old) rows.now values.old parents.old }
    ensures explained { AreExplained (length values.old) rows.now values.new parents.new }
    ensures lowered { Lowers (row_at rows.now place ∷ []) values.old values.new result }
    ensures kept { IsParent rows.now parents.old place → parents.new ≡ parents.old }
{
    let row = rows[place];
    let left = row.left as usize;
    let right = row.right as usize;
    let bound = values[right] + row.by;
    if values[left] <= bound {
        return Lowered::Nowhere;
    }
    values[left] = bound;
    parents[left] = Some(place);
    if bound < LOWEST {
        Lowered::Below(left)
    } else {
        Lowered::Somewhere
    }
}

/// Looks at each row once, from the first to the last or backward, and lowers what is not met.
pub fn lower_all(
    rows: &[DiffRow],
    backward: bool,
    values: &mut [i128],
    parents: &mut [Option<usize>],
) -> Lowered
    requires rows { All (IsRowOver (length values.old)) rows.now }
    requires within { All (IsWithin (2 ^ 81)) values.old }
    requires explained { AreExplained (length values.old) rows.now values.old parents.old }
    ensures explained { AreExplained (length values.old) rows.now values.new parents.new }
    ensures lowered { Lowers rows.now values.old values.new result }
{
    let count = rows.len();
    let mut lowered = false;
    for i in 0..count {
        let place = if backward { count - 1 - i } else { i };
        match lower_row(rows, place, values, parents) {
            Lowered::Nowhere => {}
            Lowered::Somewhere => lowered = true,
            Lowered::Below(variable) => return Lowered::Below(variable),
        }
    }
    if lowered {
        Lowered::Somewhere
    } else {
        Lowered::Nowhere
    }
}

/// Lowers the left variables of a walk along the parents, from the last row to the first, so that a
/// fall anywhere on the walk comes to its start at once. The answer is the variable whose value fell
/// below the lowest, where one did. How far the values fall is left open: it makes the search fast, and
/// no answer rests on it.
pub fn lower_walk(
    rows: &[DiffRow],
    walk: &[usize],
    values: &mut [i128],
    parents: &mut [Option<usize>],
) -> Option<usize>
    requires rows { All (IsRowOver (length values.old)) rows.now }
    requires walk { All (IsParent rows.now parents.old) walk.now }
    requires within { All (IsWithin (2 ^ 81)) values.old }
    requires explained { AreExplained (length values.old) rows.now values.old parents.old }
    ensures explained { AreExplained (length values.old) rows.now values.new parents.new }
    ensures kept { parents.new ≡ parents.old }
    ensures fallen { NeverRises values.old values.new result }
{
    for i in (0..walk.len()).rev() {
        if let Lowered::Below(variable) = lower_row(rows, walk[i], values, parents) {
            return Some(variable);
        }
    }
    None
}
