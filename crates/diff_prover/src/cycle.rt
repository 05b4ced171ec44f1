//! The check of a cycle of rows: exact, and a yes refutes the rows.
//! `specs/Cycle.antt` says what a cycle with a negative sum is. That one refutes the rows is the
//! easy half of Farkas' lemma for differences: the rows of a cycle add up to `0 <= sum`.

ghost use Rattle.std.specs.Prelude.{◌≤◌, ◌^◌, ◌↔◌, length, All, IsTrue};
ghost use Rattle.diff_prover.specs.Row.{IsWithin, HaveNoSolution};
ghost use Rattle.diff_prover.specs.Cycle.{IsNegativeCycle};

use crate::row::DiffRow;

/// Whether the rows at the places in `cycle` make a cycle with a negative sum: there is at least one,
/// each place is in range, and each row's right is the next row's left, from the last to the first too.
/// The rows' numbers have magnitudes of at most 2^65, and `cycle` has at most 65,536 places.
pub fn check_cycle(rows: &[DiffRow], cycle: &[usize]) -> bool
    requires magnitudes { All (λ row. IsWithin (2 ^ 65) row.by) rows.now }
    requires short { length cycle.now ≤ 65536 }
    ensures exact { IsTrue result ↔ IsNegativeCycle rows.now cycle.now }
    ensures refutes { IsTrue result → HaveNoSolution rows.now }
{
    let Some((first, others)) = cycle.split_first() else {
        return false;
    };
    let Some(start) = rows.get(*first) else {
        return false;
    };
    let mut at = start.right;
    let mut sum = start.by;
    for place in others {
        let Some(row) = rows.get(*place) else {
            return false;
        };
        if row.left != at {
            return false;
        }
        at = row.right;
        sum += row.by;
    }
    at == start.left && sum < 0
}
