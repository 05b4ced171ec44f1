//! Systems of linear rows: one for each kind of answer, and each limit at its number and one above. All row steps
//! that are answered are checked.

ghost use Rattle.std.specs.Prelude.{◌≡◌, ◌≤◌, ◌^◌, unsigned_abs, All, IfOk, OnOk};
ghost use Rattle.linear_rows.specs.Row.{IsRowOver};

use linear_rows::{Row, RowRoom, Rows, check_multipliers, feasible};
use sqlite_items::Items;
use std::process::Abort;
use std::test::Fail;

/// A number of magnitude at most 2^62.
fn number(rt: &impl Abort, word: &str) -> Result<i64, Fail>
    ensures { IfOk result (λ z. unsigned_abs z ≤ 2 ^ 62) }
{
    let z = word.parse::<i64>()?;
    assert!(rt; z.unsigned_abs() <= 1 << 62);
    Ok(z)
}

/// The row of a line: its coefficients and its bound, parted by blanks.
fn row(rt: &(impl Abort + AllocGlobal), n: u32, line: &str) -> Result<Row, Fail>
    ensures { IfOk result (IsRowOver n) }
{
    let words = line.split(' ').collect::<Vec<&str>>(rt.alloc())?;
    let count = n as usize;
    assert_eq!(rt; words.len(), count + 1);
    let mut coefficients = Vec::new(rt.alloc());
    for i in 0..count {
        coefficients.push(number(rt, words[i])?)?;
    }
    let bound = number(rt, words[count])?;
    Ok(Row {
        coefficients: Items::from_vec(coefficients),
        bound,
    })
}

/// Adds the row of a line.
fn push_row(
    rt: &(impl Abort + AllocGlobal),
    n: u32,
    rows: &mut Vec<Row>,
    line: &str,
) -> Result<(), Fail>
    requires { All (IsRowOver n) rows.old.items }
    ensures { OnOk result (All (IsRowOver n) rows.new.items) }
{
    let row = row(rt, n, line)?;
    rows.push(row)?;
    Ok(())
}

/// The rows of a text, parted by semicolons.
fn rows_of(rt: &(impl Abort + AllocGlobal), n: u32, text: &str) -> Result<Vec<Row>, Fail>
    ensures { IfOk result (λ rows. All (IsRowOver n) rows.items) }
{
    let mut rows = Vec::new(rt.alloc());
    for line in text.split(';') {
        push_row(rt, n, &mut rows, line.trim())?;
    }
    Ok(rows)
}

/// The answer to the rows as a text: the number of its steps, the last number of its point, or the limit.
fn answer(rt: &(impl Abort + AllocGlobal), n: u32, rows: &[Row]) -> Result<String, Fail>
    requires few { n ≤ 64 }
    requires rows { All (IsRowOver n) rows.now }
{
    match feasible(rt.alloc(), n, rows)? {
        Rows::Empty(steps) => {
            let count = u32::try_from(steps.len())?;
            let mut room = RowRoom::new(rt.alloc(), n, count)?;
            assert!(rt; check_multipliers(n, rows, steps.as_slice(), &mut room));
            Ok(format!(in rt.alloc(); "empty {count}")?)
        }
        Rows::Point(point) => {
            let last = point.as_slice().last().ok_or("no variable")?;
            Ok(format!(in rt.alloc(); "point {}/{}", last.over, last.under)?)
        }
        Rows::Limit(mark) => Ok(format!(in rt.alloc(); "limit {} {:?}", mark.stage, mark.what)?),
    }
}

#[test]
fn answers_systems(rt: HostRuntime) -> Result<(), Fail> {
    let systems = "\
1 | -3 -7; 1 9 => point 7/3
2 | 1 1 1; -1 0 -1; 0 -1 -1 => empty 2
2 | -1 4611686018427387904 0; 1 1 1 => limit 1 Coefficient
2 | -1 4611686018427387903 0; 1 1 1 => point 1/4611686018427387904
2 | 2 1 0; 0 4611686018427387904 1 => limit 0 Point
2 | 1 1 0; 0 4611686018427387904 1 => point 1/4611686018427387904
3 | 0 1 2 0; 0 0 -1 -4611686018427387904; 1 0 0 0 => limit 1 Point";
    for line in systems.lines() {
        let (system, wanted) = line.split_once(" => ").ok_or("no answer")?;
        let (n, text) = system.split_once(" | ").ok_or("no rows")?;
        let n = n.parse::<u32>()?;
        assert!(rt; n <= 64);
        let rows = rows_of(&rt, n, text)?;
        let found = answer(&rt, n, &rows)?;
        assert_eq!(rt; found.as_str(), wanted, "{line}");
    }
    Ok(())
}

/// The answer to the first so many rows `x <= 0`, `x <= 1` and so on.
fn counted(rt: &(impl Abort + AllocGlobal), count: u32) -> Result<String, Fail> {
    let mut rows = Vec::new(rt.alloc());
    for bound in 0..count {
        let line = format!(in rt.alloc(); "1 {bound}")?;
        push_row(rt, 1, &mut rows, &line)?;
    }
    answer(rt, 1, &rows)
}

#[test]
fn limits_the_rows_of_a_stage(rt: HostRuntime) -> Result<(), Fail> {
    assert_eq!(rt; counted(&rt, 4096)?.as_str(), "point 0/1");
    assert_eq!(rt; counted(&rt, 4097)?.as_str(), "limit 0 Rows");
    Ok(())
}
