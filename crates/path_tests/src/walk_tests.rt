//! Rules with programs for their parameters: a run along the paths of the left side and a run of the filled left
//! side come out alike.

use crate::walking::{run_along, run_whole};
use program_examples::rule;
use std::alloc::Global;
use std::test::Fail;
use toy_imp::Rule;

// A rule's body; what stands for its parameters; the store before; and how the run comes out: the store in which it
// ends, or in front of `halts` the one in which it halts.
const ROWS: &str = "\
stmt S; left { S; skip; } right { S; } => x := x + 1; y := x; => x := 3;  => x := 4; y := 4;
name X; left { X := 1; X := X + X; } right { X := 2; } => v =>  => v := 2;
name X; expr E; left { X[E] := E; X := X[E + 0] - 1; } right { } => a & k + 1 => k := 4;  => a := 4; a[5] := 5; k := 4;
name X Y; left { if X < Y { X := Y; } else { Y := X; } } right { } => a & b => a := 7; b := 5;  => a := 7; b := 7;
name X Y; left { if X <= Y and not X == Y { X := Y; } else { Y := 0 - X; } } right { } => a & b => a := 5; b := 5;  => a := 5; b := -5;
test B; stmt S T; left { if B or B { S; } else { T; } S; } right { } => n < 2 & n := n + 1; & n := 9; => n := 1;  => n := 3;
test B; stmt S; left { while B { S; } } right { while B { S; if B { S; } else { } } } => i < 4 & s := s + i; i := i + 1; =>  => i := 4; s := 6;
name X; test B; left { while B { X := X + 1; } } right { } => i & i < 3 or i == 5 => i := 5;  => i := 6;
name X; stmt S; left { while X < 3 { S; X := X + 1; while X == 2 { X := X + 2; } } } right { } => i & t[i] := t[i] + i; => i := 1;  => i := 4; t[1] := 1;
stmt S T; left { S; T; } right { T; S; } => a[1] := 2; & while a[1] == 2 { } =>  => goes on
expr E; left { while 0 - E < E { skip; } } right { } => n => n := -3;  => n := -3;
test B; stmt S; left { assert B; S; } right { } => i < 4 & i := i + 1; => i := 4;  => i := 4; halts
test B; stmt S; left { assert B; S; } right { } => i < 4 & i := i + 1; => i := 3;  => i := 4;
test B; stmt S; left { S; assert B; } right { } => i < 4 & i := i + 1; => i := 3;  => i := 4; halts
name X; test B; left { while B { assert X < 3 or X == 9; X := X + 1; } } right { } => i & i < 5 => i := 1;  => i := 3; halts
test B C; stmt S; left { while B { assert C; S; assert not B; } } right { } => i < 2 & i < 5 & i := i + 1; =>  => i := 1; halts
stmt S T; left { S; T; } right { } => assert x < 1; x := 5; & y := 1; => x := 1;  => x := 1; halts";

/// The parts of a row.
#[derive(Clone, Copy)]
struct Row<'a> {
    rule: &'a str,
    fillings: &'a str,
    store: &'a str,
    wanted: &'a str,
}

fn parts_of<'a>(line: &'a str) -> Option<Row<'a>> {
    let (rule, rest) = line.split_once(" => ")?;
    let (fillings, rest) = rest.split_once(" => ")?;
    let (store, wanted) = rest.split_once(" => ")?;
    Some(Row {
        rule,
        fillings,
        store,
        wanted: wanted.trim(),
    })
}

fn texts<'a>(alloc: Global, fillings: &'a str) -> Option<Vec<&'a str>> {
    fillings.split(" & ").collect::<Vec<&str>>(alloc).ok()
}

fn run(alloc: Global, rule: Option<Rule>, row: Row<'_>, along: bool) -> Option<String> {
    let rule = rule?;
    let texts = texts(alloc, row.fillings)?;
    if along {
        run_along(alloc, &rule, texts.as_slice(), row.store)
    } else {
        run_whole(alloc, &rule, texts.as_slice(), row.store)
    }
}

// Whether the run of a row comes out as wanted, along paths or as a whole.
fn comes_out(alloc: Global, row: Row<'_>, along: bool) -> Option<bool> {
    let found = run(alloc, rule(alloc, row.rule), row, along)?;
    Some(found.as_str().trim() == row.wanted)
}

#[test]
fn paths_lead_where_the_program_does(rt: HostRuntime) -> Result<(), Fail> {
    for line in ROWS.lines() {
        let row = parts_of(line).expect(&rt, line);
        assert_eq!(rt; comes_out(rt.alloc(), row, true), Some(true), "{line}");
        assert_eq!(rt; comes_out(rt.alloc(), row, false), Some(true), "{line}");
    }
    Ok(())
}
