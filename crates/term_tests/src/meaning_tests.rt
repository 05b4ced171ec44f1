//! What store terms mean under a table of runs, worked out by hand: the cases of the laws of terms, and
//! terms behind runs that do not end or of which the table says nothing.

use sqlite_items::Items;
use std::alloc::Global;
use std::test::Fail;
use term_examples::store;
use term_run::{Meant, Run, Setting, store_means};
use toy_imp::{Block, Expr, Filling, Instance, Name, NoMemory};
use toy_run::Cell;

fn bytes(alloc: Global, text: &str) -> Result<Items<u8>, NoMemory> {
    Ok(Items::from_slice(alloc, text.as_bytes())?)
}

// The index of a cell, if it has one.
fn indices(alloc: Global, index: &str) -> Option<Items<i128>> {
    let mut indices = Items::new(alloc);
    if let Some(index) = index.strip_suffix("]") {
        let index = index.parse::<i128>().ok()?;
        indices.push(index).ok()?;
    }
    Some(indices)
}

fn named(
    name: Result<Items<u8>, NoMemory>,
    indices: Option<Items<i128>>,
    value: i128,
) -> Option<Cell> {
    Some(Cell {
        name: name.ok()?,
        indices: indices?,
        value,
    })
}

// A cell with its value, as in `x=1` and `x[3]=4`.
fn cell(alloc: Global, text: &str) -> Option<Cell> {
    let (place, value) = text.split_once("=")?;
    let (name, index) = place.split_once("[").unwrap_or((place, ""));
    let value = value.parse::<i128>().ok()?;
    named(bytes(alloc, name), indices(alloc, index), value)
}

fn cells(alloc: Global, text: &str) -> Option<Items<Cell>> {
    let mut all = Items::new(alloc);
    for word in text.split_whitespace() {
        all.push(cell(alloc, word)?).ok()?;
    }
    Some(all)
}

fn run(statement: u32, from: Option<Items<Cell>>, to: Option<Option<Items<Cell>>>) -> Option<Run> {
    Some(Run {
        statement,
        from: from?,
        to: to?,
    })
}

// The store in which a run ends, where it does.
fn end(alloc: Global, text: &str) -> Option<Option<Items<Cell>>> {
    if text == "none" {
        Some(None)
    } else {
        cells(alloc, text).map(Some)
    }
}

fn push_run(table: &mut Items<Run>, run: Option<Run>) -> Option<()> {
    table.push(run?).ok()
}

fn add_run(alloc: Global, table: &mut Items<Run>, text: &str) -> Option<()> {
    let (statement, stores) = text.split_once(": ")?;
    let (from, to) = stores.split_once(" -> ")?;
    let statement = statement.parse::<u32>().ok()?;
    push_run(table, run(statement, cells(alloc, from), end(alloc, to)))
}

fn name(alloc: Global, text: &str) -> Option<Name> {
    let bytes = bytes(alloc, text).ok()?;
    Some(Name::Own(bytes))
}

// The expression of a name and a number.
fn sum(alloc: Global, name: Option<Name>, by: i64) -> Option<Expr> {
    let cell = Expr::at(name?, Items::new(alloc));
    Expr::add(alloc, cell, Expr::num(by)).ok()
}

// `name x`; `plus 5`, the expression `x + 5`; or a block, of which the table tells the runs.
fn filling(alloc: Global, text: &str) -> Option<Filling> {
    let (kind, of) = text.split_once(" ").unwrap_or((text, ""));
    match kind {
        "name" => name(alloc, of).map(Filling::Name),
        "plus" => {
            let by = of.parse::<i64>().ok()?;
            sum(alloc, name(alloc, "x"), by).map(Filling::Expr)
        }
        _ => Some(Filling::Stmt(Block::new(alloc))),
    }
}

fn push_filling(instance: &mut Instance, filling: Option<Filling>) -> Option<()> {
    instance.fillings.push(filling?).ok()
}

fn add_fillings(alloc: Global, instance: &mut Instance, text: &str) -> Option<()> {
    for text in text.split(", ") {
        push_filling(instance, filling(alloc, text))?;
    }
    Some(())
}

const FILLINGS: &str = "name x, name y, block, block, plus 5, name x";

// Of two entries for one run the later counts.
const RUNS: &str = "\
2: x=1 -> x=2
2: x=1 -> x=9
2:  -> none
3: x=9 -> y=5
3: x=1 y=7 -> x=1 y=7 x[3]=4";

fn empty(alloc: Global) -> Setting {
    Setting {
        instance: Instance {
            fillings: Items::new(alloc),
        },
        table: Items::new(alloc),
        left: Items::new(alloc),
        right: Items::new(alloc),
    }
}

fn fill_in(alloc: Global, w: &mut Setting) -> Option<()> {
    add_fillings(alloc, &mut w.instance, FILLINGS)?;
    for line in RUNS.lines() {
        add_run(alloc, &mut w.table, line)?;
    }
    w.left = cells(alloc, "x=1")?;
    Some(())
}

fn setting(alloc: Global) -> Option<Setting> {
    let mut w = empty(alloc);
    fill_in(alloc, &mut w)?;
    Some(w)
}

// The last value written to a cell counts, and 0 is held where none was.
fn held(cells: &[Cell], name: &[u8], indices: &[i128]) -> i128 {
    let found = cells.iter().rev().find(|c| c.name.as_slice() == name
        && c.indices.as_slice() == indices);
    found.map_or(0, |c| c.value)
}

// What x, y and x[3] hold.
fn contents(alloc: Global, cells: &[Cell]) -> Option<String> {
    let x = held(cells, b"x", &[]);
    let y = held(cells, b"y", &[]);
    let third = held(cells, b"x", &[3]);
    format!(in alloc; "{x} {y} {third}").ok()
}

fn described(alloc: Global, meant: &Meant) -> Option<String> {
    match meant {
        Meant::Nothing => String::from_str(alloc, "nothing").ok(),
        Meant::Wide => String::from_str(alloc, "wide").ok(),
        Meant::Store(cells) => contents(alloc, cells.as_slice()),
    }
}

fn shown(alloc: Global, w: &Setting, text: &str) -> Option<String> {
    let term = store(alloc, text)?;
    let meant = store_means(alloc, w, &term).ok()?;
    described(alloc, &meant)
}

// Terms, and what x, y and x[3] hold in the stores that they mean.
const ROWS: &str = "\
L => 1 0 0
R => 0 0 0
run2 L => 9 0 0
run2 R => nothing
run3 L => nothing
run3 run2 L => 0 5 0
run3 run2 R => nothing
run3 put1 L 7 => 1 7 4
run2 put0 L 0 => nothing
run2 put1 put1 L 7 0 => 9 0 0
put0 L 7 => 7 0 0
put1 L 7 => 1 7 0
put5 L 7 => 7 0 0
put9 L 7 => 1 0 0
put0/1 L 3 8 => 1 0 8
put0 run2 R 7 => nothing
put0 put1 L 7 8 => 8 7 0
put1 put0 L 8 7 => 8 7 0
put1 put1 L 7 8 => 1 8 0
put1 L get0 put0 R 7 => 1 7 0
put1 L get5 put0 R 7 => 1 7 0
put1 L get0 put1 L 7 => 1 1 0
put1 L get0 put0/1 L 3 8 => 1 1 0
put1 L get0/1 3 put0/1 L 3 8 => 1 8 0
put1 L get0/1 3 put0/1 L 2 8 => 1 0 0
put1 L get0/1 3 run3 put1 L 7 => 1 4 0
put1 L ev4 L => 1 6 0
put1 L ev9 L => 1 0 0
put1 L ev4 run2 R => 1 0 0
put1 L get0 run2 R => 1 0 0
put1 L add get0 run2 L 3 => 1 12 0
put1 L sub 2 get0 run2 L => 1 -7 0
put1 L mul 4 sub 0 3 => 1 -12 0
put1 L mul mul 9223372036854775807 9223372036854775807 mul 9223372036854775807 2 => wide";

#[test]
fn terms_mean_what_was_worked_out(rt: HostRuntime) -> Result<(), Fail> {
    let w = setting(rt.alloc()).expect(&rt, "a setting");
    for line in ROWS.lines() {
        let (text, wanted) = line.split_once(" => ").unwrap_or((line, ""));
        let found = shown(rt.alloc(), &w, text).expect(&rt, text);
        assert_eq!(rt; found.as_str(), wanted, "{text}");
    }
    Ok(())
}
