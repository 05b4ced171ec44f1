//! A stage of the elimination: lines in lowest terms, each with the number of the row that it is.
//! Equal lines are found by a hash, and not by a scan. `specs/Stage.antt` says which lines are taken.

ghost use Rattle.std.specs.Prelude.{◌≡◌, [], ◌∷◌, ◌++◌, false, All, IfOk, OnOk};
ghost use Rattle.std.specs.List.{list_any};
ghost use Rattle.std.specs.Ordering.{int_eq};
ghost use Rattle.std.specs.Cmp.Lexicographic.{pointwise};
ghost use Rattle.linear_rows.specs.Stage.{is_dropped, cut_of, lowest, IsSmall, IsWide};
ghost use Rattle.linear_rows.specs.Lines.{lines_of, Takes, Gathers};
ghost use Rattle.linear_rows.specs.Recorded.{RecordsStep};

use crate::answer::RowKind;
use crate::line::{are_small, is_always_met, lower};
use crate::no_memory::NoMemory;
use crate::record::Record;
use crate::step::RowStep;
use indexmap::IndexSet;
use std::alloc::Global;

/// The greatest number of lines of a stage.
const MOST_LINES: usize = 4096;

/// The lines of a stage, in order.
#[derive(Drop)]
pub struct Stage {
    /// Each line once.
    pub lines: IndexSet<Vec<i128>>,
    /// The number of the row that each line is.
    pub numbers: Vec<u32>,
}

impl Stage {
    /// No line yet.
    pub fn new(alloc: Global) -> Stage
        ensures lines { lines_of result ≡ [] }
        ensures numbers { result.numbers.items ≡ [] }
    {
        Stage {
            lines: IndexSet::new(alloc),
            numbers: Vec::new(alloc),
        }
    }

    /// Whether a line is always met or is there already.
    fn drops(&self, line: &[i128]) -> bool
        ensures { result ≡ is_dropped (lines_of self.now) line.now }
    {
        is_always_met(line) || self.lines.contains(line)
    }

    /// Takes a line once it is in lowest terms, or names the limit that it passes.
    pub fn take(
        &mut self,
        line: Vec<i128>,
        step: RowStep,
        history: &mut Record,
    ) -> Result<Option<RowKind>, NoMemory>
        requires wide { IsWide line.items }
        requires small { All IsSmall (lines_of self.old) }
        ensures gathered { IfOk result (Gathers (lines_of self.old) (line.items ∷ []) (lines_of self.new)) }
        ensures small { OnOk result (All IsSmall (lines_of self.new)) }
        ensures recorded { OnOk result (step.cut ≡ 1 → RecordsStep step line.items history.old self.old history.new self.new) }
    {
        let mut line = line;
        let cut = lower_line(&mut line);
        self.take_lowest(line, RowStep { cut, ..step }, history)
    }

    /// Takes a line in lowest terms, or names the limit that it passes.
    fn take_lowest(
        &mut self,
        line: Vec<i128>,
        step: RowStep,
        history: &mut Record,
    ) -> Result<Option<RowKind>, NoMemory>
        requires { All IsSmall (lines_of self.old) }
        ensures taken { IfOk result (Takes (lines_of self.old) line.items (lines_of self.new)) }
        ensures small { OnOk result (All IsSmall (lines_of self.new)) }
        ensures recorded { OnOk result (RecordsStep step line.items history.old self.old history.new self.new) }
    {
        if self.drops(&line) {
            return Ok(None);
        }
        if self.lines.len() >= MOST_LINES {
            return Ok(Some(RowKind::Rows));
        }
        if !are_small(&line) {
            return Ok(Some(RowKind::Coefficient));
        }
        let number = history.number_of(step)?;
        self.add(line, number)?;
        Ok(None)
    }

    /// Puts a line that is not there yet at the end.
    fn add(&mut self, line: Vec<i128>, number: u32) -> Result<(), NoMemory>
        requires { list_any (pointwise int_eq line.items) (lines_of self.old) ≡ false }
        ensures lines { OnOk result (lines_of self.new ≡ lines_of self.old ++ line.items ∷ []) }
        ensures numbers { OnOk result (self.new.numbers.items ≡ self.old.numbers.items ++ number ∷ []) }
    {
        self.numbers.push(number)?;
        let _added = self.lines.insert(line)?;
        Ok(())
    }
}

/// Divides a line by the greatest common divisor of its numbers, and says what that is.
fn lower_line(line: &mut Vec<i128>) -> u128
    requires { IsWide line.old.items }
    ensures lowest { line.new.items ≡ lowest line.old.items }
    ensures cut { result ≡ cut_of line.old.items }
{
    lower(line)
}
