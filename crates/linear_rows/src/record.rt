//! The record of the steps that made the lines of all stages. `specs/Recorded.antt` says what it knows of them:
//! the row that a step makes has a number, and keeps it.

ghost use Rattle.std.specs.Prelude.{◌≡◌, ◌+◌, ◌-◌, [], IfOk, take};
ghost use Rattle.linear_rows.specs.Recorded.{same_row, Numbers};

use crate::no_memory::NoMemory;
use crate::step::RowStep;
use std::alloc::Global;

/// The steps so far, over so many given rows.
#[derive(Drop)]
pub struct Record {
    /// How many rows are given.
    pub given: usize,
    /// The steps, in order.
    pub steps: Vec<RowStep>,
}

impl Record {
    /// No step yet.
    pub fn new(alloc: Global, given: usize) -> Record
        ensures given { result.given ≡ given }
        ensures steps { result.steps.items ≡ [] }
    {
        Record {
            given,
            steps: Vec::new(alloc),
        }
    }

    /// The number of the row that a step makes. A step that changes nothing is not recorded.
    pub fn number_of(&mut self, step: RowStep) -> Result<u32, NoMemory>
        ensures { IfOk result (Numbers self.old step self.new) }
    {
        if step.by == 1 && step.times == 0 && step.cut == 1 {
            return Ok(step.first);
        }
        let number = u32::try_from(self.given.saturating_add(self.steps.len()));
        let Ok(number) = number else {
            return Err(NoMemory);
        };
        self.steps.push(step)?;
        Ok(number)
    }

    /// The steps up to the one that makes the row of this number.
    pub fn steps_to(self, number: u32) -> Vec<RowStep>
        ensures { result.items ≡ take (number + 1 - self.given) self.steps.items }
    {
        let Record { given, mut steps } = self;
        steps.truncate((number as usize).saturating_add(1).saturating_sub(given));
        steps
    }
}

/// The step that leaves a row as it is.
pub fn same_row(number: u32) -> RowStep
    ensures { result ≡ same_row number }
{
    RowStep {
        first: number,
        by: 1,
        second: number,
        times: 0,
        cut: 1,
    }
}
