//! `pec_bench run STEPS`: standard input is the body of a program, which is run for at most so many steps from the store in
//! which every cell holds 0. Prints what the run comes to, and how many cells are not 0.

use crate::texts::section;
use anyhow::{Context, Result, bail};
use pec_text::SectionKind;
use program_reader::read_program;
use toy_run::{Ran, run_program};

/// Does it, and prints what was found.
pub fn run(rt: &HostRuntime, steps: &str) -> Result<()> {
    let steps = steps.parse::<u64>().context("how many steps")?;
    let Ok(section) = section(rt, SectionKind::Program) else {
        bail!("no program could be read");
    };
    let Ok(program) = read_program(rt.alloc(), &section) else {
        bail!("the input is no program");
    };
    let Ok(ran) = run_program(rt.alloc(), &program, steps) else {
        bail!("out of memory");
    };
    match ran {
        Ran::Ended(cells, n) => {
            let count = cells.len();
            println!(rt; "ended {n} cells {count}")?;
        }
        Ran::Halted(cells, n) => {
            let count = cells.len();
            println!(rt; "halted {n} cells {count}")?;
        }
        Ran::Spent => println!(rt; "spent")?,
        Ran::Wide(k) => println!(rt; "wide {k}")?,
    }
    Ok(())
}
