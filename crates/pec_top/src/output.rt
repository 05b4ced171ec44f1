//! What a command has to write for an input, and how the run ends that writes it whole.
//! `specs/Output.antt` says both.

ghost use Rattle.std.specs.Prelude.{◌≡◌, ◌++◌, All, IfOk, OnOk};
ghost use Rattle.pec_top.specs.Output.{status_of, ItemsOutput, OutputIs, OneOutput};
ghost use Rattle.pec_top.specs.FaultlessItems.{IsFaultless, HasNoFault};
ghost use Rattle.pec_top.specs.PrintedItems.{IsSpellable, IsPrintable};

use crate::check_report::check_report;
use crate::command::Command;
use crate::content::Item;
use crate::input::Input;
use crate::no_memory::NoMemory;
use crate::printed_items::items_text;
use crate::refusal_line::refusal_line;
use crate::report::{report_ending, report_text};
use crate::run_report::run_report;
use crate::verdict::verdicts;
use sqlite_items::Items;
use std::alloc::Global;

/// How a run ends that writes its whole output.
#[derive(Clone, Copy, Debug, PartialEq, Eq)]
pub enum Ending {
    /// All is done.
    Done,
    /// All is done, and a rule is refused, a certificate is not valid or a program did not end.
    SomeFailed,
    /// The input is refused.
    InputRefused,
}

/// What there is to write.
#[derive(Drop)]
pub struct Output {
    pub text: Items<u8>,
    pub ending: Ending,
}

impl Ending {
    /// The status of the run.
    pub fn status(self) -> u8
        ensures { result ≡ status_of self }
    {
        match self {
            Ending::Done => 0,
            Ending::SomeFailed => 1,
            Ending::InputRefused => 3,
        }
    }
}

/// What the command has to write for the input.
pub fn output_of(alloc: Global, command: Command, input: &Input) -> Result<Output, NoMemory>
    requires printable { IsPrintable input.now }
    requires faultless { HasNoFault input.now }
    ensures { IfOk result (OutputIs command input.now) }
{
    match input {
        Input::Accepted(items) => items_output(alloc, command, items.as_slice()),
        Input::Refused(refusal) => {
            let line = refusal_line(alloc, *refusal)?;
            Ok(refused_output(line))
        }
        Input::Larger => {
            let line = Vec::from_slice(alloc, b"input: larger than 1048576 bytes\n")?;
            Ok(refused_output(line))
        }
    }
}

ghost use Rattle.pec_top.specs.declared.output.Ending.TheVariants as ending;

/// The output of one line for an input that is refused.
fn refused_output(line: Vec<u8>) -> Output
    ensures { result ≡ record { text = line.items; ending = ending.InputRefused } }
{
    Output {
        text: Items::from_vec(line),
        ending: Ending::InputRefused,
    }
}

/// What the command has to write for these items.
fn items_output(alloc: Global, command: Command, items: &[Item]) -> Result<Output, NoMemory>
    requires printable { All IsSpellable items.now }
    requires faultless { All IsFaultless items.now }
    ensures { IfOk result (ItemsOutput command items.now) }
{
    match command {
        Command::Prove => {
            let all = verdicts(alloc, items)?;
            let text = Items::from_vec(report_text(alloc, all.as_slice())?);
            let ending = report_ending(all.as_slice());
            Ok(Output { text, ending })
        }
        Command::Check => check_report(alloc, items),
        Command::Print => {
            let text = Items::from_vec(items_text(alloc, items)?);
            let ending = Ending::Done;
            Ok(Output { text, ending })
        }
        Command::Run(steps) => run_report(alloc, steps, items),
    }
}

/// Puts these bytes behind the text.
pub fn put(bytes: &[u8], out: &mut Vec<u8>) -> Result<(), NoMemory>
    ensures { OnOk result (out.new.items ≡ out.old.items ++ bytes.now) }
{
    out.extend_from_slice(bytes)?;
    Ok(())
}

/// A law: a command has one output for an input. It does nothing.
pub fn one_output()
    ensures { OneOutput }
{}
