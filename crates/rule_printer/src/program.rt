//! A program as the canonical text of its section. `IsTextOfProgram` of `specs/ProgramText.antt` says
//! what it reads back as.

ghost use Rattle.std.specs.Prelude.{◌≡◌, ◌++◌, [], codes, IfOk, OnOk};
ghost use Rattle.program_reader.specs.SpellableProgram.{IsSpellableProgram};
ghost use Rattle.rule_printer.specs.ProgramText.{program_text, program_body, IsTextOfProgram, ProgramPrintedAgain};

use crate::block_printing::put_lines;
use crate::phrase::put;
use std::alloc::Global;
use toy_imp::{Block, NoMemory, Param};

/// The canonical text of a program under a title: its section, which is read back as this program and
/// no other. `NoMemory` is the only error.
#[tactic(auto, using(crate::proofs::ProgramPrinted::printed_reads_back))]
pub fn print_program(alloc: Global, title: &[u8], program: &Block) -> Result<Vec<u8>, NoMemory>
    requires { IsSpellableProgram title.now program.now }
    ensures text { IfOk result (λ text. text.items ≡ program_text title.now program.now) }
    ensures reads_back { IfOk result (λ text. IsTextOfProgram text.items title.now program.now) }
{
    let mut out = Vec::new(alloc);
    put_program(title, program, &mut out)?;
    Ok(out)
}

/// Puts the section of a program.
pub fn put_program(title: &[u8], program: &Block, out: &mut Vec<u8>) -> Result<(), NoMemory>
    ensures { OnOk result (out.new.items ≡ out.old.items ++ program_text title.now program.now) }
{
    let params: &[Param] = &[];
    put_header(b"program ", title, out)?;
    put_lines(params, 0, program, out)?;
    put(b"end\n", out)
}

/// Puts the line of a header: a word, and the title.
pub fn put_header(word: &[u8], title: &[u8], out: &mut Vec<u8>) -> Result<(), NoMemory>
    ensures { OnOk result (out.new.items ≡ out.old.items ++ (word.now ++ (title.now ++ codes "\n"))) }
{
    put(word, out)?;
    put(title, out)?;
    put(b"\n", out)
}

/// What is read from the printed text of a program has that text: printed again, it is the same.
pub fn program_printed_again()
    ensures { ProgramPrintedAgain }
{}
