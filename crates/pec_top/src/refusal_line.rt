//! The line for an input that is refused. `specs/RefusalLine.antt` has it for each reason.

ghost use Rattle.std.specs.Prelude.{◌≡◌, ◌++◌, codes, decimal, IfOk, OnOk};
ghost use Rattle.pec_top.specs.RefusalLine.{reason_text, refusal_line};

use crate::content::Reason;
use crate::input::Refusal;
use crate::no_memory::NoMemory;
use crate::output::put;
use itoa::Buffer;
use std::alloc::Global;

/// The line for a section that is refused.
pub fn refusal_line(alloc: Global, refusal: Refusal) -> Result<Vec<u8>, NoMemory>
    ensures { IfOk result (λ text. text.items ≡ refusal_line refusal) }
{
    let mut buffer = Buffer::new();
    let mut out = Vec::new(alloc);
    put(b"input: section ", &mut out)?;
    put(buffer.format(refusal.section).as_bytes(), &mut out)?;
    put(b": ", &mut out)?;
    put_end(refusal.reason, &mut out)?;
    Ok(out)
}

/// Puts the reason and the end of the line.
fn put_end(reason: Reason, out: &mut Vec<u8>) -> Result<(), NoMemory>
    ensures { OnOk result (out.new.items ≡ out.old.items ++ (reason_text reason ++ codes "\n")) }
{
    put_reason(reason, out)?;
    put(b"\n", out)
}

fn put_reason(reason: Reason, out: &mut Vec<u8>) -> Result<(), NoMemory>
    ensures { OnOk result (out.new.items ≡ out.old.items ++ reason_text reason) }
{
    match reason {
        Reason::NoEnd => put(b"no end", out),
        Reason::StrayLine => put(b"stray line", out),
        Reason::NotGrammar => put(b"not in the grammar", out),
        Reason::TooWide => put(b"number too wide", out),
        Reason::IllFormed(item) => put_ill_formed(item, out),
        Reason::NotBuilt => put(b"not built", out),
    }
}

fn put_ill_formed(item: u8, out: &mut Vec<u8>) -> Result<(), NoMemory>
    ensures { OnOk result (out.new.items ≡ out.old.items ++ (codes "ill formed F" ++ decimal item)) }
{
    let mut buffer = Buffer::new();
    put(b"ill formed F", out)?;
    put(buffer.format(item).as_bytes(), out)
}
