//! The top call: it reads words and bytes, and writes bytes and a status.
//!
//! | status | where |
//! |---|---|
//! | 2 | the words name no command; nothing is read or written |
//! | 4 | a read failed; nothing is written |
//! | 3 | the input is refused; one line is written |
//! | 6 | want of memory; nothing is written |
//! | 1 | done, and a rule was refused, a certificate is not valid or a program did not end |
//! | 0 | done otherwise |
//!
//! Status 5 comes in place of 3, 1 and 0 where a write failed.

ghost use Rattle.std.specs.Prelude.{◌≡◌, ◌≢◌, ◌≤◌, ◌⊎◌, IfSome, map, string_bytes};
ghost use Rattle.pec_io.specs.Faults.{Rose};
ghost use Rattle.pec_io.specs.Reading.{taken_count};
ghost use Rattle.pec_top.specs.Command.{Name};
ghost use Rattle.pec_top.specs.FaultlessItems.{HasNoFault};
ghost use Rattle.pec_top.specs.PrintedItems.{IsPrintable};
ghost use Rattle.pec_top.specs.Serving.{input_limit, Writes, Serves};
ghost use Rattle.pec_top.specs.declared.command.Command.{Command};

use crate::command::{Command, named_by};
use crate::input::{Input, read_input};
use crate::no_memory::NoMemory;
use crate::output::output_of;
use pec_io::{Failed, ReadRefusal, Sink, Source, read_all, write_all};
use std::alloc::Global;

/// The greatest number of bytes of an input.
const INPUT_LIMIT: usize = 1_048_576;

/// Does the command that the words name: reads the whole input, writes the whole output, and
/// answers the status.
pub fn serve_plain<S: Source, K: Sink>(
    alloc: Global,
    words: &[String],
    input: &mut S,
    out: &mut K,
) -> u8
    ensures usage { result ≡ 2 → (command : Command) → ¬ (Name (map string_bytes words.now) command) }
    ensures command { result ≢ 2 → (command : Command) × Name (map string_bytes words.now) command }
    ensures unread { result ≡ 2 → input.new ≡ input.old }
    ensures unwritten { (result ≡ 2) ⊎ (result ≡ 4) ⊎ (result ≡ 6) → out.new ≡ out.old }

    ensures read_fault { result ≡ 4 → Rose (S.faults input.old) (S.faults input.new) }
    ensures read_within { result ≡ 4 → IfSome (taken_count (S.left input.old) (S.left input.new)) (λ count. count ≤ input_limit) }
    ensures write_fault { result ≡ 5 → Rose (K.faults out.old) (K.faults out.new) }

    ensures served { result ≢ 2 → result ≢ 4 → result ≢ 6 →
        Serves (map string_bytes words.now) (S.left input.old) (S.left input.new) (K.written out.old) (K.written out.new) result }
{
    let Some(command) = named_by(words) else {
        return 2;
    };
    match read_all(alloc, input, INPUT_LIMIT) {
        Ok(bytes) => match read_input(alloc, command, bytes.as_slice()) {
            Ok(found) => deliver(alloc, command, &found, out),
            Err(NoMemory) => 6,
        },
        Err(ReadRefusal::Large) => deliver(alloc, command, &Input::Larger, out),
        Err(ReadRefusal::Fault) => 4,
        Err(ReadRefusal::NoMemory) => 6,
    }
}

/// Writes the output of a command for an input and answers its status, 5 where a write failed, and 6
/// where there was not enough memory to make the output.
#[tactic(auto, using(crate::proofs::Inputs::written))]
fn deliver<K: Sink>(alloc: Global, command: Command, found: &Input, out: &mut K) -> u8
    requires printable { IsPrintable found.now }
    requires faultless { HasNoFault found.now }
    ensures delivered { result ≢ 6 → Writes command found.now (K.written out.old) (K.written out.new) result }
    ensures unwritten { result ≡ 6 → out.new ≡ out.old }
    ensures fault { result ≡ 5 → Rose (K.faults out.old) (K.faults out.new) }
{
    let Ok(output) = output_of(alloc, command, found) else {
        return 6;
    };
    match write_all(out, output.text.as_slice()) {
        Ok(()) => output.ending.status(),
        Err(Failed) => 5,
    }
}
