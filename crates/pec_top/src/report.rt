//! The report of `prove` as text, and how a run ends that writes it. `specs/Report.antt` has both.

ghost use Rattle.std.specs.Prelude.{◌≡◌, ◌++◌, IfOk, OnOk, not, flat_map, count_by};
ghost use Rattle.std.specs.List.{list_all};
ghost use Rattle.pec_top.specs.Report.{verdict_line, verdict_word, count_line, proved_count, refused_count, counts_text, report_text, report_ending};

use crate::no_memory::NoMemory;
use crate::output::{Ending, put};
use crate::verdict::Verdict;
use itoa::Buffer;
use std::alloc::Global;

/// The report of these verdicts.
pub fn report_text(alloc: Global, all: &[Verdict]) -> Result<Vec<u8>, NoMemory>
    ensures { IfOk result (λ text. text.items ≡ report_text all.now) }
{
    let mut out = Vec::new(alloc);
    put(b"report prove\n", &mut out)?;
    put_verdicts(all, &mut out)?;
    put_counts(all, &mut out)?;
    put(b"end\n", &mut out)?;
    Ok(out)
}

/// How a run ends that reports these verdicts.
pub fn report_ending(all: &[Verdict]) -> Ending
    ensures { result ≡ report_ending all.now }
{
    if are_all_proved(all) {
        Ending::Done
    } else {
        Ending::SomeFailed
    }
}

fn are_all_proved(all: &[Verdict]) -> bool
    ensures { result ≡ list_all (λ verdict. verdict.is_proved) all.now }
{
    all.iter().all(|verdict| verdict.is_proved)
}

/// Puts the line of each verdict.
fn put_verdicts(all: &[Verdict], out: &mut Vec<u8>) -> Result<(), NoMemory>
    ensures { OnOk result (out.new.items ≡ out.old.items ++ flat_map verdict_line all.now) }
{
    for verdict in all {
        put_verdict(verdict, out)?;
    }
    Ok(())
}

fn put_verdict(verdict: &Verdict, out: &mut Vec<u8>) -> Result<(), NoMemory>
    ensures { OnOk result (out.new.items ≡ out.old.items ++ verdict_line verdict.now) }
{
    put(b"rule ", out)?;
    put(verdict.title.as_slice(), out)?;
    put(verdict_word(verdict.is_proved), out)
}

/// What follows the title in the line of a verdict.
fn verdict_word(is_proved: bool) -> &'static [u8]
    ensures { result.now ≡ verdict_word is_proved }
{
    if is_proved {
        b" proved\n"
    } else {
        b" refused\n"
    }
}

/// Puts how many rules there are, are proved and are refused.
fn put_counts(all: &[Verdict], out: &mut Vec<u8>) -> Result<(), NoMemory>
    ensures { OnOk result (out.new.items ≡ out.old.items ++ counts_text all.now) }
{
    put_count(b"rules ", all.len() as u64, out)?;
    put_count(b"proved ", proved_count(all) as u64, out)?;
    put_count(b"refused ", refused_count(all) as u64, out)
}

/// Puts a word, a number and the end of the line.
pub fn put_count(word: &[u8], count: u64, out: &mut Vec<u8>) -> Result<(), NoMemory>
    ensures { OnOk result (out.new.items ≡ out.old.items ++ count_line word.now count) }
{
    let mut buffer = Buffer::new();
    put(word, out)?;
    put(buffer.format(count).as_bytes(), out)?;
    put(b"\n", out)
}

fn proved_count(all: &[Verdict]) -> usize
    ensures { result ≡ proved_count all.now }
{
    all.iter().filter(|verdict| verdict.is_proved).count()
}

fn refused_count(all: &[Verdict]) -> usize
    ensures { result ≡ refused_count all.now }
{
    all.iter().filter(|verdict| !verdict.is_proved).count()
}
