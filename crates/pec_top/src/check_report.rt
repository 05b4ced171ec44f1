//! The report of `check` as text, and how a run ends that writes it. `specs/CheckReport.antt` has both.

ghost use Rattle.std.specs.Prelude.{◌≡◌, ◌++◌, All, IfOk, OnOk, not, flat_map, count_by};
ghost use Rattle.std.specs.List.{list_all};
ghost use Rattle.pec_top.specs.CheckReport.{check_line, check_word, valid_count, not_valid_count, check_counts, checks_text, checks_ending, IsCheckReport};
ghost use Rattle.pec_top.specs.FaultlessItems.{IsFaultless};

use crate::check::{Check, checks};
use crate::content::Item;
use crate::no_memory::NoMemory;
use crate::output::{Ending, Output, put};
use crate::report::put_count;
use sqlite_items::Items;
use std::alloc::Global;

/// The report on the certificates among these items.
pub fn check_report(alloc: Global, items: &[Item]) -> Result<Output, NoMemory>
    requires { All IsFaultless items.now }
    ensures { IfOk result (IsCheckReport items.now) }
{
    let all = checks(alloc, items)?;
    let text = Items::from_vec(checks_text(alloc, all.as_slice())?);
    let ending = checks_ending(all.as_slice());
    Ok(Output { text, ending })
}

fn checks_text(alloc: Global, all: &[Check]) -> Result<Vec<u8>, NoMemory>
    ensures { IfOk result (λ text. text.items ≡ checks_text all.now) }
{
    let mut out = Vec::new(alloc);
    put(b"report check\n", &mut out)?;
    put_checks(all, &mut out)?;
    put_counts(all, &mut out)?;
    put(b"end\n", &mut out)?;
    Ok(out)
}

fn checks_ending(all: &[Check]) -> Ending
    ensures { result ≡ checks_ending all.now }
{
    if are_all_valid(all) {
        Ending::Done
    } else {
        Ending::SomeFailed
    }
}

fn are_all_valid(all: &[Check]) -> bool
    ensures { result ≡ list_all (λ check. check.is_valid) all.now }
{
    all.iter().all(|check| check.is_valid)
}

/// Puts the line of each check.
fn put_checks(all: &[Check], out: &mut Vec<u8>) -> Result<(), NoMemory>
    ensures { OnOk result (out.new.items ≡ out.old.items ++ flat_map check_line all.now) }
{
    for check in all {
        put_check(check, out)?;
    }
    Ok(())
}

fn put_check(check: &Check, out: &mut Vec<u8>) -> Result<(), NoMemory>
    ensures { OnOk result (out.new.items ≡ out.old.items ++ check_line check.now) }
{
    put(b"cert ", out)?;
    put(check.title.as_slice(), out)?;
    put(check_word(check.is_valid), out)
}

/// What follows the title in the line of a check.
fn check_word(is_valid: bool) -> &'static [u8]
    ensures { result.now ≡ check_word is_valid }
{
    if is_valid {
        b" valid\n"
    } else {
        b" not valid\n"
    }
}

/// Puts how many certificates are valid and are not.
fn put_counts(all: &[Check], out: &mut Vec<u8>) -> Result<(), NoMemory>
    ensures { OnOk result (out.new.items ≡ out.old.items ++ check_counts all.now) }
{
    put_count(b"valid ", valid_count(all) as u64, out)?;
    put_count(b"not valid ", not_valid_count(all) as u64, out)
}

fn valid_count(all: &[Check]) -> usize
    ensures { result ≡ valid_count all.now }
{
    all.iter().filter(|check| check.is_valid).count()
}

fn not_valid_count(all: &[Check]) -> usize
    ensures { result ≡ not_valid_count all.now }
{
    all.iter().filter(|check| !check.is_valid).count()
}
