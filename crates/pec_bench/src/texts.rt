//! `pec_bench read` and `pec_bench rules`: standard input is the body of a program, or of a rule titled `r`,
//! and what the reader answers is printed.

use crate::MOST;
use pec_io::{StdSource, read_all};
use pec_text::{Section, SectionKind};
use program_reader::{ReadRule, read_program};
use rule_reader::read_rule;
use sqlite_items::Items;

/// Reads a program.
pub fn program(rt: &HostRuntime) -> u8 {
    match section(rt, SectionKind::Program) {
        Ok(section) => said(rt, "program", done(read_program(rt.alloc(), &section))),
        Err(status) => status,
    }
}

/// Reads a rule.
pub fn rule(rt: &HostRuntime) -> u8 {
    match section(rt, SectionKind::Rule) {
        Ok(section) => said(rt, "rule", done(read_rule(rt.alloc(), &section))),
        Err(status) => status,
    }
}

/// Whether something was read, and why not.
fn done<T: Drop>(read: Result<T, ReadRule>) -> Result<(), ReadRule> {
    match read {
        Ok(_value) => Ok(()),
        Err(refusal) => Err(refusal),
    }
}

/// Standard input as the body of a section, or the status of a read that failed.
pub fn section(rt: &HostRuntime, kind: SectionKind) -> Result<Section, u8> {
    let mut input = StdSource::new(rt.stdin());
    let Ok(bytes) = read_all(rt.alloc(), &mut input, MOST) else {
        return Err(4);
    };
    let Ok(title) = Items::from_slice(rt.alloc(), b"r") else {
        return Err(6);
    };
    Ok(Section {
        kind,
        title,
        body: Items::from_vec(bytes),
    })
}

fn said(rt: &HostRuntime, what: &str, read: Result<(), ReadRule>) -> u8 {
    let printed = match read {
        Ok(()) => println!(rt; "{what}"),
        Err(refusal) => println!(rt; "refused: {refusal}"),
    };
    match printed {
        Ok(()) => 0,
        Err(_error) => 5,
    }
}
