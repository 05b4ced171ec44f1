//! Programs and rules that texts spell, for tables of tests. What a text spells is told by the contracts of the
//! readers; here an answer of none is a text that is refused, or want of memory.

ghost use Rattle.std.specs.Prelude.{◌≡◌, true, IfOk};
ghost use Rattle.pec_text.specs.Id.{is_id};

use pec_text::{Section, SectionKind};
use program_reader::read_program;
use rule_reader::read_rule;
use sqlite_items::Items;
use std::alloc::{AllocError, Global};
use toy_imp::{Block, Rule};

/// A section of this body, with the title `t`.
pub fn section(alloc: Global, kind: SectionKind, body: &[u8]) -> Result<Section, AllocError>
    ensures { IfOk result (λ s. is_id s.title ≡ true) }
{
    Ok(Section {
        kind,
        title: Items::from_slice(alloc, b"t")?,
        body: Items::from_slice(alloc, body)?,
    })
}

/// The program that a body spells.
pub fn program(alloc: Global, body: &str) -> Option<Block> {
    let section = section(alloc, SectionKind::Program, body.as_bytes()).ok()?;
    read_program(alloc, &section).ok()
}

/// The rule that a body spells.
pub fn rule(alloc: Global, body: &str) -> Option<Rule> {
    let section = section(alloc, SectionKind::Rule, body.as_bytes()).ok()?;
    read_rule(alloc, &section).ok()
}
