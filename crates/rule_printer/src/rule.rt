//! A rule as the canonical text of its section. `IsTextOfRule` of `specs/PrintedRule.antt` says what it
//! reads back as.

ghost use Rattle.std.specs.Prelude.{◌≡◌, ◌++◌, codes, flat_map, map, IfOk, OnOk};
ghost use Rattle.toy_imp.specs.BlockCanonical.{canonical_block};
ghost use Rattle.program_reader.specs.RuleCanonical.{canonical_condition, canonical_method, canonical_cuts};
ghost use Rattle.program_reader.specs.SpellableRule.{IsSpellableRule};
ghost use Rattle.rule_printer.specs.PrintedRule.{rule_text, IsTextOfRule, RulePrintedAgain};
ghost use Rattle.rule_printer.specs.RuleCanonicalText.{given_bytes, method_bytes, cuts_bytes, side_bytes};

use crate::block_printing::put_block;
use crate::phrase::put;
use crate::program::put_header;
use crate::rule_lines::{put_conditions, put_cuts, put_declarations, put_method};
use std::alloc::Global;
use toy_imp::{Block, NoMemory, Param, Rule};

/// The canonical text of a rule: its section, which is read back as this rule and no other. `NoMemory` is
/// the only error.
#[tactic(auto, using(crate::proofs::RulePrinted::printed_rule_reads_back))]
pub fn print_rule(alloc: Global, rule: &Rule) -> Result<Vec<u8>, NoMemory>
    requires { IsSpellableRule rule.now }
    ensures text { IfOk result (λ text. text.items ≡ rule_text rule.now) }
    ensures reads_back { IfOk result (λ text. IsTextOfRule text.items rule.now) }
{
    let mut out = Vec::new(alloc);
    put_rule(rule, &mut out)?;
    Ok(out)
}

/// Puts the section of a rule.
pub fn put_rule(rule: &Rule, out: &mut Vec<u8>) -> Result<(), NoMemory>
    ensures { OnOk result (out.new.items ≡ out.old.items ++ rule_text rule.now) }
{
    put_header(b"rule ", rule.title.as_slice(), out)?;
    put_declarations(rule.params.as_slice(), out)?;
    put_head(rule, out)?;
    put_sides(rule, out)?;
    put(b"end\n", out)
}

/// Puts what stands between the declarations and the sides.
fn put_head(rule: &Rule, out: &mut Vec<u8>) -> Result<(), NoMemory>
    ensures { OnOk result (out.new.items ≡ out.old.items ++ (flat_map given_bytes (map (canonical_condition rule.now.params) rule.now.conditions) ++ (method_bytes (canonical_method rule.now.method) ++ cuts_bytes (canonical_cuts rule.now.cuts)))) }
{
    put_conditions(rule.params.as_slice(), rule.conditions.as_slice(), out)?;
    put_method(rule.method, out)?;
    put_cuts(&rule.cuts, out)
}

/// Puts both sides.
fn put_sides(rule: &Rule, out: &mut Vec<u8>) -> Result<(), NoMemory>
    ensures { OnOk result (out.new.items ≡ out.old.items ++ (codes "left " ++ (side_bytes (canonical_block rule.now.params rule.now.left) ++ (codes "right " ++ side_bytes (canonical_block rule.now.params rule.now.right))))) }
{
    put_side(rule.params.as_slice(), b"left ", &rule.left, out)?;
    put_side(rule.params.as_slice(), b"right ", &rule.right, out)
}

/// Puts a word and a side in braces.
fn put_side(params: &[Param], word: &[u8], side: &Block, out: &mut Vec<u8>) -> Result<(), NoMemory>
    ensures { OnOk result (out.new.items ≡ out.old.items ++ (word.now ++ side_bytes (canonical_block params.now side.now))) }
{
    put(word, out)?;
    put_block(params, 0, side, out)?;
    put(b"\n", out)
}

/// What is read from the printed text of a rule has that text: printed again, it is the same.
pub fn rule_printed_again()
    ensures { RulePrintedAgain }
{}
