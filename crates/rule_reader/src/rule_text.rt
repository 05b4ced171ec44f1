//! From the body of a rule's section to the rule that it spells. `RuleAnswer` of program_reader's
//! `specs/RuleText.antt` says which one that is, and why a body spells none that is well formed.

ghost use Rattle.std.specs.Prelude.{◌≡◌, true, Some, IfOk};
ghost use Rattle.pec_text.specs.Id.{is_id};
ghost use Rattle.program_reader.specs.RuleText.{RuleAnswer};
ghost use Rattle.program_reader.specs.SpellableRule.{IsSpellableRule};
ghost use Rattle.program_reader.specs.Unread.{Gives};
ghost use Rattle.rule_reader.specs.RuleAnswering.{TokensAnswer};
ghost use Rattle.rule_reader.specs.RuleReading.{all_parts, rule_read};

use crate::declarations::params;
use crate::rule_parts::{Head, Sides, WrittenRule, parts, written};
use pec_text::{LexRefusal, Section, Token, tokens};
use program_reader::{Names, ReadRule, Unread, has_wide};
use rule_faults::first_fault;
use sqlite_items::Items;
use std::alloc::Global;
use toy_imp::{NoMemory, Param, Rule};

/// The rule that a section's body spells, with the section's title. Refuses by `NotGrammar` a body
/// that is not in the grammar, else by `Wide` one with a number of 2^63 or more, or with one of 2^32
/// or more in its cuts, else by `IllFormed` and the first item that is wrong a rule that is not well
/// formed, and by `NoMemory`. What is read can be written down again, if the title is an ID.
pub fn read_rule(alloc: Global, section: &Section) -> Result<Rule, ReadRule>
    ensures answer { RuleAnswer section.now.title section.now.body result }
    ensures spellable { is_id section.now.title ≡ true → IfOk result IsSpellableRule }
{
    match tokens(alloc, section.body.as_slice()) {
        Ok(tokens) => token_rule(alloc, section, tokens.as_slice()),
        Err(LexRefusal::NotTokens) => Err(ReadRule::NotGrammar),
        Err(LexRefusal::NoMemory) => Err(ReadRule::NoMemory),
    }
}

/// The rule of these tokens, with the section's title.
fn token_rule(alloc: Global, section: &Section, tokens: &[Token]) -> Result<Rule, ReadRule>
    ensures { TokensAnswer (rule_read section.now.title tokens.now) tokens.now result }
{
    match whole_rule(alloc, section, tokens) {
        Ok(found) => judged(alloc, found, tokens),
        Err(Unread::NotGrammar) => Err(ReadRule::NotGrammar),
        Err(Unread::NoMemory) => Err(ReadRule::NoMemory),
    }
}

/// What is read, if no number is too wide and the rule is well formed.
fn judged(alloc: Global, found: WrittenRule, tokens: &[Token]) -> Result<Rule, ReadRule>
    ensures { TokensAnswer (Some found) tokens.now result }
{
    if found.is_beyond {
        return Err(ReadRule::Wide);
    }
    if has_wide(tokens) {
        return Err(ReadRule::Wide);
    }
    match first_fault(alloc, &found.rule) {
        Ok(None) => Ok(found.rule),
        Ok(Some(fault)) => Err(ReadRule::IllFormed(fault)),
        Err(NoMemory) => Err(ReadRule::NoMemory),
    }
}

/// The rule of all tokens, with the section's title.
#[tactic(auto, unfolding(crate::specs::RuleReading::rule_read))]
fn whole_rule(alloc: Global, section: &Section, tokens: &[Token]) -> Result<WrittenRule, Unread>
    ensures { Gives (λ found. found) result (rule_read section.now.title tokens.now) }
{
    let (all, rest) = all_parts(alloc, tokens)?;
    if !rest.is_empty() {
        return Err(Unread::NotGrammar);
    }
    let title = Items::from_slice(alloc, section.title.as_slice())?;
    let (params, parts) = all;
    Ok(written(title, params, parts))
}

/// The parameters of a rule and its other parts.
#[tactic(auto, unfolding(crate::specs::RuleReading::all_parts))]
fn all_parts(
    alloc: Global,
    tokens: &[Token],
) -> Result<((Items<Param>, (Head, Sides)), &[Token]), Unread>
    ensures { Gives (λ p. (p.0, p.1.now)) result (all_parts tokens.now) }
{
    let (params, rest) = params(alloc, tokens)?;
    let names = names_of(alloc, params)?;
    let (parts, rest) = parts(alloc, &names, rest)?;
    Ok(((names.into_params(), parts), rest))
}

/// The parameters, to look names up in them. There is not enough memory for 2^32 of them.
fn names_of(alloc: Global, params: Items<Param>) -> Result<Names, NoMemory>
    ensures { IfOk result (λ names. names ≡ params) }
{
    if params.len() >= 1 << 32 {
        return Err(NoMemory);
    }
    Names::of(alloc, params)
}
