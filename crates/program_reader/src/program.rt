//! From the body of a program's section to the program that it spells. `ProgramAnswer` of
//! `specs/Grammar.antt` says which one that is, and why a body spells none.

ghost use Rattle.std.specs.Prelude.{◌≡◌, true, Some, IfOk};
ghost use Rattle.pec_text.specs.Id.{is_id};
ghost use Rattle.std.specs.List.{list_any};
ghost use Rattle.program_reader.specs.BlockReading.{program_read};
ghost use Rattle.program_reader.specs.Grammar.{ProgramAnswer};
ghost use Rattle.program_reader.specs.ProgramReading.{TokensAnswer, is_wide};
ghost use Rattle.program_reader.specs.SpellableProgram.{IsSpellableProgram};
ghost use Rattle.program_reader.specs.Unread.{Gives};

use crate::block_reading::statements;
use crate::names::Names;
use crate::refusal::{ReadRule, Unread};
use pec_text::{LexRefusal, Numeral, Section, Token, tokens};
use std::alloc::Global;
use toy_imp::Block;

/// How many blocks, `not`, brackets and parentheses may stand round one place of a text.
pub const MOST_LEVELS: u32 = 64;

/// The program that a section's body spells. Refuses by `NotGrammar` a body that is not in the
/// grammar, else by `Wide` one with a number of 2^63 or more, and by `NoMemory`. What is read can be
/// written down again, under a title that is an ID.
pub fn read_program(alloc: Global, section: &Section) -> Result<Block, ReadRule>
    ensures answer { ProgramAnswer section.now.body result }
    ensures spellable { is_id section.now.title ≡ true → IfOk result (IsSpellableProgram section.now.title) }
{
    match tokens(alloc, section.body.as_slice()) {
        Ok(tokens) => token_program(alloc, tokens.as_slice()),
        Err(LexRefusal::NotTokens) => Err(ReadRule::NotGrammar),
        Err(LexRefusal::NoMemory) => Err(ReadRule::NoMemory),
    }
}

/// The program of these tokens.
fn token_program(alloc: Global, tokens: &[Token]) -> Result<Block, ReadRule>
    ensures { TokensAnswer tokens.now result }
{
    match all_statements(alloc, tokens) {
        Ok(program) => judged(program, tokens),
        Err(Unread::NotGrammar) => Err(ReadRule::NotGrammar),
        Err(Unread::NoMemory) => Err(ReadRule::NoMemory),
    }
}

/// What is read, if it is a program without a number that is too wide.
fn judged(program: Block, tokens: &[Token]) -> Result<Block, ReadRule>
    requires { program_read tokens.now ≡ Some program }
    ensures { TokensAnswer tokens.now result }
{
    if !program.is_program() {
        return Err(ReadRule::NotGrammar);
    }
    if has_wide(tokens) {
        return Err(ReadRule::Wide);
    }
    Ok(program)
}

/// The statements of all tokens.
#[tactic(auto, unfolding(crate::specs::BlockReading::program_read))]
fn all_statements(alloc: Global, tokens: &[Token]) -> Result<Block, Unread>
    ensures { Gives (λ b. b) result (program_read tokens.now) }
{
    let names = Names::none(alloc);
    let (program, rest) = statements(alloc, &names, MOST_LEVELS, tokens)?;
    if !rest.is_empty() {
        return Err(Unread::NotGrammar);
    }
    Ok(program)
}

/// Whether some numeral is 2^63 or more.
pub fn has_wide(tokens: &[Token]) -> bool
    ensures { result ≡ list_any is_wide tokens.now }
{
    tokens.iter().any(|token| is_wide(token))
}

fn is_wide(token: &Token) -> bool
    ensures { result ≡ is_wide token.now }
{
    matches!(token, Token::Number(Numeral::Wide))
}
