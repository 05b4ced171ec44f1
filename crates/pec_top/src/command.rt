//! The commands of the program, and which words name one. `specs/Command.antt` says when they do.

ghost use Rattle.std.specs.Prelude.{◌≡◌, ℕ, [], ◌∷◌, MatchOption, map, string_bytes};
ghost use Rattle.pec_top.specs.Command.{IsStepCount, IsNamedBy, AreStepsOf, OneCommand};

use itoa::Buffer;

/// What the program can be asked to do.
#[derive(Clone, Copy, Debug, PartialEq, Eq)]
pub enum Command {
    /// Prove or refuse each rule of the input, and report on it.
    Prove,
    /// Check each certificate of the input against its rule, and report on it.
    Check,
    /// Write each rule, program and certificate of the input in canonical form.
    Print,
    /// Run each program of the input for at most so many steps, and report on it.
    Run(u64),
}

/// The greatest number of steps that a run can be given.
const MOST_STEPS: u64 = 1_000_000;

/// The command that these words name, the program's own name left out; `None` for other words.
pub fn named_by(words: &[String]) -> Option<Command>
    ensures { IsNamedBy result (map string_bytes words.now) }
{
    match words.split_first() {
        Some((first, rest)) => by_first(first.as_str(), rest),
        None => None,
    }
}

/// The command that a first word names, with these words behind it.
#[tactic(auto, using(crate::proofs::Words::run_named, crate::proofs::Words::run_else, crate::proofs::Words::longer_names_none))]
fn by_first(first: &str, rest: &[String]) -> Option<Command>
    ensures { IsNamedBy result (first.now ∷ map string_bytes rest.now) }
{
    if first == "run" {
        let Some(steps) = steps_of(rest) else {
            return None;
        };
        return Some(Command::Run(steps));
    }
    if !rest.is_empty() {
        return None;
    }
    word_command(first)
}

/// The command that a word names alone.
#[tactic(auto, using(crate::proofs::Words::word_names_none))]
fn word_command(word: &str) -> Option<Command>
    ensures { IsNamedBy result (word.now ∷ []) }
{
    if word == "prove" {
        Some(Command::Prove)
    } else if word == "check" {
        Some(Command::Check)
    } else if word == "print" {
        Some(Command::Print)
    } else {
        None
    }
}

/// The number of steps that the words behind `run` give.
fn steps_of(words: &[String]) -> Option<u64>
    ensures { AreStepsOf result (map string_bytes words.now) }
{
    match words.split_first() {
        Some((option, [number])) => step_option(option.as_str(), number.as_str()),
        _ => None,
    }
}

/// The number of steps that an option and a word behind it give.
#[tactic(auto, using(crate::proofs::Words::option_gives, crate::proofs::Words::option_else, crate::proofs::Words::other_option))]
fn step_option(option: &str, number: &str) -> Option<u64>
    ensures { AreStepsOf result (option.now ∷ number.now ∷ []) }
{
    if option == "--steps" {
        step_count(number)
    } else {
        None
    }
}

/// The number of steps that a word is.
fn step_count(word: &str) -> Option<u64>
    ensures { MatchOption result ((n : ℕ) → ¬ (IsStepCount word.now n)) (IsStepCount word.now) }
{
    let Ok(steps) = word.parse::<u64>() else {
        return None;
    };
    if steps > MOST_STEPS {
        return None;
    }
    let mut buffer = Buffer::new();
    if buffer.format(steps) != word {
        return None;
    }
    Some(steps)
}

/// A law: words name one command at most. It does nothing.
pub fn one_command()
    ensures { OneCommand }
{}
