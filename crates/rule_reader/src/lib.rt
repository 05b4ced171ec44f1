//! From text to rules. `read_rule` answers the one rule that the body of a section spells, or why it
//! spells none that is well formed; `specs/RuleReading.antt` says what is read of tokens, which is
//! exactly what has a derivation tree (`proofs/RuleSound.antt`, `proofs/RuleComplete.antt`).
#![tactic(auto)]

mod condition_words;
mod conditions;
mod cut_lines;
mod declarations;
mod front;
mod rule_parts;
mod rule_text;

pub use rule_text::read_rule;
