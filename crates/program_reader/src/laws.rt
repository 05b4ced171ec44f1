//! Laws of texts of programs and rules, each the contract of a function that does nothing.
//! `specs/SpellableProgram.antt` and `specs/SpellableRule.antt` say what they are.

ghost use Rattle.program_reader.specs.SpellableProgram.{ReadIsSpellable};
ghost use Rattle.program_reader.specs.SpellableRule.{ReadRuleIsSpellable};

/// A program that is read can be written down: its names are names of the grammar, its constants and
/// indices are within the limits, and its canonical text nests at most 64 deep.
pub fn read_is_spellable()
    ensures { ReadIsSpellable }
{}

/// A rule that is read and with which nothing is wrong can be written down: so are its names, conditions,
/// cuts and sides.
pub fn read_rule_is_spellable()
    ensures { ReadRuleIsSpellable }
{}
