//! The laws of clauses, each the contract of a function that does nothing.
//! The statements are in `specs/ClauseLaws.antt` and `specs/ClauseForms.antt`.

ghost use Rattle.law_clauses.specs.ClauseLaws.{ClausesAreTrue};
ghost use Rattle.law_clauses.specs.ClauseForms.{FormsAreClauses, ClausesHaveForms};

/// Each clause of a law has a true literal, under every faithful table that covers it: were all of
/// them false, there is the answer.
pub fn clauses_are_true()
    ensures { ClausesAreTrue }
{}

/// Each form of a clause is a clause of its law, where what it asks besides holds.
pub fn forms_are_clauses()
    ensures { FormsAreClauses }
{}

/// Each clause of a law has a form: what its letters stand for.
pub fn clauses_have_forms()
    ensures { ClausesHaveForms }
{}
