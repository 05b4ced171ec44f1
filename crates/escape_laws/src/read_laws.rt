//! Laws 2 and 4: a read behind a write of another name or of another number of indices.
//! `specs/MarkedLaws.antt` has their clauses at a value term.

ghost use Rattle.std.specs.Prelude.{◌≡◌};
ghost use Rattle.escape_marks.specs.Failing.{FindsFailing};
ghost use Rattle.escape_laws.specs.MarkedLaws.{reads_kept};

use crate::reads::equals_read;
use escape_marks::{Escape, ValueMark, names_agree};
use law_clauses::count;
use rule_terms::{StoreNode, ValueNode, ValueTerm};
use toy_imp::Kind;

#[tactic(auto, using(law_clauses::proofs::Same::or_false), unfolding(crate::specs::MarkedLaws::reads_kept, escape_marks::specs::LawsHold::is_kept, escape_marks::specs::LawsHold::is_marked, escape_marks::specs::Marks::atom_true))]
fn reads_kept(params: &[Kind], e: &Escape, v: &ValueTerm) -> bool
    ensures { result ≡ reads_kept params.now e.now v.now }
{
    let ValueNode::Get(q, t) = &v.node else {
        return true;
    };
    let StoreNode::Put(s, p, _) = &t.get().node else {
        return true;
    };
    if equals_read(params, e, v, q, s.get()) {
        return true;
    }
    names_agree(params, e, q.name, p.name) && count(q) == count(p)
}

#[tactic(auto, using(escape_marks::proofs::Places::passes_next, escape_marks::proofs::Places::first_failing))]
fn first_broken(params: &[Kind], e: &Escape, marks: &[ValueMark]) -> Option<usize>
    ensures { FindsFailing (λ m. reads_kept params.now e.now m.value) marks.now result }
{
    for (k, m) in marks.iter().enumerate() {
        if !reads_kept(params, e, &m.value) {
            return Some(k);
        }
    }
    None
}

/// The place of the first value mark at which a clause of law 2 or 4 is broken: a read behind a
/// write of another name, or of another number of indices, has not the number of the same read
/// before the write. `None` exactly where none is. It takes two look-ups for each such read.
pub fn broken_read(params: &[Kind], e: &Escape) -> Option<usize>
    ensures { FindsFailing (λ m. reads_kept params.now e.now m.value) e.now.values result }
{
    first_broken(params, e, e.values.as_slice())
}
