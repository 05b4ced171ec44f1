//! Laws 12 and 17: reads behind a run that keeps a variable, or that ignores a name.
//! `specs/MarkedConditions.antt` has their clauses at a value term.

ghost use Rattle.std.specs.Prelude.{◌≡◌, ◌||◌, not};
ghost use Rattle.rule_terms.specs.Term.{run};
ghost use Rattle.rule_terms.specs.declared.obligation.Atom.TheVariants.{SameValue, Ends};
ghost use Rattle.law_clauses.specs.ClauseForms.{run_leaves};
ghost use Rattle.law_clauses.specs.Listed.{lists_keeps};
ghost use Rattle.law_clauses.specs.Shapes.{get_at};
ghost use Rattle.law_clauses.specs.Signed.{plus, minus};
ghost use Rattle.escape_marks.specs.Failing.{FindsFailing};
ghost use Rattle.escape_marks.specs.LawsHold.{is_kept};
ghost use Rattle.escape_conditions.specs.MarkedConditions.{variable_stays, kept_at_names, read_kept};

use crate::apart::names_apart;
use escape_laws::{does_not_end, equals_read};
use escape_marks::{Escape, ValueMark};
use law_clauses::{count, lists_keeps};
use rule_terms::{Obligation, Place, StoreNode, StoreTerm, ValueNode, ValueTerm};
use toy_imp::Kind;

// The run `t` of k from s does not end, or the read `w` behind it is the read before it.
fn stays(
    ob: &Obligation,
    e: &Escape,
    w: &ValueTerm,
    p: &Place,
    t: &StoreTerm,
    s: &StoreTerm,
) -> bool
    requires { w.now ≡ get_at p.now t.now }
    ensures { result ≡ (is_kept ob.now.params e.now (minus (Ends t.now)) || is_kept ob.now.params e.now (plus (SameValue (get_at p.now t.now) (get_at p.now s.now)))) }
{
    let params = ob.params.as_slice();
    does_not_end(params, e, t) || equals_read(params, e, w, p, s)
}

fn keeps_or(ob: &Obligation, k: u32, x: u32, stays: bool) -> bool
    ensures { result ≡ (not (lists_keeps ob.now Kind.Name k x) || stays) }
{
    !lists_keeps(ob, Kind::Name, k, x) || stays
}

// 12, of a place without indices.
#[tactic(auto, using(crate::proofs::Names::no_index, crate::proofs::Names::some_index))]
fn variable_stays(
    ob: &Obligation,
    e: &Escape,
    p: &Place,
    k: u32,
    s: &StoreTerm,
    stays: bool,
) -> bool
    requires { stays ≡ (is_kept ob.now.params e.now (minus (Ends (run k s.now))) || is_kept ob.now.params e.now (plus (SameValue (get_at p.now (run k s.now)) (get_at p.now s.now)))) }
    ensures { result ≡ variable_stays ob.now e.now k s.now p.now.name p.now.indices }
{
    if count(p) != 0 {
        return true;
    }
    keeps_or(ob, k, p.name, stays)
}

// 17
#[tactic(auto, using(crate::proofs::Names::read_names))]
fn run_leaves(ob: &Obligation, e: &Escape, p: &Place, k: u32, s: &StoreTerm, stays: bool) -> bool
    requires { stays ≡ (is_kept ob.now.params e.now (minus (Ends (run k s.now))) || is_kept ob.now.params e.now (plus (SameValue (get_at p.now (run k s.now)) (get_at p.now s.now)))) }
    ensures { result ≡ kept_at_names ob.now e.now (λ n. run_leaves k n s.now p.now) }
{
    names_apart(ob, e, Kind::Stmt, k, p.name, stays)
}

#[tactic(auto, unfolding(crate::specs::MarkedConditions::read_kept))]
fn read_kept(ob: &Obligation, e: &Escape, w: &ValueTerm) -> bool
    ensures { result ≡ read_kept ob.now e.now w.now }
{
    let ValueNode::Get(p, t) = &w.node else {
        return true;
    };
    let StoreNode::Run(k, s) = &t.get().node else {
        return true;
    };
    let stays = stays(ob, e, w, p, t.get(), s.get());
    variable_stays(ob, e, p, *k, s.get(), stays) && run_leaves(ob, e, p, *k, s.get(), stays)
}

#[tactic(auto, using(escape_marks::proofs::Places::passes_next, escape_marks::proofs::Places::first_failing))]
fn first_broken(ob: &Obligation, e: &Escape, marks: &[ValueMark]) -> Option<usize>
    ensures { FindsFailing (λ m. read_kept ob.now e.now m.value) marks.now result }
{
    for (k, m) in marks.iter().enumerate() {
        if !read_kept(ob, e, &m.value) {
            return Some(k);
        }
    }
    None
}

/// The place of the first value mark at which a clause of law 12 or 17 is broken: a read behind a run
/// that ends, of a variable that the run keeps or of a name that it ignores, is not the read before
/// it. `None` exactly where none is. It takes three look-ups for each read behind a run, and a walk
/// over the conditions for each of them.
pub fn broken_stay(ob: &Obligation, e: &Escape) -> Option<usize>
    ensures { FindsFailing (λ m. read_kept ob.now e.now m.value) e.now.values result }
{
    first_broken(ob, e, e.values.as_slice())
}
