//! Whether each name of an obligation has a class: those that it says to be equal or not, and those of
//! its places. `specs/MarksUniverse.antt` says so of all names.

ghost use Rattle.std.specs.Prelude.{◌≡◌, ◌&&◌};
ghost use Rattle.std.specs.List.{list_all, flat_map};
ghost use Rattle.rule_terms.specs.Parts.{literal_parts};
ghost use Rattle.term_universe.specs.Names.{place_name};
ghost use Rattle.escape_universe.specs.MarksUniverse.{names_have_classes};
ghost use Rattle.escape_universe.specs.Named.{named, equality_named};
ghost use Rattle.escape_universe.specs.Named.{literal_named, conjunct_named};

use crate::sought::{Sought, has_class};
use crate::walk::in_literal;
use escape_marks::Escape;
use rule_terms::{Atom, Conjunct, Literal, Obligation};
use toy_imp::Kind;

fn equality_named(params: &[Kind], classes: &[u32], a: &Atom) -> bool
    ensures { result ≡ equality_named params.now classes.now a.now }
{
    match a {
        Atom::SameName(x, y) => has_class(params, classes, *x) && has_class(params, classes, *y),
        _ => true,
    }
}

#[tactic(auto, using(crate::proofs::NamedLiterals::none_unnamed), unfolding(crate::specs::Sought::meets))]
fn places_named(params: &[Kind], classes: &[u32], l: &Literal) -> bool
    ensures { result ≡ list_all (named params.now classes.now) (flat_map place_name (literal_parts l.now)) }
{
    !in_literal(Sought::Unnamed(params, classes), l)
}

fn both_named(params: &[Kind], classes: &[u32], l: &Literal) -> bool
    ensures { result ≡ (equality_named params.now classes.now l.now.atom && list_all (named params.now classes.now) (flat_map place_name (literal_parts l.now))) }
{
    equality_named(params, classes, &l.atom) && places_named(params, classes, l)
}

fn literal_named(params: &[Kind], classes: &[u32], l: &Literal) -> bool
    ensures { result ≡ literal_named params.now classes.now l.now }
{
    both_named(params, classes, l)
}

fn literals_named(params: &[Kind], classes: &[u32], items: &[Literal]) -> bool
    ensures { result ≡ list_all (literal_named params.now classes.now) items.now }
{
    for l in items {
        if !literal_named(params, classes, l) {
            return false;
        }
    }
    true
}

#[tactic(auto, using(crate::proofs::NamedLiterals::all_append), unfolding(crate::specs::Named::conjunct_named))]
fn conjunct_named(params: &[Kind], classes: &[u32], c: &Conjunct) -> bool
    ensures { result ≡ conjunct_named params.now classes.now c.now }
{
    if !literals_named(params, classes, c.when.as_slice()) {
        return false;
    }
    match &c.gives {
        Some(l) => literal_named(params, classes, l),
        None => true,
    }
}

fn conjuncts_named(params: &[Kind], classes: &[u32], items: &[Conjunct]) -> bool
    ensures { result ≡ list_all (conjunct_named params.now classes.now) items.now }
{
    for c in items {
        if !conjunct_named(params, classes, c) {
            return false;
        }
    }
    true
}

fn all_named(ob: &Obligation, params: &[Kind], classes: &[u32]) -> bool
    ensures { result ≡ (list_all (conjunct_named params.now classes.now) ob.now.known && (list_all (literal_named params.now classes.now) ob.now.path && conjunct_named params.now classes.now ob.now.goal)) }
{
    conjuncts_named(params, classes, ob.known.as_slice())
        && (literals_named(params, classes, ob.path.as_slice())
            && conjunct_named(params, classes, &ob.goal))
}

/// Whether each name of the obligation, in its literals and their places, has a class in the escape. It
/// walks over the obligation once, with a class for each place as often as it occurs.
pub fn names_have_classes(ob: &Obligation, e: &Escape) -> bool
    ensures { result ≡ names_have_classes ob.now e.now }
{
    all_named(ob, ob.params.as_slice(), e.names.as_slice())
}
