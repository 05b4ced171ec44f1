//! The class of a name parameter and the marks of terms, by a walk over the marks.
//! `specs/Marks.antt` says which mark is that of a term.

ghost use Rattle.std.specs.Prelude.{◌≡◌, slice_get};
ghost use Rattle.std.specs.Option.{option_map};
ghost use Rattle.escape_marks.specs.Marks.{count_names, name_class};
ghost use Rattle.escape_marks.specs.Marks.{store_mark, value_mark, test_mark};

use crate::escape::{StoreMark, TestMark, ValueMark};
use rule_terms::{StoreTerm, ValueTerm};
use toy_imp::Kind;

fn is_name(kind: Kind) -> bool
    ensures { result ≡ Rattle.escape_marks.specs.Marks.is_name kind }
{
    match kind {
        Kind::Name => true,
        _ => false,
    }
}

// How many of the parameters are of kind name.
pub fn count_names(params: &[Kind]) -> usize
    ensures { result ≡ count_names params.now }
{
    let mut n = 0;
    for kind in params {
        if is_name(*kind) {
            n += 1;
        }
    }
    n
}

fn class_at(classes: &[u32], n: usize) -> Option<u32>
    ensures { result ≡ slice_get classes.now n }
{
    if n < classes.len() {
        return Some(classes[n]);
    }
    None
}

/// The class of the name parameter of this number: classes are listed for the parameters of kind
/// name alone, in order. `None` exactly where the parameter is of another kind, or where there are
/// fewer parameters or classes.
#[tactic(auto, unfolding(crate::specs::Marks::name_class))]
pub fn name_class(params: &[Kind], classes: &[u32], x: u32) -> Option<u32>
    ensures { result ≡ name_class params.now classes.now x }
{
    let place = x as usize;
    if place >= params.len() {
        return None;
    }
    match params[place] {
        Kind::Name => class_at(classes, count_names(&params[..place])),
        _ => None,
    }
}

/// The first mark of a store term. `None` exactly where it has none.
#[tactic(auto, unfolding(crate::specs::Marks::store_mark))]
pub fn store_mark<'a>(marks: &'a [StoreMark], s: &StoreTerm) -> Option<&'a StoreMark>
    ensures { option_map (λ m. m.now) result ≡ store_mark marks.now s.now }
{
    for m in marks {
        if s.same(&m.store) {
            return Some(m);
        }
    }
    None
}

/// The first mark of a value term. `None` exactly where it has none.
#[tactic(auto, unfolding(crate::specs::Marks::value_mark))]
pub fn value_mark<'a>(marks: &'a [ValueMark], v: &ValueTerm) -> Option<&'a ValueMark>
    ensures { option_map (λ m. m.now) result ≡ value_mark marks.now v.now }
{
    for m in marks {
        if v.same(&m.value) {
            return Some(m);
        }
    }
    None
}

/// The first mark of a test parameter at a store term. `None` exactly where it has none.
#[tactic(auto, unfolding(crate::specs::Marks::test_mark))]
pub fn test_mark<'a>(marks: &'a [TestMark], k: u32, s: &StoreTerm) -> Option<&'a TestMark>
    ensures { option_map (λ m. m.now) result ≡ test_mark marks.now k s.now }
{
    for m in marks {
        if k == m.test && s.same(&m.store) {
            return Some(m);
        }
    }
    None
}
