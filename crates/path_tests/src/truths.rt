//! Whether literals are true in a setting, by what store terms mean there and by running programs.

use crate::runs::{end_of, run_text};
use program_examples::assignments;
use rule_terms::{Atom, Literal, Place, StoreTerm, ValueTerm};
use sqlite_items::Items;
use std::alloc::Global;
use term_run::{Meant, Setting, store_means};
use toy_imp::NoMemory;
use toy_run::Cell;

/// The name that no row uses, for one cell more.
pub const SPARE: &str = "spare";

/// A setting with the texts of its fillings; the number of the spare name is that of the parameters.
#[derive(Drop)]
pub struct Scene<'a> {
    pub texts: &'a [&'a str],
    pub setting: Setting,
}

fn spare_value(cells: &[Cell]) -> i128 {
    let found = cells
        .iter()
        .rev()
        .find(|c| c.name.as_slice() == SPARE.as_bytes());
    found.map_or(0, |c| c.value)
}

fn spare_place(alloc: Global, spare: u32) -> Place {
    Place {
        name: spare,
        indices: Items::new(alloc),
    }
}

// L with the value in the spare cell.
fn noted(alloc: Global, spare: u32, v: Result<ValueTerm, NoMemory>) -> Option<StoreTerm> {
    let v = v.ok()?;
    StoreTerm::put(alloc, StoreTerm::left(), spare_place(alloc, spare), v).ok()
}

fn noted_value(meant: Result<Meant, NoMemory>) -> Option<i128> {
    match meant {
        Ok(Meant::Store(cells)) => Some(spare_value(cells.as_slice())),
        _ => None,
    }
}

fn value(alloc: Global, scene: &Scene<'_>, v: &ValueTerm) -> Option<i128> {
    let spare = u32::try_from(scene.texts.len()).ok()?;
    let term = noted(alloc, spare, v.copy(alloc))?;
    noted_value(store_means(alloc, &scene.setting, &term))
}

fn text_of(alloc: Global, meant: &Meant) -> Option<Option<String>> {
    match meant {
        Meant::Store(cells) => assignments(alloc, cells.as_slice()).map(Some),
        Meant::Nothing => Some(None),
        Meant::Wide => None,
    }
}

/// The assignments that make the store that a term means; the inner answer is none where it means none.
pub fn store_text(alloc: Global, scene: &Scene<'_>, s: &StoreTerm) -> Option<Option<String>> {
    let meant = store_means(alloc, &scene.setting, s).ok()?;
    text_of(alloc, &meant)
}

// Whether a run ends with 1 in the spare cell.
fn is_noted(end: Option<Option<Items<Cell>>>) -> Option<bool> {
    let cells = end??;
    Some(spare_value(cells.as_slice()) == 1)
}

// A test in a store, by an `if`.
fn holds_in(alloc: Global, store: &str, test: &str) -> Option<bool> {
    let text = format!(in alloc;
        "{store}{SPARE} := 0; if {test} {{ {SPARE} := 1; }} else {{ }}"
    ).ok()?;
    is_noted(end_of(run_text(alloc, text.as_str())))
}

fn holds(alloc: Global, scene: &Scene<'_>, k: u32, s: &StoreTerm) -> Option<bool> {
    let test = scene.texts.get(k as usize)?;
    match store_text(alloc, scene, s)? {
        Some(store) => holds_in(alloc, store.as_str(), test),
        None => Some(false),
    }
}

fn ends(alloc: Global, scene: &Scene<'_>, s: &StoreTerm) -> Option<bool> {
    let store = store_text(alloc, scene, s)?;
    Some(store.is_some())
}

// By how much one value is above another.
fn above(alloc: Global, scene: &Scene<'_>, a: &ValueTerm, b: &ValueTerm) -> Option<i128> {
    let a = value(alloc, scene, a)?;
    let b = value(alloc, scene, b)?;
    a.checked_sub(b)
}

fn is_atom_true(alloc: Global, scene: &Scene<'_>, x: &Atom) -> Option<bool> {
    match x {
        Atom::AtMost(a, b, by) => Some(above(alloc, scene, a, b)? <= *by),
        Atom::SameValue(a, b) => Some(above(alloc, scene, a, b)? == 0),
        Atom::Ends(s) => ends(alloc, scene, s),
        Atom::Holds(k, s) => holds(alloc, scene, *k, s),
        _ => None,
    }
}

/// Whether all of these literals are true.
pub fn are_true(alloc: Global, scene: &Scene<'_>, xs: &[Literal]) -> Option<bool> {
    for x in xs {
        if is_atom_true(alloc, scene, &x.atom)? != x.sign {
            return Some(false);
        }
    }
    Some(true)
}
