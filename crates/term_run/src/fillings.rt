//! What stands for a parameter in a term: a name's bytes, and the value of an expression.
//! A parameter that stands for itself is the empty name, or 0.

ghost use Rattle.std.specs.Prelude.{◌≡◌, IfOk};
ghost use Rattle.toy_imp.specs.Cell.{spelled};
ghost use Rattle.toy_imp.specs.Fill.{name_at, expr_at};
ghost use Rattle.term_run.specs.Meant.{meant, Evaluates};

use crate::evaluate::evaluate;
use crate::meant::Meant;
use sqlite_items::Items;
use std::alloc::Global;
use toy_imp::{Filling, Instance, Name, NoMemory};

/// The bytes of the name that stands for a parameter.
pub fn name_of(alloc: Global, instance: &Instance, x: u32) -> Result<Items<u8>, NoMemory>
    ensures { IfOk result (λ bytes. bytes ≡ spelled (name_at instance.now x)) }
{
    match instance.fillings.get(x as usize) {
        Some(Filling::Name(Name::Own(bytes))) => Ok(Items::from_slice(alloc, bytes.as_slice())?),
        _ => Ok(Items::new(alloc)),
    }
}

/// The value of the expression that stands for a parameter, in what is meant.
#[tactic(auto, unfolding(toy_imp::specs::Value::value, toy_run::specs::Narrow::NarrowExpr))]
pub fn value_in(
    alloc: Global,
    instance: &Instance,
    k: u32,
    store: &Meant,
) -> Result<Option<i128>, NoMemory>
    ensures { IfOk result (λ v. Evaluates (meant store.now) (expr_at instance.now k) v) }
{
    match store {
        Meant::Store(cells) => match instance.fillings.get(k as usize) {
            Some(Filling::Expr(e)) => evaluate(alloc, e, cells.as_slice()),
            _ => Ok(Some(0)),
        },
        Meant::Nothing => Ok(Some(0)),
        Meant::Wide => Ok(None),
    }
}
