//! Equality of names and terms under congruence: `close` answers the least congruence over a universe in which given
//! equalities hold. `specs/Congruence.antt` says which relation that is, `specs/Closure.antt` which class numbers it has.
#![tactic(auto)]

mod answer;
mod classes;
mod classing;
mod closing;
mod joining;
mod passes;
mod places;
mod terms;

pub use answer::Classes;
pub use closing::close;
