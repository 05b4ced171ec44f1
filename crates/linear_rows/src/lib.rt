//! Linear rows over fractions: a point that meets them, row steps that show why there is none, or a limit.
//! `feasible` answers by Fourier-Motzkin elimination, and `check_multipliers` says exactly which row steps
//! show that nothing meets the rows. `specs/Row.antt`, `specs/Steps.antt`, `specs/Elimination.antt` and
//! `specs/Solution.antt` say what that means.
#![tactic(auto)]

mod answer;
mod divisor;
mod elimination;
mod fraction;
mod gathering;
mod line;
mod multipliers;
mod no_memory;
mod number;
mod record;
mod room;
mod row;
mod stage;
mod step;
mod value;

pub use answer::{RowKind, RowMark, Rows};
pub use elimination::feasible;
pub use fraction::Fraction;
pub use multipliers::check_multipliers;
pub use no_memory::NoMemory;
pub use room::RowRoom;
pub use row::Row;
pub use step::RowStep;
