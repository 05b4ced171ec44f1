//! The sides of rules of loops: nests of loops whose bounds are affine forms in counters and symbols, the values of
//! the names that are set round a statement, and the conditions that such a rule has to have. `specs/Summed.antt`
//! says what the form of an expression is, and `specs/Sides.antt` what the shape of a side is.
#![tactic(auto)]

mod forms;
mod kinds;
pub mod laws;
mod reading;
mod required;
mod setting;
mod shape;
mod spots;

pub use forms::{affine, has_units, summed};
pub use kinds::{is_name, is_statement, is_symbol};
pub use reading::side_of;
pub use required::{Wanted, lacks_condition};
pub use setting::{block_holds, block_sets, sets_round};
pub use shape::{Let, Lets, Loop, Loops, Nest, Piece, Pieces, Side};
pub use spots::{Sides, Spot, sides_of, spot_of, value_at};
