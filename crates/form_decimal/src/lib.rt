//! Exact decimals: the numbers of number and range controls, of limits and of steps.
//!
//! The rules stand in docs/profile/numbers.md, as definitions in `specs/`: what a numeral is and
//! means (`Numeral`), the printed form (`Printed`), alignment and the nearest aligned number
//! (`Alignment`), half of what lies between (`Halving`). None of these has the way of the code.
//! That way is in `Spelling`, `Reading`, `Nearest` and the second half of `Printed`, as functions
//! on lists and numbers, and `proofs/Laws.antt` joins the two for crates above.
//!
//! A numeral is read in time proportional to its length and without memory. The coefficient is
//! kept as a value without its last zeros and the count of these; once the value has more than
//! thirty digits, no further digit and no exponent makes it a number of units that fits. The
//! exponent is read up to a cap that no text in memory can undo.
#![tactic(auto)]

mod alignment;
mod coefficient;
mod decimal;
mod halving;
mod nearest;
mod printing;
mod reading;
mod scaling;
mod spelling;

pub use crate::alignment::aligned;
pub use crate::decimal::Decimal;
pub use crate::halving::half_between;
pub use crate::nearest::nearest_aligned;
pub use crate::printing::print;
pub use crate::reading::{read_lenient, read_valid};
