//! Text that goes to a sink by many calls and in few writes.
//!
//! What is said stands behind what is kept. It is written when there is no more room, and when
//! [`flush`] is called: so what was written, and then what is kept, is all that was said.
#![tactic(auto)]

mod fault;
mod pending;

pub use fault::SayFault;
pub use pending::{ROOM, flush, say};
