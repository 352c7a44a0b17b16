//! The outside of the form engine: where bytes come from and where they go, with a count of faults
//! for each object, so that a caller can say why a run ended.
//!
//! The objects in memory tell everything, and the whole answer of each of their calls is proved.
//! The real ones tell no bytes: they are the trusted edge, a few lines each. So a body of
//! `StdSource::read` that always answers the end meets its contract too; the stored run of the
//! program and a test of `StdSink` in `form_worked_streams` show that they move bytes.
//!
//! Files stand on a shelf: a list whose first place has the number 1. What is said of a shelf holds in
//! every ending: each file stays in its place with the content that it told, no count of faults falls,
//! and a file that no number names is not touched.
#![tactic(auto)]

mod lazy_file;
mod memory;
mod memory_blob;
mod ports;
mod reading;
mod real;
mod shift_blob;
mod writing;

pub use lazy_file::LazyFile;
pub use memory::{MemSink, MemSource};
pub use memory_blob::MemBlob;
pub use ports::{Blob, Got, Rewound, Sink, Source, Took};
pub use reading::{read_front, rewind};
pub use real::{StdSink, StdSource};
pub use shift_blob::ShiftBlob;
pub use writing::{WriteFault, write_all};
