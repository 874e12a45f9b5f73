// Trace bytes: for any bytes whatsoever, `check_trace` says whether they are a right trace of a table's signals, and else why not and where;
// and a reader over them that gives one sample after the other.

#![tactic(auto)]

pub mod header;
pub mod judging;
pub mod reader;
pub mod refusals;
pub mod samples;

pub use header::Header;
pub use judging::judge;
pub use reader::{Reading, TraceReader};
pub use refusals::check_trace;
