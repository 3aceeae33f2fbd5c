//! From the bytes of an input to the bytes of an output, over readers and writers that record what their calls did.
//! docs/reference/programs.md has the rules.
#![tactic(auto)]

pub mod ahead;
pub mod colors;
pub mod ended;
pub mod format;
pub mod laws;
pub mod output;
pub mod reading;
pub mod rendering;
pub mod run;
pub mod writing;
