// What the test programs share: the lines of a script, the tables, digests, and words and numbers on standard output.
#![tactic(auto)]

pub mod batch;
pub mod digest;
pub mod draws;
pub mod memory;
pub mod say;
pub mod script;
pub mod sizes;
