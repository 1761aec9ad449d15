//! The states of failure contexts: `not`, `or`, `and`, `if`, `option{}` and `logic{}`.
#![tactic(auto)]

pub mod failing;
