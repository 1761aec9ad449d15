//! Where the flow of a code leads, whatever the values are: from each operation to those that may
//! come next. Read `specs/Flow`.
#![tactic(auto)]
