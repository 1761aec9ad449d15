//! The tests of values. What they need of a value before they may call is a contract here.
//!
//! To be read in this order: `making`, values for the tests; `using`, calls whose promise asks for
//! something; `handles`, values behind handles; `tables`, the rows; `words`, how they are read;
//! `checks`, checks that have names; `tests`, rows of the tables; `edge_tests`, values at the
//! edges of what is fit; `list_tests`, parts, paths and entries.
#![tactic(auto)]

#[cfg(test)]
mod checks;
#[cfg(test)]
mod edge_tests;
#[cfg(test)]
mod handles;
#[cfg(test)]
mod list_tests;
pub mod making;
#[cfg(test)]
mod tables;
#[cfg(test)]
mod tests;
pub mod using;
#[cfg(test)]
mod words;
