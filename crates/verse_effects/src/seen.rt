//! What the pass has seen.

use sqlite_items::Items;
use verse_rules_least::faults::Fault;

/// Which nodes define variables, by their numbers, and the first fault.
#[derive(Drop)]
pub struct Seen {
    pub vars: Items<bool>,
    pub fault: Option<Fault>,
}
