//! What a tree of tasks keeps of a suspended task, and the waits of a clock, made of what is kept
//! of a run. To be read in this order: `threads`, the frames of a task; `groups`, the group at
//! which it stands; `slots`, the whole of it; `waking`, waits are put into a clock again. Of the
//! definitions `Stacking` says what frames are made, and that these are what a fitting shot
//! spells, `Slots` what is made of a task, and `Started` what the clock holds.
#![tactic(auto)]

mod groups;
pub mod slots;
pub mod threads;
pub mod waking;
