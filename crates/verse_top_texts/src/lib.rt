//! What is written of a value, of a run, of a refusal, of bytes that are no image, of a text that
//! is no listing, and of notes.
//!
//! To be read in this order: `answers`; `endings`, the last line of a run; `printing`, values;
//! `heaps`, the lines of its cells; `refusals`; `images`; `listings`; `verdicts`. `Streams` of
//! specs says what is written of a run while it goes on.
#![tactic(auto)]

pub mod answers;
pub mod endings;
pub mod heaps;
pub mod images;
pub mod listings;
pub mod printing;
pub mod refusals;
pub mod verdicts;
