//! All that the program does, as one call.
//!
//! To be read in this order: `call`, the top call; `fronts`, what comes of the files of a program,
//! over `loading`; `programs`, what is done with an accepted program; `executing`, what is done
//! with one file that is no program; `pairs`, what is done with an image and its notes; `loads`,
//! the run of the generated load; `answers` and `writing`, what is answered at once.
#![tactic(auto)]

pub mod answers;
mod call;
mod executing;
mod fronts;
mod loading;
mod loads;
mod pairs;
mod programs;
mod writing;

pub use call::verse;
pub use verse_top_args::commands::words_fit;
pub use verse_top_load::load_text;
pub use verse_top_texts::endings::ending_text;
