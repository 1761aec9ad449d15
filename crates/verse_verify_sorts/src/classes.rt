//! Which class inherits from which, by their numbers.

ghost use Rattle.std.specs.Prelude.{◌≡◌, length, slice_get};
ghost use Rattle.verse_verify_kept.specs.Notes.{parent_in};
ghost use Rattle.verse_verify_faults.specs.Fitting.{heir};
ghost use Rattle.verse_verify_notes.specs.View.{classes_of};

use crate::numbers::is_number;
use verse_verify_notes::notes::ClassNote;

/// The class from which a class inherits.
pub fn parent(classes: &[ClassNote], class: u32) -> Option<u32>
    ensures { result ≡ parent_in (slice_get (classes_of classes.now) class) }
{
    match classes.get(class as usize) {
        None => None,
        Some(note) => note.parent,
    }
}

/// Whether a class is another one or inherits from it, by at most as many parents as there are
/// classes.
#[tactic(auto, using(crate::proofs::RuleSets::of_climbing))]
pub fn is_heir(classes: &[ClassNote], class: u32, other: u32) -> bool
    ensures { result ≡ heir (length (classes_of classes.now)) (classes_of classes.now) class other }
{
    let mut at = class;
    'parents: for _i in 0..classes.len() {
        if is_number(at, other) {
            return true;
        }
        match parent(classes, at) {
            None => return false,
            Some(up) => at = up,
        }
    }
    is_number(at, other)
}
