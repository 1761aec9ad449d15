//! What holds of runs that go on from what was kept of a run.

ghost use Rattle.verse_code.specs.Validity.{Valid};
ghost use Rattle.vm_resume.specs.Keeping.{KeptAgain};

use run_save_fits::{run_is_savable, savable_goes_on};
use run_save_premises::{inputs_fit, texts_are_bytes};
use run_save_twice::shown_can_be_saved;
use verse_code::codes::Code;

/// A run of the code that went on from what is kept of a run, and stopped, can be kept in its turn,
/// as often as one likes: what `shot` answers then fits the code and spells the state. Takes no
/// memory.
pub fn kept_again(code: &Code)
    requires valid { Valid code.now }
    ensures { KeptAgain code.now }
{
    texts_are_bytes(code);
    inputs_fit();
    run_is_savable();
    savable_goes_on();
    shown_can_be_saved();
}
