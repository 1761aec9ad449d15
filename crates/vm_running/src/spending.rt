//! A step that is spent.

ghost use Rattle.std.specs.Prelude.{◌≡◌, true, false};
ghost use Rattle.vm_running.specs.Views.{Ready};
ghost use Rattle.vm_running.specs.Runners.{view_of};
ghost use Rattle.vm_running.specs.Doings.{Doing, spends};
ghost use Rattle.vm_running.specs.Comes.{Comes, Leads};
ghost use Rattle.vm_running.specs.declared.runners.Did.TheVariants as did;
ghost use Rattle.verse_value.specs.declared.runs.Ending.TheVariants as ending;

use crate::runners::Runner;
use tx_heap::heaps::Heap;

/// Spends a step. False, and nothing is changed, where none is left: the run is over then. Takes no
/// memory.
pub fn spend<H: Heap>(run: &mut Runner<H>) -> bool
    requires ready { Ready (view_of H.state run.old) }
    ensures leads { result ≡ true → (go : Doing) →
        Leads (spends go) (view_of H.state run.old) go (view_of H.state run.new) }
    ensures out { result ≡ false → (go : Doing) →
        Comes (spends go) (did.Over ending.Steps) (view_of H.state run.old)
        (view_of H.state run.new) }
{
    if run.left == 0 {
        return false;
    }
    run.left -= 1;
    run.spent += 1;
    true
}
