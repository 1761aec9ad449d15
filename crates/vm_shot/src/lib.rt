//! What is kept of a machine between two turns.
//!
//! To be read in this order: `cells`, each cell of its heap with its kind and its slots; `given`,
//! what spawned tasks gave; `shooting`, the whole. `Spelling` of specs says of which parts what
//! is kept of the machine is what is kept of the state and the trees of tasks that they stand
//! for, and when.
//!
//! The public lemmas, which crates above cite, are those of `proofs/Parts`.
#![tactic(auto)]

pub mod cells;
mod given;
pub mod shooting;

ghost use Rattle.vm_running.specs.Runners.{view_of};
ghost use Rattle.run_save_shots.specs.Kept.{Kept};
ghost use Rattle.vm_shot.specs.Spelling.{PartsAre, SpellsEach};

use sim_clock::waits::Waits;
use tx_heap::heaps::Heap;
use vm_running::runners::Runner;
use vm_scheduler::tasks::Tasks;

/// What has the parts of a machine spells each state and trees of tasks that the machine stands
/// for between two turns.
pub fn parts_spell<H: Heap, W: Waits>(run: &Runner<H>, tasks: &Tasks<W>)
    ensures { (x : Kept) → PartsAre x (view_of H.state run.now) tasks.now →
        SpellsEach W.pending x (view_of H.state run.now) tasks.now }
{
    let _ = run.left;
    tasks.tree.is_nested();
}
