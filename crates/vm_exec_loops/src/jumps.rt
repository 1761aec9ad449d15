//! Jumps.

ghost use Rattle.std.specs.Prelude.{◌≡◌, ◌<◌};
ghost use Rattle.verse_code.specs.declared.codes.Code.{Code};
ghost use Rattle.verse_code.specs.declared.operations.Op.TheVariants as op;
ghost use Rattle.vm_frames.specs.Framed.{place_of};
ghost use Rattle.vm_running.specs.Views.{Ready};
ghost use Rattle.vm_running.specs.Runners.{view_of};
ghost use Rattle.vm_running.specs.Doings.{acts};
ghost use Rattle.vm_running.specs.Comes.{Comes};

use tx_heap::heaps::Heap;
use verse_value::equality::equal;
use verse_value::runs::Ending;
use vm_running::moves::{go, go_on};
use vm_running::operands::pop_two;
use vm_running::runners::{Did, Runner};
use vm_running::spending::spend;

/// Pops two values, and goes on where they are equal; otherwise goes to the label. Takes no memory.
pub fn same<H: Heap>(run: &mut Runner<H>, label: u32) -> Did
    requires ready { Ready (view_of H.state run.old) }
    requires inner { place_of run.old.thread < 4294967295 }
    ensures { (c : Code) → Comes (acts c (op.Same label)) result (view_of H.state run.old)
        (view_of H.state run.new) }
{
    let Some((first, second)) = pop_two(&mut run.thread) else {
        return Did::Over(Ending::Stuck);
    };
    if equal(&first, &second) {
        return go_on(run);
    }
    go(run, label)
}

/// Spends a step and goes to the label. Takes no memory.
pub fn again<H: Heap>(run: &mut Runner<H>, label: u32) -> Did
    requires ready { Ready (view_of H.state run.old) }
    ensures { (c : Code) → Comes (acts c (op.Again label)) result (view_of H.state run.old)
        (view_of H.state run.new) }
{
    if !run.thread.go(label) {
        return Did::Over(Ending::Stuck);
    }
    if !spend(run) {
        return Did::Over(Ending::Steps);
    }
    Did::On
}
