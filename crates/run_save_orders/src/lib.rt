//! A run is the same from trees of tasks in another order, without those in which no task is
//! left, and with other numbers. Laws alone: `Roots` says it of numbers, where those beneath each
//! task keep their order and those of tasks without a parent are only kept apart; `Laws` of the
//! order; and `Ordering` of a run that stopped at its horizon, and of what is kept of it.
#![tactic(auto)]

ghost use Rattle.run_save_orders.specs.Roots.{RunSorted, TreesSorted, TableSorts};
ghost use Rattle.run_save_orders.specs.Laws.{TurnsReordered, RunReordered};
ghost use Rattle.run_save_orders.specs.Ordering.{KeptIsSameButOrder, KeptIsBorn, KeptRunIsTheRun};

use run_save_births::run_is_born;
use run_save_fits::run_is_savable;
use verse_code_machine_parents::operation_roots;
use verse_code_machine_saved::{numberings_meet, run_renumbered, run_resumed};

/// A run is the same from trees of tasks with such numbers.
pub fn run_sorted()
    ensures { RunSorted }
{
    operation_roots();
}

/// Trees whose numbers are paired, in one order beneath each task, are such trees.
pub fn trees_sorted()
    ensures { TreesSorted }
{
    numberings_meet();
}

/// And so where a table pairs them.
pub fn table_sorts()
    ensures { TableSorts }
{
    numberings_meet();
}

/// From such trees each turn is the same turn, and leaves such trees.
pub fn turns_reordered()
    ensures { TurnsReordered }
{}

/// And so the run is the same.
pub fn run_reordered()
    ensures { RunReordered }
{}

/// The trees in the order in which they were kept, without the empty ones, are the trees of the
/// state but for their order.
pub fn kept_is_same_but_order()
    ensures { KeptIsSameButOrder }
{}

/// In those trees the frames of each task were born one after the other, and no child has one of
/// their births as its number.
pub fn kept_is_born()
    ensures { KeptIsBorn }
{
    run_is_born();
}

/// Where the trees that are spelled are those, with other numbers in the same order, the run that
/// goes on from what is kept is the run to the later horizon.
pub fn kept_run_is_the_run()
    ensures { KeptRunIsTheRun }
{
    run_is_savable();
    run_reordered();
    run_resumed();
    run_renumbered();
}
