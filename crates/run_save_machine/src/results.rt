//! What spawned tasks gave.

ghost use Rattle.std.specs.Prelude.{◌≡◌, map, option_map, IfOk};
ghost use Rattle.vm_scheduler.specs.Standing as standing;
ghost use Rattle.run_save_shots.specs.View.{given_of};

use std::alloc::Global;
use verse_base::refusals::Memory;
use verse_value::values::Value;
use vm_scheduler::tasks::Given;

fn result_of(entry: Option<(Value, u64)>) -> Option<Given>
    ensures { option_map standing.given_of result ≡ option_map given_of entry }
{
    match entry {
        None => None,
        Some((value, moment)) => Some(Given { value, moment }),
    }
}

/// Of each entry, in their order.
pub(crate) fn results_of(
    alloc: Global,
    spawned: Vec<Option<(Value, u64)>>,
) -> Result<Vec<Option<Given>>, Memory>
    ensures { IfOk result (λ rs. map (λ o. option_map standing.given_of o) rs.items ≡
        map (option_map given_of) spawned.items) }
{
    let mut spawned = spawned;
    spawned.reverse();
    let mut results = Vec::new(alloc);
    'entries: while let Some(entry) = spawned.pop() {
        results.push(result_of(entry))?;
    }
    Ok(results)
}
