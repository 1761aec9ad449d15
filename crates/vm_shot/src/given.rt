//! What is kept of what spawned tasks gave.

ghost use Rattle.std.specs.Prelude.{◌≡◌, map, option_map, IfOk};
ghost use Rattle.vm_scheduler.specs.Standing as standing;
ghost use Rattle.run_save_shots.specs.View.{given_of};

use std::alloc::Global;
use verse_base::refusals::Memory;
use verse_value::values::Value;
use vm_scheduler::tasks::Given;

/// Of each entry, in their order.
pub(crate) fn spawned_shot(
    alloc: Global,
    results: &[Option<Given>],
) -> Result<Vec<Option<(Value, u64)>>, Memory>
    ensures { IfOk result (λ rs. map (option_map given_of) rs.items ≡
        map (λ o. option_map standing.given_of o) results.now) }
{
    let mut spawned = Vec::new(alloc);
    'results: for entry in results {
        let given = entry_shot(alloc, entry)?;
        spawned.push(given)?;
    }
    Ok(spawned)
}

fn entry_shot(alloc: Global, entry: &Option<Given>) -> Result<Option<(Value, u64)>, Memory>
    ensures { IfOk result (λ r. option_map given_of r ≡
        option_map standing.given_of entry.now) }
{
    match entry {
        None => Ok(None),
        Some(given) => Ok(Some((given.value.copy(alloc)?, given.moment))),
    }
}
