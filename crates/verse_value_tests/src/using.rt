//! Calls whose promise asks for something, behind a test of it.

ghost use Rattle.std.specs.Prelude.{◌≡◌, [], MatchOption, option_map};
ghost use Rattle.verse_value.specs.View.{val_of, vals_of};
ghost use Rattle.verse_value.specs.Places.{step_in, misfit, found, path_to_map};
ghost use Rattle.verse_value_writes.specs.Writes.{CanUndo, undone};

use verse_value::lookups::{Step, at, find};
use verse_value::values::Value;
use verse_value_writes::changes::{drop_last, put_at, shorten_at};
use verse_value_writes::paths::Path;
use verse_value_writes::writes::Undo;

/// What `at` reads; `None` exactly where the index doesn't go with the value.
pub fn read<'a>(v: &'a Value, index: &Value) -> Option<Option<&'a Value>>
    ensures { MatchOption result (step_in (val_of v.now) (val_of index.now) ≡ misfit)
        (λ o. option_map (λ part. val_of part.now) o ≡
        found (step_in (val_of v.now) (val_of index.now))) }
{
    match find(v, index) {
        Step::Misfit => None,
        _ => Some(at(v, index)),
    }
}

/// Undoes a write by the changes in place. `to_map` is the path without its last index.
pub fn change_back(slot: &mut Value, path: &Path, to_map: &Path, undo: Undo)
    requires undoes { CanUndo (vals_of path.now) undo (val_of slot.old) }
    requires to_map { vals_of to_map.now ≡ path_to_map (vals_of path.now) }
    ensures { val_of slot.new ≡ undone (vals_of path.now) undo (val_of slot.old) }
{
    match undo {
        Undo::Put(old) => {
            let _ = put_at(slot, path, old);
        }
        Undo::DropLast => drop_last(slot, to_map),
        Undo::Shorten(len) => shorten_at(slot, path, len),
    }
}
