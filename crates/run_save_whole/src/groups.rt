//! Whether the arms of a group are as the group says.

ghost use Rattle.std.specs.Prelude.{◌≡◌, map, option_map, length};
ghost use Rattle.verse_value.specs.View.{val_of};
ghost use Rattle.run_save_shots.specs.Lists.{count};
ghost use Rattle.run_save_shots.specs.View.{task_of};
ghost use Rattle.run_save_shots.specs.Fitting.{arms_of, is_running, task_stand};
ghost use Rattle.run_save_format.specs.Whole.{group_breaks};
ghost use Rattle.run_save_stands.specs.View.{as_stand};
ghost use Rattle.run_save_whole.specs.Tallies.{wrong_arm, rest_wrong};
ghost use Rattle.run_save_whole.specs.View.{marks_of};

use crate::arms::Arms;
use run_save_shots::shots::{RestShot, TaskShot};
use run_save_stands::stands::{Stand, stand_at, top_place};
use verse_code::codes::Code;
use verse_value::values::Value;

fn running(arms: &[Option<Value>]) -> usize
    ensures { result ≡ count is_running (map (option_map val_of) arms.now) }
{
    let mut running = 0;
    'arms: for arm in arms {
        if arm.is_none() {
            running += 1;
        }
    }
    running
}

fn group_breaks(stand: Stand, arms: &[Option<Value>]) -> bool
    ensures { result ≡ group_breaks (as_stand stand) (map (option_map val_of) arms.now) }
{
    let running = running(arms);
    match stand {
        Stand::Gathers { kind, .. } => running == 0 || !(kind == 0 || running == arms.len()),
        _ => true,
    }
}

// Whether an arm that runs has no child, or two, or one that does not run has one.
fn arms_break(children: &[u8], arms: &[Option<Value>]) -> bool
    requires { length children.now ≡ length arms.now }
    ensures { result ≡ wrong_arm children.now 0 (map (option_map val_of) arms.now) }
{
    'arms: for i in 0..arms.len() {
        let runs = if arms[i].is_none() { 1 } else { 0 };
        if children[i] != runs {
            return true;
        }
    }
    false
}

fn stand_of(code: &Code, task: &TaskShot) -> Stand
    ensures { as_stand result ≡ task_stand code.now (task_of task.now) }
{
    stand_at(code, top_place(&task.frames))
}

/// Whether the arms of the task are not as the group says at which it stands.
pub fn rest_breaks(code: &Code, task: &TaskShot, children: &Arms) -> bool
    requires { length children.now.counts.items ≡ length (arms_of (task_of task.now).rest) }
    ensures { result ≡ rest_wrong code.now (task_of task.now) (marks_of children.now) }
{
    match &task.rest {
        RestShot::Leaf(_, _) => false,
        RestShot::Group(arms) => {
            arms_break(&children.counts, arms)
                || children.beyond
                || group_breaks(stand_of(code, task), arms)
        }
    }
}
