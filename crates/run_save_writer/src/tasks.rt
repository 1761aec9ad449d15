//! Tasks are written.

ghost use Rattle.std.specs.Prelude.{◌≡◌, OnOk, All, Some, true, map};
ghost use Rattle.task_tree.specs.Tasks.{suits};
ghost use Rattle.verse_image.specs.Format.{◌⨾◌, byte, number};
ghost use Rattle.verse_image.specs.Writing.{Writes};
ghost use Rattle.run_save_shots.specs.View.{task_of};
ghost use Rattle.run_save_format.specs.Format.{standing, task_field, list};
ghost use Rattle.run_save_writer.specs.Roles.{IsSuited};

use crate::frames::push_frames;
use crate::numbers::{push_count, push_optional};
use crate::rests::push_rest;
use run_save_shots::shots::TaskShot;
use task_tree::tasks::Role;
use verse_base::refusals::Memory;
use verse_image::digits::{push_byte, push_number};

fn push_role(out: &mut Vec<u8>, form: u8, at: u32) -> Result<(), Memory>
    ensures { OnOk result (Writes (byte form ⨾ number at) out.old.items out.new.items) }
{
    push_byte(out, form)?;
    push_number(out, at)?;
    Ok(())
}

fn push_standing(
    out: &mut Vec<u8>,
    parent: Option<u32>,
    role: Role,
    root: Option<u32>,
) -> Result<(), Memory>
    requires { suits parent role ≡ true }
    ensures { OnOk result (Writes (standing parent role root) out.old.items out.new.items) }
{
    match (parent, role) {
        (None, _) => push_optional(out, root),
        (Some(_), Role::Arm(place)) => push_role(out, 0, place),
        (Some(_), Role::Behind(depth)) => push_role(out, 1, depth),
        (Some(_), Role::Root) => unreachable!(),
    }
}

fn push_task(out: &mut Vec<u8>, task: &TaskShot) -> Result<(), Memory>
    requires { IsSuited task.now }
    ensures { OnOk result (Writes (task_field (task_of task.now)) out.old.items out.new.items) }
{
    push_optional(out, task.parent)?;
    push_standing(out, task.parent, task.role, task.root)?;
    push_frames(out, task.frames.as_slice())?;
    push_rest(out, &task.rest)?;
    Ok(())
}

/// Writes how many tasks there are, and then each.
pub fn push_tasks(out: &mut Vec<u8>, tasks: &[TaskShot]) -> Result<(), Memory>
    requires { All IsSuited tasks.now }
    ensures { OnOk result (Writes (list task_field (map task_of tasks.now))
        out.old.items out.new.items) }
{
    push_count(out, tasks.len())?;
    'entries: for entry in tasks {
        push_task(out, entry)?;
    }
    Ok(())
}
