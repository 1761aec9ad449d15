//! What a task waits for is written.

ghost use Rattle.std.specs.Prelude.{◌≡◌, OnOk, map, option_map};
ghost use Rattle.verse_image.specs.Format.{◌⨾◌, byte, number};
ghost use Rattle.verse_image.specs.Writing.{Writes};
ghost use Rattle.verse_value.specs.View.{val_of};
ghost use Rattle.run_save_shots.specs.View.{cause_of, rest_of};
ghost use Rattle.run_save_format.specs.Format.{wide, value, maybe, list, cause, rest_field};

use crate::numbers::{push_count, push_wide};
use crate::values::push_value;
use run_save_shots::shots::RestShot;
use sim_clock::waits::WaitKind;
use verse_base::refusals::Memory;
use verse_image::digits::{push_byte, push_number};
use verse_value::values::Value;

fn push_moment(out: &mut Vec<u8>, moment: u64) -> Result<(), Memory>
    ensures { OnOk result (Writes (byte 0 ⨾ wide moment) out.old.items out.new.items) }
{
    push_byte(out, 0)?;
    push_wide(out, moment)?;
    Ok(())
}

fn push_reference(out: &mut Vec<u8>, form: u8, at: u32) -> Result<(), Memory>
    ensures { OnOk result (Writes (byte form ⨾ number at) out.old.items out.new.items) }
{
    push_byte(out, form)?;
    push_number(out, at)?;
    Ok(())
}

fn push_cause(out: &mut Vec<u8>, kind: WaitKind) -> Result<(), Memory>
    ensures { OnOk result (Writes (cause (cause_of kind)) out.old.items out.new.items) }
{
    match kind {
        WaitKind::At(moment) => push_moment(out, moment),
        WaitKind::Never => push_byte(out, 1),
        WaitKind::Task(entry) => push_reference(out, 2, entry),
        WaitKind::Event(cell) => push_reference(out, 3, cell),
    }
}

fn push_arm(out: &mut Vec<u8>, arm: &Option<Value>) -> Result<(), Memory>
    ensures { OnOk result (Writes (maybe value (option_map val_of arm.now))
        out.old.items out.new.items) }
{
    match arm {
        None => push_byte(out, 0),
        Some(v) => {
            push_byte(out, 1)?;
            push_value(out, v)?;
            Ok(())
        }
    }
}

fn push_arms(out: &mut Vec<u8>, arms: &[Option<Value>]) -> Result<(), Memory>
    ensures { OnOk result (Writes (list (maybe value) (map (option_map val_of) arms.now))
        out.old.items out.new.items) }
{
    push_count(out, arms.len())?;
    'entries: for entry in arms {
        push_arm(out, entry)?;
    }
    Ok(())
}

/// Writes what a task waits for.
pub fn push_rest(out: &mut Vec<u8>, rest: &RestShot) -> Result<(), Memory>
    ensures { OnOk result (Writes (rest_field (rest_of rest.now)) out.old.items out.new.items) }
{
    match rest {
        RestShot::Leaf(number, kind) => {
            push_byte(out, 0)?;
            push_wide(out, *number)?;
            push_cause(out, *kind)?;
            Ok(())
        }
        RestShot::Group(arms) => {
            push_byte(out, 1)?;
            push_arms(out, arms.as_slice())?;
            Ok(())
        }
    }
}
