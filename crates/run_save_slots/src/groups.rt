//! The group at which a task stands.

ghost use Rattle.std.specs.Prelude.{◌≡◌, length, map, option_map, IfOk};
ghost use Rattle.verse_value.specs.View.{val_of};
ghost use Rattle.verse_code_machine.specs.Acts.{kind_of as kind_numbered, place_at};
ghost use Rattle.run_save_shots.specs.Spelling.{or_nowhere, gathered};
ghost use Rattle.run_save_shots.specs.View.{frame_of};
ghost use Rattle.run_save_shots.specs.Fitting.{stand_at, top_place};
ghost use Rattle.vm_tasks.specs.View.{kind_of, part_of};
ghost use Rattle.run_save_slots.specs.Slots.{part, parts, rest_of_group};

use run_save_shots::shots::FrameShot;
use std::alloc::Global;
use verse_base::places::Place;
use verse_base::refusals::Memory;
use verse_code::codes::Code;
use verse_code::operations::Op;
use verse_value::values::Value;
use vm_tasks::slots::{Arm, Group, Kind};

/// What stands in the source where there is no group.
const NOWHERE: Place = Place {
    file: 0,
    line: 0,
    col: 0,
};

fn kind_of(number: u32) -> Kind
    ensures { kind_of result ≡ kind_numbered number }
{
    match number {
        0 => Kind::Sync,
        1 => Kind::Race,
        _ => Kind::Rush,
    }
}

fn place_of(code: &Code, number: u32) -> Place
    ensures { result ≡ or_nowhere (place_at code.now number) }
{
    match code.places.get(number as usize) {
        Some(place) => *place,
        None => NOWHERE,
    }
}

/// It has given a value, or is the task of a number.
fn arm_of(arm: Option<Value>, number: u64) -> Arm
    ensures { part_of result ≡ part (option_map val_of arm) number }
{
    match arm {
        Some(value) => Arm::Did(value),
        None => Arm::Runs(number),
    }
}

/// The arms with what they gave, and those that run by the numbers of their tasks.
fn arms_of(alloc: Global, arms: Vec<Option<Value>>, numbers: &[u64]) -> Result<Vec<Arm>, Memory>
    requires { length numbers.now ≡ length arms.items }
    ensures { IfOk result (λ gs. map part_of gs.items ≡
        parts (map (option_map val_of) arms.items) numbers.now) }
{
    let mut arms = arms;
    arms.reverse();
    let mut made = Vec::new(alloc);
    let mut at = 0;
    'arms: while let Some(arm) = arms.pop() {
        made.push(arm_of(arm, numbers[at]))?;
        at += 1;
    }
    Ok(made)
}

/// The group of the operation of this index, with these arms.
fn group_at(code: &Code, place: u32, arms: Vec<Arm>) -> Group
    ensures { rest_of_group result ≡ gathered code.now (stand_at code.now place)
        (map part_of arms.items) }
{
    match code.ops.get(place as usize) {
        Some(Op::Group { kind, place, .. }) => Group {
            kind: kind_of(*kind),
            place: place_of(code, *place),
            arms,
        },
        _ => Group {
            kind: Kind::Sync,
            place: NOWHERE,
            arms,
        },
    }
}

/// Where the top frame stands.
fn top_place(frames: &[FrameShot]) -> u32
    ensures { result ≡ top_place (map frame_of frames.now) }
{
    match frames.last() {
        Some(frame) => frame.place,
        None => 0,
    }
}

/// The group at which a task with these frames stands, with what its arms gave and the numbers of
/// those that run.
pub fn group_of(
    alloc: Global,
    code: &Code,
    frames: &[FrameShot],
    arms: Vec<Option<Value>>,
    numbers: &[u64],
) -> Result<Group, Memory>
    requires { length numbers.now ≡ length arms.items }
    ensures { IfOk result (λ g. rest_of_group g ≡
        gathered code.now (stand_at code.now (top_place (map frame_of frames.now)))
        (parts (map (option_map val_of) arms.items) numbers.now)) }
{
    let arms = arms_of(alloc, arms, numbers)?;
    Ok(group_at(code, top_place(frames), arms))
}
