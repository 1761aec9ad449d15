//! Values without parts are read.

ghost use Rattle.std.specs.Prelude.{◌≡◌, Ok};
ghost use Rattle.verse_image.specs.Reading.{Gives};
ghost use Rattle.verse_value.specs.View.{val_of};
ghost use Rattle.run_save_format.specs.Values.{int_at, char_at, enum_at, object_at, event_at};
ghost use Rattle.run_save_format.specs.Values.{may_name, task_at};

use crate::keys::MOST_CHAR;
use crate::numbers::{number_in, small};
use run_save_format::weights::{Load, Where};
use verse_image::faults::ReadFault;
use verse_image::numbers::{bad, integer};
use verse_value::values::Value;

#[tactic(auto, unfolding(run_save_format::specs::Values::int_at))]
pub fn int_value(load: Load, bytes: &[u8]) -> Result<(Value, Load, &[u8]), ReadFault>
    ensures { Gives (λ x. ((val_of x.0, x.1), x.2.now)) result (int_at load bytes.now) }
{
    let (number, rest) = integer(bytes)?;
    Ok((Value::Int(number), load, rest))
}

#[tactic(auto, unfolding(run_save_format::specs::Values::char_at))]
pub fn char_value(load: Load, bytes: &[u8]) -> Result<(Value, Load, &[u8]), ReadFault>
    ensures { Gives (λ x. ((val_of x.0, x.1), x.2.now)) result (char_at load bytes.now) }
{
    let (number, rest) = number_in(5, 0, MOST_CHAR, bytes)?;
    Ok((Value::Char(number as u8), load, rest))
}

#[tactic(auto, unfolding(run_save_format::specs::Values::enum_at))]
pub fn enum_value(load: Load, bytes: &[u8]) -> Result<(Value, Load, &[u8]), ReadFault>
    ensures { Gives (λ x. ((val_of x.0, x.1), x.2.now)) result (enum_at load bytes.now) }
{
    let (of, rest) = small(bytes)?;
    let (at, rest) = small(rest)?;
    Ok((Value::Enum(of, at), load, rest))
}

#[tactic(auto, unfolding(run_save_format::specs::Values::object_at))]
pub fn object_value(load: Load, bytes: &[u8]) -> Result<(Value, Load, &[u8]), ReadFault>
    ensures { Gives (λ x. ((val_of x.0, x.1), x.2.now)) result (object_at load bytes.now) }
{
    let (address, rest) = small(bytes)?;
    Ok((Value::Obj(address), load, rest))
}

#[tactic(auto, unfolding(run_save_format::specs::Values::event_at))]
pub fn event_value(load: Load, bytes: &[u8]) -> Result<(Value, Load, &[u8]), ReadFault>
    ensures { Gives (λ x. ((val_of x.0, x.1), x.2.now)) result (event_at load bytes.now) }
{
    let (address, rest) = small(bytes)?;
    Ok((Value::Event(address), load, rest))
}

fn may_name(place: Where, entry: u32) -> bool
    ensures { result ≡ may_name place entry }
{
    match place {
        Where::Cell(_) => true,
        Where::Among(entries) => (entry as usize) < entries,
    }
}

#[tactic(auto, unfolding(run_save_format::specs::Values::task_at, run_save_format::specs::Values::small_where))]
pub fn task_value(place: Where, load: Load, bytes: &[u8]) -> Result<(Value, Load, &[u8]), ReadFault>
    ensures { Gives (λ x. ((val_of x.0, x.1), x.2.now)) result (task_at place load bytes.now) }
{
    let (entry, rest) = small(bytes)?;
    if may_name(place, entry) {
        Ok((Value::Task(entry), load, rest))
    } else {
        Err(bad(5, bytes.len()))
    }
}
