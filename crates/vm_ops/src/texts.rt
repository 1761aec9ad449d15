//! Texts: as they stand in a program, and from their parts.

ghost use Rattle.std.specs.Prelude.{◌≡◌, ◌++◌, Some, None, option_map, OnOk, IfOk, IfErr};
ghost use Rattle.verse_value.specs.Val.{vals};
ghost use Rattle.verse_value.specs.View.{val_of, vals_of};
ghost use Rattle.verse_value.specs.Answer.{gives};
ghost use Rattle.verse_value.specs.Keys.{bytes_of};
ghost use Rattle.verse_value.specs.Operations.{sized, text_val, join_of, hole_bytes};
ghost use Rattle.vm_ops.specs.Answers.{IsAnswerOrMemory, IsFaultOrMemory, IsMisfit};

use crate::faults::OpFault;
use crate::made::text_value;
use std::alloc::Global;
use verse_base::refusals::Kind;
use verse_base::texts::decimal;
use verse_value::lookups::text_bytes;
use verse_value::sizes::MOST_WEIGHT;
use verse_value::values::Value;

/// The value of a text: the array of its chars.
pub fn op_text(alloc: Global, bytes: &[u8]) -> Result<Value, OpFault>
    ensures answers { IsAnswerOrMemory (gives (text_val bytes.now)) result }
{
    Ok(text_value(alloc, bytes)?)
}

/// A text from its parts, each an int, which is shown in decimal, a char, or an array of chars.
/// `Stuck`: a part is none of them. `Fault`: the text would weigh more than 4000000.
pub fn op_join(alloc: Global, parts: Vec<Value>) -> Result<Value, OpFault>
    ensures answers { IsAnswerOrMemory (join_of (vals_of parts.items)) result }
{
    let bytes = shown(alloc, parts.as_slice())?;
    fitting_text(alloc, bytes.as_slice())
}

// What the parts show, one after another.
fn shown(alloc: Global, parts: &[Value]) -> Result<Vec<u8>, OpFault>
    ensures shown { IfOk result (λ bytes. join_of (vals_of parts.now) ≡
        sized (text_val bytes.items)) }
    ensures fault { IfErr result (IsFaultOrMemory (join_of (vals_of parts.now))) }
{
    let mut bytes = Vec::new(alloc);
    'parts: for part in parts {
        show(alloc, part, &mut bytes)?;
    }
    Ok(bytes)
}

// Appends what a part shows.
fn show(alloc: Global, part: &Value, out: &mut Vec<u8>) -> Result<(), OpFault>
    ensures ok { OnOk result (option_map (λ bytes. out.old.items ++ bytes)
        (hole_bytes (val_of part.now)) ≡ Some out.new.items) }
    ensures fault { IfErr result (IsMisfit (hole_bytes (val_of part.now))) }
{
    match part {
        Value::Int(n) => Ok(decimal(*n, out)?),
        Value::Char(c) => Ok(out.push(*c)?),
        Value::Array(parts) => show_chars(alloc, parts.as_slice(), out),
        _ => Err(OpFault::Stuck),
    }
}

fn show_chars(alloc: Global, parts: &[Value], out: &mut Vec<u8>) -> Result<(), OpFault>
    ensures ok { OnOk result (option_map (λ bytes. out.old.items ++ bytes)
        (bytes_of (vals (vals_of parts.now))) ≡ Some out.new.items) }
    ensures fault { IfErr result (IsMisfit (bytes_of (vals (vals_of parts.now)))) }
{
    let Some(bytes) = text_bytes(alloc, parts)? else {
        return Err(OpFault::Stuck);
    };
    Ok(out.extend_from_slice(bytes.as_slice())?)
}

// A text that is light enough, or K2. It is weighed before it is made.
#[tactic(auto, using(crate::proofs::Shown::light_text, crate::proofs::Shown::heavy_text))]
fn fitting_text(alloc: Global, bytes: &[u8]) -> Result<Value, OpFault>
    ensures answers { IsAnswerOrMemory (sized (text_val bytes.now)) result }
{
    if (bytes.len() as u64) < MOST_WEIGHT {
        Ok(text_value(alloc, bytes)?)
    } else {
        Err(OpFault::Fault(Kind::Size))
    }
}
