//! The last line of a run, and the status that goes with it.
ghost use Rattle.std.specs.Prelude.{◌≡◌, ◌++◌, IfOk, OnOk};
ghost use Rattle.verse_meaning_state.specs.Texts.{ending_line, ending_name, error_name, live_text};
ghost use Rattle.verse_meaning_state.specs.Texts.{place_text};
ghost use Rattle.verse_top_texts.specs.Endings.{ended, ending_status, live_of};
ghost use Rattle.verse_value.specs.declared.runs.Ending.TheVariants as ending;

use std::alloc::Global;
use verse_base::places::Place;
use verse_base::refusals::{Kind, Memory};
use verse_base::texts::natural;
use verse_value::runs::Ending;

/// The line that tells how a run of a program of so many files ended, with its line feed: `now` is
/// the moment of the last turn in milliseconds, `steps` the steps spent, and `live` the waits that
/// are left, which only a run that ended by itself tells.
pub fn ending_text(
    alloc: Global,
    ending: Ending,
    files: u32,
    now: u64,
    steps: u64,
    live: u64,
) -> Result<Vec<u8>, Memory>
    ensures { IfOk result (λ text. text.items ≡ ending_line files (ended ending now steps live)) }
{
    let mut out = Vec::new(alloc);
    out.extend_from_slice(b"= ")?;
    push_name(ending, files, &mut out)?;
    out.extend_from_slice(b" at ")?;
    natural(now, &mut out)?;
    out.extend_from_slice(b" steps ")?;
    natural(steps, &mut out)?;
    push_live(ending, live, &mut out)?;
    out.push(b'\n')?;
    Ok(out)
}

/// The status that goes with an ending.
pub fn status_of(ending: Ending) -> u8
    ensures { result ≡ ending_status ending }
{
    match ending {
        Ending::Done => 0,
        Ending::Waiting | Ending::Until | Ending::Steps => 3,
        Ending::Error(_, _) => 4,
        Ending::Stuck => 8,
    }
}

fn push_name(ending: Ending, files: u32, out: &mut Vec<u8>) -> Result<(), Memory>
    ensures { OnOk result (out.new.items ≡ out.old.items ++ ending_name files ending) }
{
    match ending {
        Ending::Done => out.extend_from_slice(b"done")?,
        Ending::Waiting => out.extend_from_slice(b"waiting")?,
        Ending::Until => out.extend_from_slice(b"until")?,
        Ending::Steps => out.extend_from_slice(b"steps")?,
        Ending::Error(kind, place) => push_error(kind, place, files, out)?,
        Ending::Stuck => out.extend_from_slice(b"stuck")?,
    }
    Ok(())
}

fn push_error(kind: Kind, place: Place, files: u32, out: &mut Vec<u8>) -> Result<(), Memory>
    ensures { OnOk result (out.new.items ≡ out.old.items ++
        ending_name files (ending.Error kind place)) }
{
    out.extend_from_slice(b"error ")?;
    out.extend_from_slice(kind_name(kind).as_bytes())?;
    out.push(b' ')?;
    push_place(place, files, out)
}

fn kind_name(kind: Kind) -> &'static str
    ensures { result.now ≡ error_name kind }
{
    match kind {
        Kind::Overflow => "K1",
        Kind::Size => "K2",
        Kind::Store => "K3",
        Kind::Trace => "K4",
    }
}

fn push_place(place: Place, files: u32, out: &mut Vec<u8>) -> Result<(), Memory>
    ensures { OnOk result (out.new.items ≡ out.old.items ++ place_text files place) }
{
    if files > 1 {
        natural(u64::from(place.file) + 1, out)?;
        out.push(b':')?;
    }
    natural(u64::from(place.line), out)?;
    out.push(b':')?;
    natural(u64::from(place.col), out)?;
    Ok(())
}

fn push_live(ending: Ending, live: u64, out: &mut Vec<u8>) -> Result<(), Memory>
    ensures { OnOk result (out.new.items ≡ out.old.items ++ live_text (live_of ending live)) }
{
    match ending {
        Ending::Done | Ending::Waiting | Ending::Until => {
            out.extend_from_slice(b" live ")?;
            natural(live, out)?;
            Ok(())
        }
        Ending::Steps | Ending::Error(_, _) | Ending::Stuck => Ok(()),
    }
}
