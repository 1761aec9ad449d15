//! The locals that an operation writes.

ghost use Rattle.std.specs.Prelude.{◌≡◌, length};
ghost use Rattle.verse_verify_parts.specs.Heres.{operands, rule_by};
ghost use Rattle.verse_verify_parts.specs.Mades.{made_of};
ghost use Rattle.verse_verify_flow.specs.Writing as w;

use verse_verify_keeps::settling::settle;
use verse_verify_next::leading::does_lead_written;
use verse_verify_notes::sorts::Sort;
use verse_verify_parts::heres::Here;
use verse_verify_parts::mades::Made;
use verse_verify_parts::rows::Write;

/// How many locals there are.
pub(crate) fn locals_count(here: &Here) -> usize
    ensures { result ≡ length here.now.spot.now.locals.value.items }
{
    here.spot.locals.len()
}

/// The rule that an operation breaks which writes a local.
pub fn write_one(here: &Here, local: u32, made: Made, st: &[Sort]) -> Option<u8>
    ensures { result ≡ rule_by here.now
        (w.writes_one here.now local (made_of made.entry) (operands st.now)) }
{
    let local = local as usize;
    let count = locals_count(here);
    if local >= count {
        return Some(6);
    }
    let writes = [Write { local, made }];
    let suits = does_lead_written(here, here.next(), &writes, st);
    settle(here, suits, &[local], None)
}

/// The rule that an operation breaks which writes a local, and then the one behind it.
pub fn write_two(here: &Here, local: u32, made: Made, behind: Made, st: &[Sort]) -> Option<u8>
    ensures { result ≡ rule_by here.now (w.writes_two here.now local (made_of made.entry)
        (made_of behind.entry) (operands st.now)) }
{
    let local = local as usize;
    let next = local + 1;
    let count = locals_count(here);
    if next >= count {
        return Some(6);
    }
    let writes = [
        Write { local, made },
        Write {
            local: next,
            made: behind,
        },
    ];
    let suits = does_lead_written(here, here.next(), &writes, st);
    settle(here, suits, &[local, next], None)
}
