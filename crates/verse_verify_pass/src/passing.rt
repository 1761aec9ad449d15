//! The first operation whose notes break a rule.

ghost use Rattle.std.specs.Prelude.{◌≡◌, ◌≤◌, length, drop};
ghost use Rattle.verse_verify_notes.specs.View.{table_of};
ghost use Rattle.verse_verify_faults.specs.Faults as f;

use crate::states::fault_here;
use verse_code::codes::Code;
use verse_verify_entries::entries::entry_fault;
use verse_verify_notes::notes::Table;

/// The first operation of a code whose notes break one of V3 to V9, and the least rule that is
/// broken there. None where no rule is broken. The rules stand under Notes in docs/FORMATS.md.
/// Takes no memory.
pub fn first_fault(code: &Code, table: &Table) -> Option<(u8, usize)>
    requires size { length code.now.ops ≤ 4294967295 }
    ensures { result ≡ f.first_fault code.now (table_of table.now) 0 code.now.ops }
{
    let end = entry_fault(code, table);
    'ops: for index in 0..end {
        let Some(op) = code.ops.get(index) else {
            return None;
        };
        if let Some(rule) = fault_here(code, table, index as u32, *op) {
            return Some((rule, index));
        }
    }
    if end < code.ops.len() {
        return Some((3, end));
    }
    None
}
