//! Whether a next state has the locals that an operation leaves.

ghost use Rattle.std.specs.Prelude.{◌≡◌, map};
ghost use Rattle.std.specs.Option.{option_map};
ghost use Rattle.verse_sorts.specs.Typing.{at};
ghost use Rattle.verse_verify_faults.specs.Stepping as t;
ghost use Rattle.verse_verify_faults.specs.Faults.{each_holds};
ghost use Rattle.verse_verify_notes.specs.View.{sort_of, sorts_of, classes_of};
ghost use Rattle.verse_verify_parts.specs.Mades.{made_of, made_after, written, each_after};

use crate::mades::{Made, holds};
use verse_verify_notes::notes::ClassNote;
use verse_verify_notes::sorts::Sort;
use verse_verify_tables::numbers::is_same_number;

/// The sort of a local, where it is there.
#[tactic(auto, using(crate::proofs::Locals::at_local))]
pub fn local_at(locals: &[Sort], local: usize) -> Option<&Sort>
    ensures { option_map (λ a. sort_of a.now) result ≡ at (sorts_of locals.now) local }
{
    locals.get(local)
}

/// What an operation writes to a local.
#[derive(Clone, Copy)]
pub struct Write<'a> {
    pub local: usize,
    pub made: Made<'a>,
}

/// What stands in a local behind writes.
fn made_after<'a>(old: &'a Sort, writes: &[Write<'a>], local: usize) -> Made<'a>
    ensures { made_of result ≡ made_after (t.is (sort_of old.now)) writes.now local }
{
    let mut made = Made::Is(old);
    'writes: for write in writes {
        if is_same_number(write.local, local) {
            made = write.made;
        }
    }
    made
}

/// Whether what stands in each local behind writes may be noted as others.
fn do_rows_hold<'a>(
    classes: &[ClassNote],
    locals: &'a [Sort],
    writes: &[Write<'a>],
    others: &[Sort],
) -> bool
    ensures { result ≡ each_holds (classes_of classes.now)
        (each_after (map t.is (sorts_of locals.now)) writes.now 0) (sorts_of others.now) }
{
    let mut rest = others;
    'locals: for (local, sort) in locals.iter().enumerate() {
        let Some((other, more)) = rest.split_first() else {
            return false;
        };
        if !holds(classes, made_after(sort, writes, local), other) {
            return false;
        }
        rest = more;
    }
    match rest.split_first() {
        None => true,
        Some(_) => false,
    }
}

/// Whether locals, after writes, may be noted as others.
pub fn do_locals_hold<'a>(
    classes: &[ClassNote],
    locals: &'a [Sort],
    writes: &[Write<'a>],
    others: &[Sort],
) -> bool
    ensures { result ≡ each_holds (classes_of classes.now)
        (written (map t.is (sorts_of locals.now)) writes.now) (sorts_of others.now) }
{
    do_rows_hold(classes, locals, writes, others)
}
