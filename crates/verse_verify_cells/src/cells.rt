//! Operations on cells.

ghost use Rattle.std.specs.Prelude.{◌≡◌};
ghost use Rattle.verse_code.specs.declared.operations.Op.TheVariants as o;
ghost use Rattle.verse_verify_faults.specs.Fitting.{each_fit};
ghost use Rattle.verse_verify_notes.specs.View.{sorts_of};
ghost use Rattle.verse_verify_parts.specs.Heres.{classes_in};
ghost use Rattle.verse_verify_operands.specs.Finds.{broken};
ghost use Rattle.verse_verify_cells.specs.Slots.{writing, making};

use crate::slots::slot_in;
use verse_verify_notes::sorts::Sort;
use verse_verify_operands::asking::may_write;
use verse_verify_operands::finding::{part_at_path, pop_many};
use verse_verify_parts::heres::Here;
use verse_verify_parts::mades::Made;
use verse_verify_parts::operands::pop;
use verse_verify_sorts::fitting::does_each_fit;
use verse_verify_values::pushing::{FEW, LACKS, SORT, pushes};

/// The rule that New breaks.
pub fn variable(here: &Here, place: u32, st: &[Sort]) -> Option<u8>
    ensures { result ≡ broken here.now (o.New place) st.now }
{
    let Some((sort, rest)) = pop(st) else {
        return Some(FEW);
    };
    pushes(here, Some(Made::VarOf(sort)), rest)
}

/// The rule that Load breaks, of the slot of this number.
#[tactic(auto, using(crate::proofs::Passing::slots_by))]
pub fn load(here: &Here, slot: u32, st: &[Sort]) -> Option<u8>
    ensures { result ≡ broken here.now (o.Load slot) st.now }
{
    let Some((cell, rest)) = pop(st) else {
        return Some(FEW);
    };
    match slot_in(here, cell, slot) {
        Err(rule) => Some(rule),
        Ok(sort) => pushes(here, Some(Made::Is(sort)), rest),
    }
}

/// The rule that an operation breaks which writes a value in a mode to the part of a slot to which
/// indices lead.
fn writes(
    here: &Here,
    mode: u32,
    whole: &Sort,
    value: &Sort,
    path: &[Sort],
    st: &[Sort],
) -> Option<u8>
    ensures { result ≡ writing here.now mode whole.now value.now path.now st.now }
{
    let Some(part) = part_at_path(here, whole, path) else {
        return Some(SORT);
    };
    if !may_write(here, mode, part, value) {
        return Some(SORT);
    }
    pushes(here, Some(Made::Is(part)), st)
}

/// The rule that Store breaks, into the slot of this number, by so many indices, in this mode.
#[tactic(auto, using(crate::proofs::RuleSets::of_storing))]
pub fn store(here: &Here, slot: u32, indices: u32, mode: u32, place: u32, st: &[Sort]) -> Option<u8>
    ensures { result ≡ broken here.now (o.Store slot indices mode place) st.now }
{
    let Some((value, below)) = pop(st) else {
        return Some(FEW);
    };
    let Some((path, low)) = pop_many(below, indices as usize) else {
        return Some(FEW);
    };
    let Some((cell, rest)) = pop(low) else {
        return Some(FEW);
    };
    match slot_in(here, cell, slot) {
        Err(rule) => Some(rule),
        Ok(whole) => writes(here, mode, whole, value, path, rest),
    }
}

/// Whether sorts fit others, one by one.
fn do_fit(here: &Here, sorts: &[Sort], others: &[Sort]) -> bool
    ensures { result ≡ each_fit (classes_in here.now) (sorts_of sorts.now) (sorts_of others.now) }
{
    does_each_fit(here.classes(), sorts, others)
}

/// The rule that an operation breaks which makes an object of a class, whose slots are of so many
/// sorts.
#[tactic(auto, using(verse_verify_operands::proofs::Found::pops_by))]
fn makes(here: &Here, class: u32, count: u32, slots: &[Sort], st: &[Sort]) -> Option<u8>
    ensures { result ≡ making here.now class count slots.now st.now }
{
    let Some((sorts, rest)) = pop_many(st, count as usize) else {
        return Some(FEW);
    };
    if !do_fit(here, sorts, slots) {
        return Some(SORT);
    }
    pushes(here, Some(Made::Object(class)), rest)
}

/// The rule that Object breaks, of the class of this number.
pub fn object(here: &Here, class: u32, place: u32, st: &[Sort]) -> Option<u8>
    ensures { result ≡ broken here.now (o.Object class place) st.now }
{
    let Some(made) = here.code.classes.get(class as usize) else {
        return Some(LACKS);
    };
    let Some(note) = here.table.classes.get(class as usize) else {
        return Some(LACKS);
    };
    makes(here, class, made.slots, &note.slots, st)
}

/// The rule that Event breaks.
pub fn event(here: &Here, place: u32, st: &[Sort]) -> Option<u8>
    ensures { result ≡ broken here.now (o.Event place) st.now }
{
    pushes(here, Some(Made::Event), st)
}
