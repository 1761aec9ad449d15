//! Functions.

ghost use Rattle.std.specs.Prelude.{◌≡◌, [], map, length, IfOk, OnOk, slice_get};
ghost use Rattle.verse_tree.specs.ItemView.{item_of, param_of};
ghost use Rattle.verse_code.specs.declared.codes.Code.{Code};
ghost use Rattle.lower_code.specs.Programs as l;
ghost use Rattle.lower_expr.specs.Locals.{scope_of};
ghost use Rattle.lower_items.specs.Views.{body_view, this_scope};
ghost use Rattle.verse_verify_faults.specs.Reading as r;
ghost use Rattle.verse_verify_notes.specs.View.{func_of};
ghost use Rattle.note_sorts.specs.Owning.{owners};
ghost use Rattle.note_states.specs.View.{state_of};
ghost use Rattle.note_stretches.specs.Noted.{noted, walked};
ghost use Rattle.verse_note.specs.Making.{default_note, note_of, notes_from, all_notes};
ghost use Rattle.verse_note.specs.Making.{entry_of, body_walk, bodies_walk};

use lower_code::arounds::{Around, next};
use lower_expr::scopes::{Scopes, Slot};
use lower_items::bodies::Body;
use lower_items::tables::Tables;
use note_parts::noter::number_of;
use note_sorts::functions::fun_note;
use note_sorts::kinds::{self, Kind};
use note_states::standing::Standing;
use note_states::states::State;
use note_stretches::noting::Noting;
use note_trees::trees::note_tree;
use std::alloc::Global;
use verse_base::limits::MOST_OPERATIONS;
use verse_base::refusals::Memory;
use verse_code::codes::Code;
use verse_tree::items::Param;
use verse_tree::programs::Program;
use verse_verify_notes::notes::FuncNote;

/// How deep trees may be nested: no tree of a program within the greatest size is nested deeper.
const MOST_DEPTH: u32 = MOST_OPERATIONS as u32;

/// What notes say of the default of a field.
fn default_note(alloc: Global, program: &Program, body: Body<'_>) -> Result<FuncNote, Memory>
    ensures { (code : Code) → IfOk result (λ r. func_of r ≡
        default_note program.now code (body_view body.entry)) }
{
    Ok(FuncNote {
        params: Vec::new(alloc),
        result: kinds::sort(alloc, program, Kind::Node(number_of(body.body)))?,
        may_fail: false,
        may_wait: false,
    })
}

/// What notes say of a function of a code, by its number.
fn func_note(
    alloc: Global,
    program: &Program,
    classes: &[Option<u32>],
    body: Body<'_>,
    number: u32,
) -> Result<FuncNote, Memory>
    requires { classes.now ≡ owners (map item_of program.now.tree.items) }
    ensures { (code : Code) → IfOk result (λ r. func_of r ≡
        note_of program.now code (length classes.now) number (body_view body.entry)) }
{
    if (number as usize) < classes.len() {
        fun_note(alloc, program, classes, number)
    } else {
        default_note(alloc, program, body)
    }
}

/// What notes say of the functions of a code: those of the program, and then the defaults.
pub(crate) fn func_notes(
    alloc: Global,
    program: &Program,
    classes: &[Option<u32>],
    bodies: &[Body<'_>],
) -> Result<Vec<FuncNote>, Memory>
    requires { classes.now ≡ owners (map item_of program.now.tree.items) }
    ensures { (code : Code) → IfOk result (λ r. map func_of r.items ≡
        notes_from program.now code (length classes.now) 0 (map body_view bodies.now)) }
{
    let mut notes = Vec::new(alloc);
    let mut number = 0u32;
    'bodies: for body in bodies {
        notes.push(func_note(alloc, program, classes, *body, number)?)?;
        number = next(number)?;
    }
    Ok(notes)
}

/// The object of a method is its first local.
fn add_this(scopes: &mut Scopes<'_>, is_method: bool) -> Result<(), Memory>
    requires { scope_of scopes.old ≡ [] }
    ensures { OnOk result (scope_of scopes.new ≡ this_scope is_method) }
{
    if is_method {
        scopes.add(Slot::Constant(b"Self"))?;
    }
    Ok(())
}

/// The parameters are the next ones.
fn add_params<'a>(scopes: &mut Scopes<'a>, params: &'a [Param]) -> Result<(), Memory>
    ensures { OnOk result (scope_of scopes.new ≡
        l.params_scope (map param_of params.now) (scope_of scopes.old)) }
{
    'params: for param in params {
        scopes.add(Slot::Constant(param.name.as_slice()))?;
    }
    Ok(())
}

/// The locals with which a function begins.
fn scopes_of<'a>(alloc: Global, body: Body<'a>) -> Result<Scopes<'a>, Memory>
    ensures { IfOk result (λ scopes. scope_of scopes ≡ (body_view body.entry).scope) }
{
    let mut scopes = Scopes::new(alloc);
    add_this(&mut scopes, body.is_method)?;
    add_params(&mut scopes, body.params)?;
    Ok(scopes)
}

/// How many locals a function has, by its number.
fn locals_of(code: &Code, function: u32) -> u32
    ensures { result ≡ r.locals_of code.now (slice_get code.now.functions function) }
{
    match code.functions.get(function as usize) {
        None => 0,
        Some(function) => function.locals,
    }
}

/// The state with which a function begins, by its number.
fn entry(
    alloc: Global,
    program: &Program,
    notes: &[FuncNote],
    code: &Code,
    function: u32,
) -> Result<State, Memory>
    requires { map func_of notes.now ≡ all_notes program.now code.now }
    ensures { IfOk result (λ x. state_of x ≡ entry_of program.now code.now function) }
{
    let locals = locals_of(code, function);
    match notes.get(function as usize) {
        None => State::at_entry(alloc, function, &[], locals),
        Some(note) => State::at_entry(alloc, function, note.params.as_slice(), locals),
    }
}

/// The states of a function, by its number.
fn add_body<'a>(
    tables: &'a Tables<'a>,
    noting: &mut Noting,
    notes: &[FuncNote],
    code: &Code,
    body: Body<'a>,
    number: u32,
) -> Result<(), Memory>
    requires { map func_of notes.now ≡ all_notes tables.now.program.now code.now }
    ensures { OnOk result (noted noting.new ≡ walked (body_walk tables.now.program.now code.now
        number (body_view body.entry)) (noted noting.old)) }
{
    let mut scopes = scopes_of(tables.alloc, body)?;
    let entry = entry(tables.alloc, tables.program, notes, code, number)?;
    let _stood = noting.resume(Standing::at(entry));
    note_tree(
        tables,
        MOST_DEPTH,
        noting,
        &mut scopes,
        Around::fresh(),
        body.body,
    )?;
    noting.ends()?;
    Ok(())
}

/// The states of all functions of a code.
pub(crate) fn add_bodies<'a>(
    tables: &'a Tables<'a>,
    noting: &mut Noting,
    notes: &[FuncNote],
    code: &Code,
    bodies: &[Body<'a>],
) -> Result<(), Memory>
    requires { map func_of notes.now ≡ all_notes tables.now.program.now code.now }
    ensures { OnOk result (noted noting.new ≡ walked (bodies_walk tables.now.program.now code.now
        0 (map body_view bodies.now)) (noted noting.old)) }
{
    let mut number = 0u32;
    'bodies: for body in bodies {
        add_body(tables, noting, notes, code, *body, number)?;
        number = next(number)?;
    }
    Ok(())
}
