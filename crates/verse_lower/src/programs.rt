//! The code of a program.

ghost use Rattle.std.specs.Prelude.{◌≡◌, ◌<◌, ◌≤◌, ℕ, ℤ, List, map, IfOk};
ghost use Rattle.std.specs.Result.{IsErrOf};
ghost use Rattle.verse_base.specs.declared.limits.TheConstants.{MOST_OPERATIONS};
ghost use Rattle.verse_tree.specs.ItemView.{item_of};
ghost use Rattle.verse_tree.specs.Numbering.{program_nodes};
ghost use Rattle.verse_tree.specs.Sizes.{size_of};
ghost use Rattle.verse_code.specs.Validity.{Valid};
ghost use Rattle.verse_meaning.specs.Programs.{program_of};
ghost use Rattle.verse_meaning.specs.Runs.{mean};
ghost use Rattle.verse_code_machine.specs.Runs.{mach};
ghost use Rattle.lower_code.specs.Programs.{code_of};
ghost use Rattle.lower_bounds.specs.Laws.{IsWithin};
ghost use Rattle.lower_bounds.specs.Programs.{CanBeLowered, FieldsAgree};
ghost use Rattle.lower_lookup.specs.Types.{differ_of};
ghost use Rattle.lower_simulation_runs.specs.Programs.{CanBeFollowed};
ghost use Rattle.verse_lower.specs.declared.programs.LowerFault.TheVariants as lower_fault;

use crate::functions::add_functions;
use lower_bounds::{code_is_small, code_is_valid, size_stands};
use lower_expr::builder::Builder;
use lower_items::bodies::{all_bodies, main_of};
use lower_items::classes::classes_of;
use lower_items::tables::Tables;
use lower_simulation_runs::code_means_the_same;
use std::alloc::Global;
use verse_base::limits::MOST_OPERATIONS;
use verse_base::refusals::Memory;
use verse_code::codes::Code;
use verse_tree::programs::Program;
use verse_tree::sizes::size;

/// Why a program has no code.
#[derive(Clone, Copy, Debug, PartialEq, Eq)]
pub enum LowerFault {
    /// There is no memory.
    Memory,
    /// The program's size passes 16777216.
    TooLarge,
}

impl From<Memory> for LowerFault {
    ghost from_gives = { λ _ e. e ≡ lower_fault.Memory };

    fn from(_: Memory) -> LowerFault {
        LowerFault::Memory
    }
}

/// The code of the program of these tables.
fn code_by<'a, 'p: 'a>(alloc: Global, tables: &'a Tables<'p>) -> Result<Code, Memory>
    ensures { IfOk result (λ c. c ≡ code_of (program_of tables.now.program.now)
        (differ_of tables.now.program.now) tables.now.program.now.tree.files) }
{
    let program = tables.program;
    let items = program.tree.items.as_slice();
    let bodies = all_bodies(alloc, items)?;
    let mut builder = Builder::new(alloc);
    let functions = add_functions(alloc, tables, &mut builder, &bodies)?;
    let classes = classes_of(alloc, program.names.classes.as_slice())?;
    let main = main_of(items)?;
    let (ops, places, texts) = builder.finish();
    Ok(Code {
        files: program.tree.files,
        texts,
        places,
        functions,
        classes,
        main,
        ops,
    })
}

/// The code of a program of whatever size.
fn code_of(alloc: Global, program: &Program) -> Result<Code, Memory>
    ensures { IfOk result (λ c. c ≡
        code_of (program_of program.now) (differ_of program.now) program.now.tree.files) }
{
    let tables = Tables::new(alloc, program)?;
    code_by(alloc, &tables)
}

/// The code of a program; or that its size passes 16777216, or that there is no memory. The count
/// in the tree is that of its nodes, as `join` gives it.
pub fn lower(alloc: Global, program: &Program) -> Result<Code, LowerFault>
    requires counted { program.now.tree.nodes ≡ program_nodes (map item_of program.now.tree.items) }
    ensures code { IfOk result (λ c. c ≡
        code_of (program_of program.now) (differ_of program.now) program.now.tree.files) }
    // It does what the program means, for all inputs, bounds of steps and horizons.
    ensures means { IfOk result (λ c. CanBeFollowed (program_of program.now)
        program.now.tree.files →
        (ns : List ℤ) (steps until : ℕ) →
        mach c ns steps until ≡ mean (program_of program.now) ns steps until) }
    ensures valid { IfOk result (λ c.
        CanBeLowered (program_of program.now) program.now.tree.files → Valid c) }
    ensures within { IfOk result (λ c.
        FieldsAgree (program_of program.now) → IsWithin (size_of program.now) c) }
    ensures small { IfOk result (λ _. size_of program.now ≤ MOST_OPERATIONS) }
    ensures too_large { IsErrOf result lower_fault.TooLarge →
        MOST_OPERATIONS < size_of program.now }
{
    if size(program) > MOST_OPERATIONS as u64 {
        return Err(LowerFault::TooLarge);
    }
    code_means_the_same();
    code_is_valid();
    code_is_small();
    size_stands();
    Ok(code_of(alloc, program)?)
}
