//! What is asked of the types of nodes.

ghost use Rattle.std.specs.Prelude.{◌≡◌};
ghost use Rattle.verse_meaning.specs.Programs.{program_of, is_array_type, is_event_type};
ghost use Rattle.lower_lookup.specs.Types.{differ_of, are_other};

use verse_rules_types::fitting::is_same;
use verse_tree::programs::Program;
use verse_tree::tables::Ty;

fn is_array_type(ty: &Ty) -> bool
    ensures { result ≡ is_array_type ty.now }
{
    match ty {
        Ty::Array(_) => true,
        _ => false,
    }
}

fn is_event_type(ty: &Ty) -> bool
    ensures { result ≡ is_event_type ty.now }
{
    match ty {
        Ty::Event(_) => true,
        _ => false,
    }
}

/// Whether the type of the node of a number is an array.
pub fn is_array(program: &Program, node: u32) -> bool
    ensures { result ≡ (program_of program.now).is_array node }
{
    match program.typed.types.get(node as usize) {
        None => false,
        Some(ty) => is_array_type(ty),
    }
}

/// Whether the type of the node of a number is an event.
pub fn is_event(program: &Program, node: u32) -> bool
    ensures { result ≡ (program_of program.now).is_event node }
{
    match program.typed.types.get(node as usize) {
        None => false,
        Some(ty) => is_event_type(ty),
    }
}

fn are_other(ty: &Ty, other: &Ty) -> bool
    ensures { result ≡ are_other ty.now other.now }
{
    !is_same(ty, other)
}

/// Whether two nodes, by their numbers, have different types. Not where one has none.
pub fn differ(program: &Program, node: u32, other: u32) -> bool
    ensures { result ≡ differ_of program.now node other }
{
    let types = &program.typed.types;
    match (types.get(node as usize), types.get(other as usize)) {
        (Some(ty), Some(other)) => are_other(ty, other),
        _ => false,
    }
}
