//! What names and nodes stand for.

ghost use Rattle.std.specs.Prelude.{◌≡◌};
ghost use Rattle.verse_meaning.specs.Programs.{program_of, same_name, ref_at};
ghost use Rattle.verse_meaning.specs.Evaluating.{class_ref};

use verse_tree::programs::Program;
use verse_tree::tables::Ref;

/// Whether two names are the same.
#[tactic(auto, using(verse_meaning::proofs::Names::same_bytes))]
pub fn is_same_name(name: &[u8], other: &[u8]) -> bool
    ensures { result ≡ same_name name.now other.now }
{
    name == other
}

/// What the node of a number stands for.
pub fn ref_at(program: &Program, node: u32) -> Option<Ref>
    ensures { result ≡ ref_at (program_of program.now) node }
{
    match program.names.refs.get(node as usize) {
        None => None,
        Some(known) => *known,
    }
}

/// The class that the node of a number stands for.
pub fn class_at(program: &Program, node: u32) -> Option<u32>
    ensures { result ≡ class_ref (program_of program.now) (ref_at (program_of program.now) node) }
{
    match ref_at(program, node) {
        Some(Ref::Class(class)) => Some(class),
        _ => None,
    }
}
