//! Specifiers, and the names that are built in.

ghost use Rattle.std.specs.Prelude.{◌≡◌, map};
ghost use Rattle.verse_tree.specs.ItemView.{spec_of};
ghost use Rattle.verse_names_tables.specs.Names.{look};
ghost use Rattle.verse_names_tables.specs.Words.{has, effects_of, builtins};

use verse_tree::items::Spec;
use verse_tree::tables::{Effects, Ref};

/// Whether a specifier is among those that are written.
pub fn has(specs: &[Spec], word: &[u8]) -> bool
    ensures { result ≡ has word.now (map spec_of specs.now) }
{
    'specs: for spec in specs {
        if spec.name.as_slice() == word {
            return true;
        }
    }
    false
}

/// The effects that are written; others that stand there are no effects.
pub fn effects_of(specs: &[Spec]) -> Effects
    ensures { result ≡ effects_of (map spec_of specs.now) }
{
    Effects {
        computes: has(specs, b"computes"),
        transacts: has(specs, b"transacts"),
        decides: has(specs, b"decides"),
        suspends: has(specs, b"suspends"),
    }
}

/// What is built in under this name.
pub fn builtin(name: &[u8]) -> Option<Ref>
    ensures { result ≡ look name.now builtins }
{
    if name == b"Print".as_slice() {
        return Some(Ref::Builtin(0));
    }
    if name == b"Floor".as_slice() {
        return Some(Ref::Builtin(1));
    }
    if name == b"Ceil".as_slice() {
        return Some(Ref::Builtin(2));
    }
    if name == b"Mod".as_slice() {
        return Some(Ref::Builtin(3));
    }
    None
}
