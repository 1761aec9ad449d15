//! Types whose maps have keys that can be keys.

ghost use Rattle.std.specs.Prelude.{◌≡◌, map};
ghost use Rattle.verse_rules_types.specs.Types.{ty_of, tys};
ghost use Rattle.verse_check_typing.specs.Keys as k;

use verse_rules_types::kinds::is_key;
use verse_tree::tables::Ty;

/// Whether each map in a type has keys of a type that can be a key.
#[cycle(keys)]
pub fn has_keys(ty: &Ty) -> bool
    ensures { result ≡ k.has_keys (ty_of ty.now) }
{
    match ty {
        Ty::Option(part) => has_keys(part.get()),
        Ty::Array(part) => has_keys(part.get()),
        Ty::Task(part) => has_keys(part.get()),
        Ty::Event(part) => has_keys(part.get()),
        Ty::Map(map) => is_key(map.key.get()) && has_keys(map.value.get()),
        Ty::Tuple(parts) => all_have_keys(parts.as_slice()),
        _ => true,
    }
}

#[cycle(keys)]
fn all_have_keys(types: &[Ty]) -> bool
    ensures { result ≡ k.all_have_keys (tys (map ty_of types.now)) }
{
    'types: for ty in types {
        if !has_keys(ty) {
            return false;
        }
    }
    true
}
