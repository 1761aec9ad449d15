//! What a node refers to, and the function that a reference stands for.

ghost use Rattle.std.specs.Prelude.{◌≡◌, option_copied, slice_get};
ghost use Rattle.verse_check_typing.specs.Refs as r;

use verse_tree::tables::{ClassInfo, FunInfo, Names, Ref};

/// What the node with this number refers to.
pub fn ref_at(refs: &[Option<Ref>], node: u32) -> Option<Ref>
    ensures { result ≡ r.ref_at refs.now node }
{
    match refs.get(node as usize) {
        None => None,
        Some(known) => *known,
    }
}

fn method_in<'a>(names: &'a Names, class: &ClassInfo, method: u32) -> Option<&'a FunInfo>
    ensures { option_copied result ≡ r.fun_numbered names.now (slice_get class.now.methods method) }
{
    match class.methods.get(method as usize) {
        None => None,
        Some(function) => names.funs.get(*function as usize),
    }
}

fn method_at<'a>(names: &'a Names, class: u32, method: u32) -> Option<&'a FunInfo>
    ensures { option_copied result ≡
        r.method_in names.now method (slice_get names.now.classes class) }
{
    match names.classes.get(class as usize) {
        None => None,
        Some(info) => method_in(names, info, method),
    }
}

/// The function or method that a reference stands for.
pub fn function_of(names: &Names, what: Ref) -> Option<&FunInfo>
    ensures { option_copied result ≡ r.function_of names.now what }
{
    match what {
        Ref::Fun(function) => names.funs.get(function as usize),
        Ref::Method(class, method) => method_at(names, class, method),
        Ref::Local(_) => None,
        Ref::Key(_) => None,
        Ref::Field(_, _) => None,
        Ref::Class(_) => None,
        Ref::Enum(_) => None,
        Ref::Builtin(_) => None,
    }
}

/// The function or method that a node refers to, where it refers to one.
pub fn function_by(names: &Names, what: Option<Ref>) -> Option<&FunInfo>
    ensures { option_copied result ≡ r.function_by names.now what }
{
    match what {
        None => None,
        Some(what) => function_of(names, what),
    }
}
