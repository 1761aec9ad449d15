//! The functions that are built in.

ghost use Rattle.std.specs.Prelude.{◌≡◌};
ghost use Rattle.verse_check_typing.specs.Refs as r;

/// A function that is built in.
#[derive(Clone, Copy, Debug, PartialEq, Eq)]
pub enum Builtin {
    Print,
    /// `Floor` or `Ceil`.
    Round,
    /// `Mod`.
    Modulo,
}

/// The function that is built in under this number.
pub fn builtin_by(number: u8) -> Option<Builtin>
    ensures { result ≡ r.builtin_by number }
{
    match number {
        0 => Some(Builtin::Print),
        1 => Some(Builtin::Round),
        2 => Some(Builtin::Round),
        3 => Some(Builtin::Modulo),
        _ => None,
    }
}
