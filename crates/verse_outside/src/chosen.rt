//! Which calls are to fail.

ghost use Rattle.std.specs.Prelude.{◌≡◌};
ghost use Rattle.verse_outside.specs.Chosen.{is_chosen};

/// Whether the call of this number was chosen to fail.
pub(crate) fn fails(failing: &[u64], call: u64) -> bool
    ensures { result ≡ is_chosen failing.now call }
{
    failing.contains(&call)
}
