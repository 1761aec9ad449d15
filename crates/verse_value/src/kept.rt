//! How much a value weighs and how deep it is, kept beside its parts.

ghost use Rattle.std.specs.Prelude.{◌≡◌, ℕ, ◌+◌, ◌-◌, min, max, IfSome};
ghost use Rattle.verse_value.specs.Kept.{Measures, Resizes};

/// How much a value weighs, and a number of levels that it does not pass. Each stands at
/// 18446744073709551615 where it is more.
#[derive(Clone, Copy)]
pub struct Size {
    pub weight: u64,
    pub levels: u64,
}

/// Of no parts.
pub(crate) fn nothing() -> Size
    ensures { result ≡ record { weight = 0; levels = 0 } }
{
    Size {
        weight: 0,
        levels: 0,
    }
}

/// Of a scalar or a reference.
pub(crate) fn scalar() -> Size
    ensures { result ≡ record { weight = 1; levels = 1 } }
{
    Size {
        weight: 1,
        levels: 1,
    }
}

/// Of two lists of parts together.
pub(crate) fn beside(some: Size, more: Size) -> Size
    ensures weight { result.weight ≡ min (some.weight + more.weight) 18446744073709551615 }
    ensures levels { result.levels ≡ max some.levels more.levels }
{
    Size {
        weight: some.weight.saturating_add(more.weight),
        levels: some.levels.max(more.levels),
    }
}

/// Of what has these parts.
pub(crate) fn above(parts: Size) -> Size
    ensures weight { result.weight ≡ min (1 + parts.weight) 18446744073709551615 }
    ensures levels { result.levels ≡ min (1 + parts.levels) 18446744073709551615 }
{
    Size {
        weight: 1u64.saturating_add(parts.weight),
        levels: 1u64.saturating_add(parts.levels),
    }
}

/// Of a whole that the parts of another one are added to.
pub(crate) fn joined(whole: Size, other: Size) -> Size
    ensures weight { result.weight ≡ min (whole.weight + (other.weight - 1)) 18446744073709551615 }
    ensures levels { result.levels ≡ max whole.levels other.levels }
{
    Size {
        weight: whole.weight.saturating_add(other.weight.saturating_sub(1)),
        levels: whole.levels.max(other.levels),
    }
}

/// Of a whole after one of its parts changed, from the part's sizes before and after. `None` where
/// the whole weighs more than a number holds, so that its parts are to be counted again.
pub(crate) fn changed(whole: Size, before: Size, after: Size) -> Option<Size>
    ensures { IfSome result (λ size. (now deep : ℕ) → Resizes whole before after now deep size) }
{
    if whole.weight == u64::MAX {
        return None;
    }
    let rest = whole.weight.saturating_sub(before.weight);
    Some(Size {
        weight: rest.saturating_add(after.weight),
        levels: whole.levels.max(1u64.saturating_add(after.levels)),
    })
}
