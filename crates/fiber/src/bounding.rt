//! Where handlers let a frame go on.

ghost use Rattle.std.specs.Prelude.{◌≡◌, reverse};
ghost use Rattle.fiber.specs.Bounding.{allows, within, Within};

use fiber_stacks::heads::Bounds;

/// Whether a place is above the beginning of a handler, and below its label.
fn permits(bound: &Bounds, place: u32) -> bool
    ensures { result ≡ allows bound.now place }
{
    bound.made < place && place < bound.label
}

/// Whether a place is within the bounds of all handlers.
pub(crate) fn all_permit(bounds: &[Bounds], place: u32) -> bool
    ensures { result ≡ within (reverse bounds.now) place }
{
    'handlers: for bound in bounds {
        if !permits(bound, place) {
            return false;
        }
    }
    true
}

/// Places at which a frame may go on without being asked: from `low` on, and below `high`.
#[derive(Clone, Copy, Debug, PartialEq, Eq)]
pub struct Window {
    pub low: u32,
    pub high: u32,
}

/// Places within the bounds of all handlers: all of them, but for 4294967295.
pub(crate) fn window_of(bounds: &[Bounds]) -> Window
    ensures { Within (reverse bounds.now) result }
{
    let mut low = 0;
    let mut high = u32::MAX;
    'handlers: for bound in bounds {
        low = low.max(bound.made.saturating_add(1));
        high = high.min(bound.label);
    }
    Window { low, high }
}
