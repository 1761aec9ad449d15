//! The frames of a task by its children.

ghost use Rattle.std.specs.Prelude.{◌≡◌, ◌+◌, ◌≤◌, length};
ghost use Rattle.run_save_numbers.specs.Marking.{carry, lifted, settled};
ghost use Rattle.run_save_numbers.specs.View.{numbers_of};

use crate::tables::TaskNumbers;

/// Each frame began before what stands in its background and in that of the frames above it, and
/// before those.
fn lift(borns: &mut [u64], above: u64)
    requires { carry above borns.old + length borns.old ≤ 18446744073709551615 }
    ensures { borns.new ≡ lifted above borns.old }
{
    let count = borns.len();
    let mut carry = above;
    let mut at = count;
    'frames: while at > 0 {
        at -= 1;
        carry = carry.max(borns[at]);
        borns[at] = carry + (count - at) as u64;
    }
}

/// The numbers of a task of which all children are seen.
pub fn settle(marks: &mut TaskNumbers, own: u64)
    requires { carry marks.old.above marks.old.borns.items + length marks.old.borns.items ≤
        18446744073709551615 }
    ensures { numbers_of marks.new ≡ settled own (numbers_of marks.old) }
{
    lift(&mut marks.borns, marks.above);
    marks.own = own;
    if !marks.borns.is_empty() {
        marks.borns[0] = own;
    }
}
