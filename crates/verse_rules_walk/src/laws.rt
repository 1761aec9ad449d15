//! Laws about the nodes that are walked, which nothing calls.

ghost use Rattle.verse_rules_walk.specs.Order.{InPostOrder, NumbersInRow, NumbersRise};

/// But for what stands round them, the nodes are those of a program's items in written post-order.
/// Where a program is numbered, they have one number after the other, from 0.
pub fn nodes_in_order()
    ensures nodes { InPostOrder }
    ensures row { NumbersInRow }
    ensures rise { NumbersRise }
{}
