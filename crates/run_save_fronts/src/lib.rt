//! A fault is the first from the left: a law alone, in `Faults` of `run_save_format`.
#![tactic(auto)]

ghost use Rattle.run_save_format.specs.Faults.{FrontHasNoFault};

/// The bytes before a failing place have no fault but that they end too early. Before bytes behind
/// a saved run stands that run, or one that breaks a rule on the whole list; and an image without
/// a byte fails where it would stand, whatever follows.
pub fn front_has_no_fault()
    ensures { FrontHasNoFault }
{}
