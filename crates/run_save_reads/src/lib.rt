//! What is read of a saved run fits its code: a law alone, in `Reads`.
#![tactic(auto)]

ghost use Rattle.run_save_reads.specs.Reads.{ReadRunFits};

/// A code that is read of a saved run is valid, and what is kept fits it.
pub fn read_run_fits()
    ensures { ReadRunFits }
{}
