//! The operations and their table agree.

ghost use Rattle.verse_code.specs.Forms.{forms};
ghost use Rattle.verse_code.specs.Agreement.{Right, AllHaveForms};

/// Each form of the table makes an operation of its code with its operands, and each operation
/// stands in the table at its code.
pub fn operations_agree()
    ensures forms { Right 0 forms }
    ensures operations { AllHaveForms }
{}
