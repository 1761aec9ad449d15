//! The code of each form of the language, held by rows: `Forms` has a form, or one of its kinds,
//! with small parts, and the operations that `lower_code` defines for it. The chapter 'The code of
//! a form' in `docs/ARCHITECTURE.md` shows the same rows.
#![tactic(auto)]

ghost use Rattle.lower_code_laws.specs.Forms.{
  BlocksHaveCode,
  WritesHaveCode,
  AttemptsHaveCode,
  LoopsHaveCode,
  OperatorsHaveCode,
  CallsHaveCode,
  ValuesHaveCode,
  TasksHaveCode,
  WrongHasCode,
};

/// Blocks, definitions and what leaves them.
pub fn blocks_have_code()
    ensures { BlocksHaveCode }
{}

/// `set`: the cell, the indices, the value, the write.
pub fn writes_have_code()
    ensures { WritesHaveCode }
{}

/// Failure contexts.
pub fn attempts_have_code()
    ensures { AttemptsHaveCode }
{}

/// `loop`, `for` and `case`.
pub fn loops_have_code()
    ensures { LoopsHaveCode }
{}

/// Operators and comparisons.
pub fn operators_have_code()
    ensures { OperatorsHaveCode }
{}

/// Members, calls and indices.
pub fn calls_have_code()
    ensures { CallsHaveCode }
{}

/// Literals, names, and values that are made.
pub fn values_have_code()
    ensures { ValuesHaveCode }
{}

/// Groups, branches, spawned calls and pauses.
pub fn tasks_have_code()
    ensures { TasksHaveCode }
{}

/// What no accepted program has: the machine is stuck there.
pub fn wrong_has_code()
    ensures { WrongHasCode }
{}
