//! What operations of a kind may do.

ghost use Rattle.std.specs.Prelude.{◌≡◌, slice_get};
ghost use Rattle.verse_verify_notes.specs.View.{table_of};
ghost use Rattle.verse_verify_faults.specs.Faults as f;

use verse_code::codes::Code;
use verse_code::operations::Op;
use verse_verify_notes::notes::Table;

/// Whether an operation may fail, calls apart.
pub fn can_fail(code: &Code, table: &Table, op: Op) -> bool
    ensures { result ≡ f.can_fail code.now (table_of table.now) op }
{
    match op {
        Op::Floor(..) | Op::Ceil(..) | Op::Mod | Op::Lt | Op::Le | Op::Gt | Op::Ge => true,
        Op::Eq | Op::Ne | Op::Query | Op::At | Op::Fail => true,
        Op::Store {
            slot: _,
            indices,
            mode: _,
            place: _,
        } => indices > 0,
        Op::Int(..) | Op::Unit | Op::False | Op::True | Op::Char(..) | Op::Text(..) => false,
        Op::Enum(..) | Op::Get(..) | Op::Put(..) | Op::Drop | Op::Add(..) | Op::Sub(..) => false,
        Op::Mul(..) | Op::Neg(..) | Op::Concat(..) | Op::Join(..) | Op::Array(..) => false,
        Op::Map(..) | Op::Tuple(..) | Op::Some(..) | Op::Item(..) | Op::Length | Op::New(..) =>
            false,
        Op::Load(..) | Op::Object(..) | Op::Event(..) | Op::Jump(..) | Op::Same(..) => false,
        Op::Again(..) | Op::Try(..) | Op::Commit | Op::Undo | Op::Call(..) | Op::Method(..) =>
            false,
        Op::Return | Op::Each(..) | Op::Range(..) | Op::Take { .. } | Op::Append(..) => false,
        Op::Print(..) | Op::Sleep(..) | Op::Forever | Op::AwaitTask | Op::AwaitEvent => false,
        Op::Signal | Op::Spawn(..) | Op::SpawnMethod(..) | Op::Group { .. } | Op::Arm(..) => false,
        Op::Branch(..) | Op::ArmEnd | Op::Defer(..) | Op::Leave(..) | Op::DeferEnd => false,
    }
}

/// Whether an operation calls a function, and so does what that does.
pub fn is_call(code: &Code, table: &Table, op: Op) -> bool
    ensures { result ≡ f.is_call code.now (table_of table.now) op }
{
    match op {
        Op::Call(..) | Op::Method(..) => true,
        Op::Int(..) | Op::Unit | Op::False | Op::True | Op::Char(..) | Op::Text(..) => false,
        Op::Enum(..) | Op::Get(..) | Op::Put(..) | Op::Drop | Op::Add(..) | Op::Sub(..) => false,
        Op::Mul(..) | Op::Neg(..) | Op::Floor(..) | Op::Ceil(..) | Op::Mod | Op::Concat(..) =>
            false,
        Op::Join(..) | Op::Lt | Op::Le | Op::Gt | Op::Ge | Op::Eq | Op::Ne | Op::Array(..) => false,
        Op::Map(..) | Op::Tuple(..) | Op::Some(..) | Op::Query | Op::Item(..) | Op::At => false,
        Op::Length | Op::New(..) | Op::Load(..) | Op::Store { .. } | Op::Object(..) => false,
        Op::Event(..) | Op::Jump(..) | Op::Same(..) | Op::Again(..) | Op::Try(..) => false,
        Op::Commit | Op::Undo | Op::Fail | Op::Return | Op::Each(..) | Op::Range(..) => false,
        Op::Take { .. } | Op::Append(..) | Op::Print(..) | Op::Sleep(..) | Op::Forever => false,
        Op::AwaitTask | Op::AwaitEvent | Op::Signal | Op::Spawn(..) | Op::SpawnMethod(..) => false,
        Op::Group { .. } | Op::Arm(..) | Op::Branch(..) | Op::ArmEnd | Op::Defer(..) => false,
        Op::Leave(..) | Op::DeferEnd => false,
    }
}

/// Whether an operation spawns a function.
pub fn is_spawn(code: &Code, table: &Table, op: Op) -> bool
    ensures { result ≡ f.is_spawn code.now (table_of table.now) op }
{
    match op {
        Op::Spawn(..) | Op::SpawnMethod(..) => true,
        Op::Int(..) | Op::Unit | Op::False | Op::True | Op::Char(..) | Op::Text(..) => false,
        Op::Enum(..) | Op::Get(..) | Op::Put(..) | Op::Drop | Op::Add(..) | Op::Sub(..) => false,
        Op::Mul(..) | Op::Neg(..) | Op::Floor(..) | Op::Ceil(..) | Op::Mod | Op::Concat(..) =>
            false,
        Op::Join(..) | Op::Lt | Op::Le | Op::Gt | Op::Ge | Op::Eq | Op::Ne | Op::Array(..) => false,
        Op::Map(..) | Op::Tuple(..) | Op::Some(..) | Op::Query | Op::Item(..) | Op::At => false,
        Op::Length | Op::New(..) | Op::Load(..) | Op::Store { .. } | Op::Object(..) => false,
        Op::Event(..) | Op::Jump(..) | Op::Same(..) | Op::Again(..) | Op::Try(..) => false,
        Op::Commit | Op::Undo | Op::Fail | Op::Call(..) | Op::Method(..) | Op::Return => false,
        Op::Each(..) | Op::Range(..) | Op::Take { .. } | Op::Append(..) | Op::Print(..) => false,
        Op::Sleep(..) | Op::Forever | Op::AwaitTask | Op::AwaitEvent | Op::Signal => false,
        Op::Group { .. } | Op::Arm(..) | Op::Branch(..) | Op::ArmEnd | Op::Defer(..) => false,
        Op::Leave(..) | Op::DeferEnd => false,
    }
}

/// Whether an operation may wait, calls apart, or begins what runs beside.
pub fn can_wait(code: &Code, table: &Table, op: Op) -> bool
    ensures { result ≡ f.can_wait code.now (table_of table.now) op }
{
    match op {
        Op::Sleep(..) | Op::Forever | Op::AwaitTask | Op::AwaitEvent | Op::Signal => true,
        Op::Spawn(..) | Op::SpawnMethod(..) | Op::Group { .. } | Op::Branch(..) => true,
        Op::ArmEnd => true,
        Op::Int(..) | Op::Unit | Op::False | Op::True | Op::Char(..) | Op::Text(..) => false,
        Op::Enum(..) | Op::Get(..) | Op::Put(..) | Op::Drop | Op::Add(..) | Op::Sub(..) => false,
        Op::Mul(..) | Op::Neg(..) | Op::Floor(..) | Op::Ceil(..) | Op::Mod | Op::Concat(..) =>
            false,
        Op::Join(..) | Op::Lt | Op::Le | Op::Gt | Op::Ge | Op::Eq | Op::Ne | Op::Array(..) => false,
        Op::Map(..) | Op::Tuple(..) | Op::Some(..) | Op::Query | Op::Item(..) | Op::At => false,
        Op::Length | Op::New(..) | Op::Load(..) | Op::Store { .. } | Op::Object(..) => false,
        Op::Event(..) | Op::Jump(..) | Op::Same(..) | Op::Again(..) | Op::Try(..) => false,
        Op::Commit | Op::Undo | Op::Fail | Op::Call(..) | Op::Method(..) | Op::Return => false,
        Op::Each(..) | Op::Range(..) | Op::Take { .. } | Op::Append(..) | Op::Print(..) => false,
        Op::Arm(..) | Op::Defer(..) | Op::Leave(..) | Op::DeferEnd => false,
    }
}

/// How many operands the function of this number takes.
fn params_of(code: &Code, table: &Table, func: u32) -> u64
    ensures { result ≡ f.func_pops code.now (table_of table.now)
        (slice_get code.now.functions func) }
{
    match code.functions.get(func as usize) {
        None => 0,
        Some(made) => made.params as u64,
    }
}

/// How many slots the objects of a class have.
fn slots_of(code: &Code, table: &Table, class: u32) -> u64
    ensures { result ≡ f.class_pops code.now (table_of table.now)
        (slice_get code.now.classes class) }
{
    match code.classes.get(class as usize) {
        None => 0,
        Some(made) => made.slots as u64,
    }
}

/// How many operands an operation pops.
pub fn pops(code: &Code, table: &Table, op: Op) -> u64
    ensures { result ≡ f.pops code.now (table_of table.now) op }
{
    match op {
        Op::Put(..) | Op::Drop | Op::Neg(..) | Op::Some(..) | Op::Query | Op::Item(..) => 1,
        Op::Length | Op::New(..) | Op::Load(..) | Op::Return | Op::Each(..) => 1,
        Op::Append(..) | Op::Print(..) | Op::AwaitTask | Op::AwaitEvent | Op::ArmEnd => 1,
        Op::Add(..) | Op::Sub(..) | Op::Mul(..) | Op::Floor(..) | Op::Ceil(..) | Op::Mod => 2,
        Op::Concat(..) | Op::Lt | Op::Le | Op::Gt | Op::Ge | Op::Eq | Op::Ne | Op::At => 2,
        Op::Same(..) | Op::Range(..) | Op::Signal => 2,
        Op::Join(n, _) => n as u64,
        Op::Array(n, _) => n as u64,
        Op::Tuple(n, _) => n as u64,
        Op::Map(n, _) => n as u64 + n as u64,
        Op::Store {
            slot: _,
            indices,
            mode: _,
            place: _,
        } => indices as u64 + 2,
        Op::Object(class, _) => slots_of(code, table, class),
        Op::Call(func) => params_of(code, table, func),
        Op::Spawn(func) => params_of(code, table, func),
        Op::Method(_, n) => n as u64 + 1,
        Op::SpawnMethod(_, n) => n as u64 + 1,
        Op::Int(..) | Op::Unit | Op::False | Op::True | Op::Char(..) | Op::Text(..) => 0,
        Op::Enum(..) | Op::Get(..) | Op::Event(..) | Op::Jump(..) | Op::Again(..) => 0,
        Op::Try(..) | Op::Commit | Op::Undo | Op::Fail | Op::Take { .. } | Op::Sleep(..) => 0,
        Op::Forever | Op::Group { .. } | Op::Arm(..) | Op::Branch(..) | Op::Defer(..) => 0,
        Op::Leave(..) | Op::DeferEnd => 0,
    }
}
