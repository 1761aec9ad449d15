//! The operations, sorted by what they work on.

ghost use Rattle.std.specs.Prelude.{◌≡◌};
ghost use Rattle.vm_exec.specs.Sorting.{op_of};

use verse_code::operations::Op;
use vm_exec_loops::taking::Turn;
use vm_exec_memory::writing::Target;
use vm_exec_tasks::starting::Group;

/// Values that are pushed, and values in locals.
#[derive(Clone, Copy)]
pub enum PushOp {
    Int(i64),
    Unit,
    False,
    True,
    Char(u32),
    Text(u32),
    Enum(u32, u32),
    Get(u32),
    Put(u32),
    Drop,
}

/// Numbers.
#[derive(Clone, Copy)]
pub enum NumberOp {
    Add(u32),
    Sub(u32),
    Mul(u32),
    Neg(u32),
    Floor(u32),
    Ceil(u32),
    Mod,
    Lt,
    Le,
    Gt,
    Ge,
}

/// Arrays, maps, tuples, options, texts; and what any two values are.
#[derive(Clone, Copy)]
pub enum CompositeOp {
    Concat(u32),
    Join(u32, u32),
    Eq,
    Ne,
    Array(u32, u32),
    Map(u32, u32),
    Tuple(u32, u32),
    Some(u32),
    Query,
    Item(u32),
    At,
    Length,
    Append(u32, u32),
}

/// Cells, attempts and the trace.
#[derive(Clone, Copy)]
pub enum StoreOp {
    New(u32),
    Load(u32),
    Write(Target),
    Object(u32, u32),
    Event(u32),
    Try(u32),
    Commit,
    Undo,
    Fail,
    Print(u32),
}

/// Where the task goes on.
#[derive(Clone, Copy)]
pub enum ControlOp {
    Jump(u32),
    Same(u32),
    Again(u32),
    Call(u32),
    Method(u32, u32),
    Each(u32),
    Range(u32),
    Take(Turn),
    Defer(u32),
    Leave(u32),
}

/// Other tasks, and frames that end.
#[derive(Clone, Copy)]
pub enum TaskOp {
    Sleep(u32),
    Forever,
    AwaitTask,
    AwaitEvent,
    Signal,
    Spawn(u32),
    SpawnMethod(u32, u32),
    Group(Group),
    Arm(u32),
    Branch(u32),
    Return,
    ArmEnd,
    DeferEnd,
}

/// An operation, sorted.
#[derive(Clone, Copy)]
pub enum Sorted {
    Push(PushOp),
    Number(NumberOp),
    Composite(CompositeOp),
    Store(StoreOp),
    Control(ControlOp),
    Task(TaskOp),
}

/// Sorts an operation.
pub fn sort(op: Op) -> Sorted
    ensures { op_of result ≡ op }
{
    match op {
        Op::Int(value) => Sorted::Push(PushOp::Int(value)),
        Op::Unit => Sorted::Push(PushOp::Unit),
        Op::False => Sorted::Push(PushOp::False),
        Op::True => Sorted::Push(PushOp::True),
        Op::Char(byte) => Sorted::Push(PushOp::Char(byte)),
        Op::Text(index) => Sorted::Push(PushOp::Text(index)),
        Op::Enum(item, value) => Sorted::Push(PushOp::Enum(item, value)),
        Op::Get(local) => Sorted::Push(PushOp::Get(local)),
        Op::Put(local) => Sorted::Push(PushOp::Put(local)),
        Op::Drop => Sorted::Push(PushOp::Drop),
        Op::Add(place) => Sorted::Number(NumberOp::Add(place)),
        Op::Sub(place) => Sorted::Number(NumberOp::Sub(place)),
        Op::Mul(place) => Sorted::Number(NumberOp::Mul(place)),
        Op::Neg(place) => Sorted::Number(NumberOp::Neg(place)),
        Op::Floor(place) => Sorted::Number(NumberOp::Floor(place)),
        Op::Ceil(place) => Sorted::Number(NumberOp::Ceil(place)),
        Op::Mod => Sorted::Number(NumberOp::Mod),
        Op::Concat(place) => Sorted::Composite(CompositeOp::Concat(place)),
        Op::Join(count, place) => Sorted::Composite(CompositeOp::Join(count, place)),
        Op::Lt => Sorted::Number(NumberOp::Lt),
        Op::Le => Sorted::Number(NumberOp::Le),
        Op::Gt => Sorted::Number(NumberOp::Gt),
        Op::Ge => Sorted::Number(NumberOp::Ge),
        Op::Eq => Sorted::Composite(CompositeOp::Eq),
        Op::Ne => Sorted::Composite(CompositeOp::Ne),
        Op::Array(count, place) => Sorted::Composite(CompositeOp::Array(count, place)),
        Op::Map(count, place) => Sorted::Composite(CompositeOp::Map(count, place)),
        Op::Tuple(count, place) => Sorted::Composite(CompositeOp::Tuple(count, place)),
        Op::Some(place) => Sorted::Composite(CompositeOp::Some(place)),
        Op::Query => Sorted::Composite(CompositeOp::Query),
        Op::Item(index) => Sorted::Composite(CompositeOp::Item(index)),
        Op::At => Sorted::Composite(CompositeOp::At),
        Op::Length => Sorted::Composite(CompositeOp::Length),
        Op::New(place) => Sorted::Store(StoreOp::New(place)),
        Op::Load(slot) => Sorted::Store(StoreOp::Load(slot)),
        Op::Store {
            slot,
            indices,
            mode,
            place,
        } => Sorted::Store(StoreOp::Write(Target {
            slot,
            indices,
            mode,
            place,
        })),
        Op::Object(class, place) => Sorted::Store(StoreOp::Object(class, place)),
        Op::Event(place) => Sorted::Store(StoreOp::Event(place)),
        Op::Jump(label) => Sorted::Control(ControlOp::Jump(label)),
        Op::Same(label) => Sorted::Control(ControlOp::Same(label)),
        Op::Again(label) => Sorted::Control(ControlOp::Again(label)),
        Op::Try(label) => Sorted::Store(StoreOp::Try(label)),
        Op::Commit => Sorted::Store(StoreOp::Commit),
        Op::Undo => Sorted::Store(StoreOp::Undo),
        Op::Fail => Sorted::Store(StoreOp::Fail),
        Op::Call(func) => Sorted::Control(ControlOp::Call(func)),
        Op::Method(method, count) => Sorted::Control(ControlOp::Method(method, count)),
        Op::Return => Sorted::Task(TaskOp::Return),
        Op::Each(local) => Sorted::Control(ControlOp::Each(local)),
        Op::Range(local) => Sorted::Control(ControlOp::Range(local)),
        Op::Take {
            domain,
            value,
            label,
        } => Sorted::Control(ControlOp::Take(Turn {
            domain,
            value,
            label,
        })),
        Op::Append(local, place) => Sorted::Composite(CompositeOp::Append(local, place)),
        Op::Print(place) => Sorted::Store(StoreOp::Print(place)),
        Op::Sleep(duration) => Sorted::Task(TaskOp::Sleep(duration)),
        Op::Forever => Sorted::Task(TaskOp::Forever),
        Op::AwaitTask => Sorted::Task(TaskOp::AwaitTask),
        Op::AwaitEvent => Sorted::Task(TaskOp::AwaitEvent),
        Op::Signal => Sorted::Task(TaskOp::Signal),
        Op::Spawn(func) => Sorted::Task(TaskOp::Spawn(func)),
        Op::SpawnMethod(method, count) => Sorted::Task(TaskOp::SpawnMethod(method, count)),
        Op::Group { kind, arms, place } => Sorted::Task(TaskOp::Group(Group { kind, arms, place })),
        Op::Arm(label) => Sorted::Task(TaskOp::Arm(label)),
        Op::Branch(label) => Sorted::Task(TaskOp::Branch(label)),
        Op::ArmEnd => Sorted::Task(TaskOp::ArmEnd),
        Op::Defer(label) => Sorted::Control(ControlOp::Defer(label)),
        Op::Leave(count) => Sorted::Control(ControlOp::Leave(count)),
        Op::DeferEnd => Sorted::Task(TaskOp::DeferEnd),
    }
}
