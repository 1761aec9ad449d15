//! The rule that an operation breaks with its operands.

ghost use Rattle.std.specs.Prelude.{◌≡◌};
ghost use Rattle.verse_verify_operands.specs.Finds.{broken};

use verse_code::operations::Op;
use verse_verify_calls::{functions, methods};
use verse_verify_cells::cells;
use verse_verify_flow::{jumps, locals, loops, taking, tries};
use verse_verify_notes::sorts::Sort;
use verse_verify_parts::heres::Here;
use verse_verify_tasks::{blocks, groups, waits};
use verse_verify_values::{containers, numbers, pushing};

/// The least of V4 to V9 that an operation breaks with these operands. None where it breaks none.
pub fn rule_of(here: &Here, op: Op, st: &[Sort]) -> Option<u8>
    ensures { result ≡ broken here.now op st.now }
{
    match op {
        Op::Int(number) => pushing::push_int(here, number, st),
        Op::Unit => pushing::push_unit(here, st),
        Op::False => pushing::push_false(here, st),
        Op::True => pushing::push_true(here, st),
        Op::Char(code) => pushing::push_char(here, code, st),
        Op::Text(text) => pushing::push_text(here, text, st),
        Op::Enum(number, value) => pushing::push_enum(here, number, value, st),
        Op::Get(local) => locals::get_rule(here, local, st),
        Op::Put(local) => locals::put_rule(here, local, st),
        Op::Drop => pushing::drop_top(here, st),
        Op::Add(_) => numbers::counts(here, st),
        Op::Sub(_) => numbers::counts(here, st),
        Op::Mul(_) => numbers::counts(here, st),
        Op::Neg(place) => numbers::negates(here, place, st),
        Op::Floor(_) => numbers::counts(here, st),
        Op::Ceil(_) => numbers::counts(here, st),
        Op::Mod => numbers::counts(here, st),
        Op::Concat(place) => containers::concat(here, place, st),
        Op::Join(count, place) => containers::join(here, count, place, st),
        Op::Lt => numbers::counts(here, st),
        Op::Le => numbers::counts(here, st),
        Op::Gt => numbers::counts(here, st),
        Op::Ge => numbers::counts(here, st),
        Op::Eq => numbers::compares(here, st),
        Op::Ne => numbers::compares(here, st),
        Op::Array(count, place) => containers::array(here, count, place, st),
        Op::Map(count, place) => containers::map(here, count, place, st),
        Op::Tuple(count, place) => containers::tuple(here, count, place, st),
        Op::Some(place) => containers::option(here, place, st),
        Op::Query => containers::query(here, st),
        Op::Item(number) => containers::item(here, number, st),
        Op::At => containers::at(here, st),
        Op::Length => containers::length(here, st),
        Op::New(place) => cells::variable(here, place, st),
        Op::Load(slot) => cells::load(here, slot, st),
        Op::Store {
            slot,
            indices,
            mode,
            place,
        } => cells::store(here, slot, indices, mode, place, st),
        Op::Object(class, place) => cells::object(here, class, place, st),
        Op::Event(place) => cells::event(here, place, st),
        Op::Jump(label) => jumps::jump_rule(here, label, st),
        Op::Same(label) => jumps::same_rule(here, label, st),
        Op::Again(label) => jumps::again_rule(here, label, st),
        Op::Try(label) => tries::try_rule(here, label, st),
        Op::Commit => tries::commit_rule(here, st),
        Op::Undo => tries::undo_rule(here, st),
        Op::Fail => tries::fail_rule(here, st),
        Op::Call(func) => functions::call_rule(here, func, st),
        Op::Method(method, count) => methods::method_rule(here, method, count, st),
        Op::Return => functions::return_rule(here, st),
        Op::Each(local) => loops::each_rule(here, local, st),
        Op::Range(local) => loops::range_rule(here, local, st),
        Op::Take {
            domain,
            value,
            label,
        } => taking::take_rule(here, domain, value, label, st),
        Op::Append(local, place) => locals::append_rule(here, local, place, st),
        Op::Print(place) => containers::print(here, place, st),
        Op::Sleep(pause) => waits::sleep(here, pause, st),
        Op::Forever => waits::forever(here, st),
        Op::AwaitTask => waits::await_task(here, st),
        Op::AwaitEvent => waits::await_event(here, st),
        Op::Signal => waits::signal(here, st),
        Op::Spawn(func) => functions::spawn_rule(here, func, st),
        Op::SpawnMethod(method, count) => methods::spawn_method_rule(here, method, count, st),
        Op::Group { kind, arms, place } => groups::group(here, kind, arms, place, st),
        Op::Arm(label) => groups::arm(here, label, st),
        Op::Branch(label) => groups::branch(here, label, st),
        Op::ArmEnd => groups::arm_end(here, st),
        Op::Defer(label) => blocks::defer(here, label, st),
        Op::Leave(count) => blocks::leave(here, count, st),
        Op::DeferEnd => blocks::defer_end(here, st),
    }
}
