//! What a loop takes values from: an array or a map with a place in it, or two ends.

ghost use Rattle.std.specs.Prelude.{◌≡◌, ◌<◌, suc};
ghost use Rattle.verse_code.specs.declared.codes.Code.{Code};
ghost use Rattle.verse_code.specs.declared.operations.Op.TheVariants as op;
ghost use Rattle.verse_value.specs.View.{val_of};
ghost use Rattle.vm_frames.specs.Framed.{place_of};
ghost use Rattle.vm_running.specs.Views.{Ready};
ghost use Rattle.vm_running.specs.Runners.{view_of};
ghost use Rattle.vm_running.specs.Doings.{acts, putting, goes_on};
ghost use Rattle.vm_running.specs.Comes.{Comes};
ghost use Rattle.vm_exec_loops.specs.Domains.{is_domain, is_int};

use tx_heap::heaps::Heap;
use verse_value::runs::Ending;
use verse_value::values::Value;
use vm_running::moves::go_on;
use vm_running::operands::pop_two;
use vm_running::runners::{Did, Runner};

/// Pops an array or a map into the local, and puts 0 into the next. Takes no memory.
pub fn each<H: Heap>(run: &mut Runner<H>, local: u32) -> Did
    requires ready { Ready (view_of H.state run.old) }
    requires inner { place_of run.old.thread < 4294967295 }
    ensures { (c : Code) → Comes (acts c (op.Each local)) result (view_of H.state run.old)
        (view_of H.state run.new) }
{
    let Some(domain) = run.thread.pop() else {
        return Did::Over(Ending::Stuck);
    };
    if !is_domain(&domain) {
        return Did::Over(Ending::Stuck);
    }
    put_both(run, local, domain, Value::Int(0))
}

/// Pops a high end into the next local and a low end into the local. Takes no memory.
pub fn range<H: Heap>(run: &mut Runner<H>, local: u32) -> Did
    requires ready { Ready (view_of H.state run.old) }
    requires inner { place_of run.old.thread < 4294967295 }
    ensures { (c : Code) → Comes (acts c (op.Range local)) result (view_of H.state run.old)
        (view_of H.state run.new) }
{
    let Some((low, high)) = pop_two(&mut run.thread) else {
        return Did::Over(Ending::Stuck);
    };
    if !is_int(&low) {
        return Did::Over(Ending::Stuck);
    }
    if !is_int(&high) {
        return Did::Over(Ending::Stuck);
    }
    put_both(run, local, low, high)
}

// Puts two values into the local and the next, and goes on.
fn put_both<H: Heap>(run: &mut Runner<H>, local: u32, first: Value, second: Value) -> Did
    requires ready { Ready (view_of H.state run.old) }
    requires inner { place_of run.old.thread < 4294967295 }
    ensures { Comes (putting local (val_of first) (putting (suc local) (val_of second) goes_on))
        result (view_of H.state run.old) (view_of H.state run.new) }
{
    let local = local as usize;
    if !run.thread.has_local(local) {
        return Did::Over(Ending::Stuck);
    }
    let _ = run.thread.put_local(local, first);
    let next = local + 1;
    if !run.thread.has_local(next) {
        return Did::Over(Ending::Stuck);
    }
    let _ = run.thread.put_local(next, second);
    go_on(run)
}

// Whether a value is an array or a map.
fn is_domain(value: &Value) -> bool
    ensures { result ≡ is_domain (val_of value.now) }
{
    match value {
        Value::Array(_) | Value::Map(_) => true,
        _ => false,
    }
}

fn is_int(value: &Value) -> bool
    ensures { result ≡ is_int (val_of value.now) }
{
    match value {
        Value::Int(_) => true,
        _ => false,
    }
}
