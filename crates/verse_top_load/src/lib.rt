//! The generated load: its program's text, and the last line that is written of its run.
#![tactic(auto)]

ghost use Rattle.std.specs.Prelude.{◌≡◌, ◌++◌, ◌≤◌, IfOk, OnOk};
ghost use Rattle.verse_top_load.specs.Load.{call_line, each_from, function_text, head_line};
ghost use Rattle.verse_top_load.specs.Load.{lines_line, load_text_of, pause_line, three_digits};

use std::alloc::Global;
use verse_base::refusals::Memory;
use verse_base::texts::natural;

/// The lines of each function before that of its own pause.
const BEFORE_PAUSE: &[u8] = b"    var S:int = 0
    for (I := 1..4, set S += I, Mod[I, 2] = 0):
        Print(\"{S}\")
    race:
        Sleep(2.0)
";

/// The text of the load of this many functions, 2 to 1000.
pub fn load_text(alloc: Global, n: u32) -> Result<Vec<u8>, Memory>
    requires { n ≤ 1000 }
    ensures { IfOk result (λ text. text.items ≡ load_text_of n) }
{
    let mut out = Vec::new(alloc);
    push_functions(&mut out, n)?;
    out.extend_from_slice(b"Main()<suspends>:void =\n    sync:\n")?;
    push_calls(&mut out, n)?;
    Ok(out)
}

/// The line that tells how many lines the run of a load has, with its line feed.
pub fn lines_text(alloc: Global, lines: u64) -> Result<Vec<u8>, Memory>
    ensures { IfOk result (λ text. text.items ≡ lines_line lines) }
{
    let mut out = Vec::new(alloc);
    out.extend_from_slice(b"= lines ")?;
    natural(lines, &mut out)?;
    out.push(b'\n')?;
    Ok(out)
}

fn push_functions(out: &mut Vec<u8>, n: u32) -> Result<(), Memory>
    requires { n ≤ 1000 }
    ensures { OnOk result (out.new.items ≡ out.old.items ++ each_from function_text 1 n) }
{
    'functions: for i in 1..n + 1 {
        push_function(out, i)?;
    }
    Ok(())
}

fn push_function(out: &mut Vec<u8>, i: u32) -> Result<(), Memory>
    ensures { OnOk result (out.new.items ≡ out.old.items ++ function_text i) }
{
    push_head(out, i)?;
    out.extend_from_slice(BEFORE_PAUSE)?;
    push_pause(out, i)?;
    out.extend_from_slice(b"    Print(\"{S}\")\n")?;
    Ok(())
}

fn push_head(out: &mut Vec<u8>, i: u32) -> Result<(), Memory>
    ensures { OnOk result (out.new.items ≡ out.old.items ++ head_line i) }
{
    out.push(b'F')?;
    natural(u64::from(i), out)?;
    out.extend_from_slice(b"()<suspends>:void =\n")?;
    Ok(())
}

fn push_pause(out: &mut Vec<u8>, i: u32) -> Result<(), Memory>
    ensures { OnOk result (out.new.items ≡ out.old.items ++ pause_line i) }
{
    out.extend_from_slice(b"        Sleep(0.")?;
    push_three_digits(out, i % 1000)?;
    out.extend_from_slice(b")\n")?;
    Ok(())
}

fn push_three_digits(out: &mut Vec<u8>, n: u32) -> Result<(), Memory>
    requires { n ≤ 999 }
    ensures { OnOk result (out.new.items ≡ out.old.items ++ three_digits n) }
{
    out.push(b'0' + (n / 100) as u8)?;
    out.push(b'0' + (n / 10 % 10) as u8)?;
    out.push(b'0' + (n % 10) as u8)?;
    Ok(())
}

fn push_calls(out: &mut Vec<u8>, n: u32) -> Result<(), Memory>
    requires { n ≤ 1000 }
    ensures { OnOk result (out.new.items ≡ out.old.items ++ each_from call_line 1 n) }
{
    'calls: for i in 1..n + 1 {
        push_call(out, i)?;
    }
    Ok(())
}

fn push_call(out: &mut Vec<u8>, i: u32) -> Result<(), Memory>
    ensures { OnOk result (out.new.items ≡ out.old.items ++ call_line i) }
{
    out.extend_from_slice(b"        F")?;
    natural(u64::from(i), out)?;
    out.extend_from_slice(b"()\n")?;
    Ok(())
}
