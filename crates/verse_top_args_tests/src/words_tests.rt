//! Tests of the words of a command line.

ghost use Rattle.std.specs.Prelude.{ℤ, List, option_copied};
ghost use Rattle.verse_top_args.specs.Words.{Inputs};

use crate::fitting::are_a_command;
use std::alloc::{AllocError, Global};
use std::test::Fail;
use verse_base::refusals::Memory;
use verse_base::texts::decimal;
use verse_top_args::commands::{Request, Resuming, Running, find_request, words_say_once};

// the words, then a bar and what they ask for: the command and its files; of a run the steps, the
// horizon, whether the heap is written, and the ints of `--in`, or `-` where it is not given; of a
// saved run the horizon and whether the heap is written; `none` where they are no command. `''`
// stands for the empty word, `COUNT*` for a list of that many zeros.
const CASES: &str = "| none
run | none
run a.verse | run a.verse 10000000 1000000000000 - -
exec a.verse | exec a.verse 10000000 1000000000000 - -
exec | none
exec -x | none
exec a b | none
exec --heap a | none
exec a --heap b | none
exec a --steps 5 --in 1,-2 --heap --until 7 | exec a 5 7 heap 1,-2
exec a --steps 5 --steps 5 | none
save a.image | save a.image 10000000 1000000000000 - -
save a --until 7 --in 1,-2 --steps 5 | save a 5 7 - 1,-2
save a --heap | none
save a --steps 5 --heap | none
save a b | none
save | none
save -x | none
save a --until 7 --until 7 | none
save a --in 1,,2 | none
exec a --in 1,,2 | none
exec a --until 1000000000001 | none
check a.verse | check a.verse
build a.verse | build a.verse
build a b | build a,b
build | none
build a --heap | none
note a.verse | note a.verse
note a b | note a,b
note | none
note a --heap | none
--help | none
--version | none
run '' | none
run -x | none
run - | none
run -- a | none
run x- | run x- 10000000 1000000000000 - -
Run a | none
run a b | run a,b 10000000 1000000000000 - -
run --heap a | none
run a.verse --steps 1 --steps 2 | none
run a.verse --until 1 --until 1 | none
run a.verse --in 1 --in 1 | none
run a.verse --heap --heap | none
run a --steps 1 --until 2 --steps 3 | none
run a --steps 0 | run a 0 1000000000000 - -
run a --steps 00 | none
run a --steps 01 | none
run a --steps +1 | none
run a --steps -1 | none
run a --steps -0 | none
run a --steps 1_000 | none
run a --steps 0x1 | none
run a --steps '' | none
run a --steps | none
run a --steps 100000000 | run a 100000000 1000000000000 - -
run a --steps 100000001 | none
run a --steps 18446744073709551616 | none
run a --steps 99999999999999999999999999999999 | none
run a --until 0 | run a 10000000 0 - -
run a --until 1000000000000 | run a 10000000 1000000000000 - -
run a --until 1000000000001 | none
run a --until 012 | none
run a --until | none
run a --heap | run a 10000000 1000000000000 heap -
run a --heap 1 | none
run a --heap --steps 7 --in 3 --until 9 | run a 7 9 heap 3
run a --in 1,2,3 --heap | run a 10000000 1000000000000 heap 1,2,3
run a --in -5,0,5 | run a 10000000 1000000000000 - -5,0,5
run a --in 9223372036854775807,-9223372036854775808 | run a 10000000 1000000000000 - 9223372036854775807,-9223372036854775808
run a --in 9223372036854775808 | none
run a --in -9223372036854775809 | none
run a --in 1,,2 | none
run a --in ,1 | none
run a --in 1, | none
run a --in , | none
run a --in '' | none
run a --in -0 | none
run a --in 00 | none
run a --in 1,-01 | none
run a --in --1 | none
run a --in - | none
run a --in +1 | none
run a --in 1.5 | none
run a --in | none
run a --in --heap | none
run a --in 1000* | run a 10000000 1000000000000 - 1000*
run a --in 1001* | none
run --steps --steps 5 | none
run a --step 5 | none
run a --steps=5 | none
run a '' | none
check a b | check a,b
check | none
check -x | none
check a --heap | none
run a b --heap | run a,b 10000000 1000000000000 heap -
run a --heap b | none
run a b --steps 5 c | none
check a '' | none
run a b c d e f g h i j k l m n o p | run a,b,c,d,e,f,g,h,i,j,k,l,m,n,o,p 10000000 1000000000000 - -
run a b c d e f g h i j k l m n o p q | none
check a b c d e f g h i j k l m n o p | check a,b,c,d,e,f,g,h,i,j,k,l,m,n,o,p
check a b c d e f g h i j k l m n o p q | none
Check a | none
list a.image | list a.image
list | none
list -x | none
list '' | none
list a b | none
list a --heap | none
List a | none
assemble a.txt | assemble a.txt
assemble | none
assemble a b | none
assemble a --steps 5 | none
verify a.image a.notes | verify a.image,a.notes
verify | none
verify a | none
verify a b c | none
verify a b --heap | none
verify a -x | none
load 2 | load 2
load 5 | load 5
load 1000 | load 1000
load | none
load 1 | none
load 0 | none
load 1001 | none
load 02 | none
load +2 | none
load -2 | none
load 2 2 | none
load a | none
load 2 --heap | none
resume a | resume a 1000000000000 -
resume a --until 7 | resume a 7 -
resume a --heap --until 0 | resume a 0 heap
resume a --until 1000000000000 --heap | resume a 1000000000000 heap
resume a --until 1000000000001 | none
resume a --until 07 | none
resume a --heap --heap | none
resume a --until 1 --until 1 | none
resume a --steps 5 | none
resume a --in 1 | none
resume a --until 7 --steps 5 | none
resume a --in 1 --heap | none
resume a b | none
resume --heap a | none
resume -x | none
resume | none
Resume a | none";

fn zeros(alloc: Global, count: u64) -> Result<String, AllocError> {
    let mut text = String::from_str(alloc, "0")?;
    for _turn in 1..count {
        text.push_str(",0")?;
    }
    Ok(text)
}

fn plain(alloc: Global, word: &str) -> Result<String, AllocError> {
    if word == "''" {
        return Ok(String::new(alloc));
    }
    if let Some(count) = word.strip_suffix('*')
        && let Ok(count) = count.parse::<u64>()
    {
        return zeros(alloc, count);
    }
    String::from_str(alloc, word)
}

fn words_of(alloc: Global, text: &str) -> Result<Vec<String>, AllocError> {
    let mut words = Vec::new(alloc);
    for word in text.split_whitespace() {
        words.push(plain(alloc, word)?)?;
    }
    Ok(words)
}

// with this between two of them
fn joined(alloc: Global, words: &[String], between: &str) -> Result<String, AllocError> {
    let mut text = String::new(alloc);
    for word in words {
        if !text.is_empty() {
            text.push_str(between)?;
        }
        text.push_str(word.as_str())?;
    }
    Ok(text)
}

// the ints with commas between them
fn listed(alloc: Global, ints: &[i64]) -> Result<Vec<u8>, Memory> {
    let mut text = Vec::new(alloc);
    for int in ints {
        if !text.is_empty() {
            text.push(b',')?;
        }
        decimal(*int, &mut text)?;
    }
    Ok(text)
}

fn heap_of(is_written: bool) -> &'static str {
    if is_written { "heap" } else { "-" }
}

// what `Main` is given
fn inputs_of(alloc: Global, running: Running<'_>) -> Result<String, Fail>
    requires { (ns : List ℤ) × Inputs (option_copied running.inputs) ns }
{
    if running.inputs.is_none() {
        return Ok(String::from_str(alloc, "-")?);
    }
    let ints = running.ints(alloc).map_err(|_| "memory")?;
    let text = listed(alloc, &ints).map_err(|_| "memory")?;
    Ok(String::from_utf8(text).map_err(|_| "a text")?)
}

fn run_told(alloc: Global, command: &str, running: Running<'_>) -> Result<String, Fail>
    requires { (ns : List ℤ) × Inputs (option_copied running.inputs) ns }
{
    let files = joined(alloc, running.files, ",")?;
    let inputs = inputs_of(alloc, running)?;
    let heap = heap_of(running.heap);
    let Running { steps, until, .. } = running;
    Ok(format!(in alloc; "{command} {files} {steps} {until} {heap} {inputs}")?)
}

fn resume_told(alloc: Global, resuming: Resuming<'_>) -> Result<String, Fail> {
    let files = joined(alloc, resuming.files, ",")?;
    let heap = heap_of(resuming.heap);
    let until = resuming.until;
    Ok(format!(in alloc; "resume {files} {until} {heap}")?)
}

fn files_told(alloc: Global, command: &str, files: &[String]) -> Result<String, Fail> {
    let files = joined(alloc, files, ",")?;
    Ok(format!(in alloc; "{command} {files}")?)
}

fn request_told(alloc: Global, words: &[String]) -> Result<String, Fail> {
    let Some(request) = find_request(words) else {
        return Ok(String::from_str(alloc, "none")?);
    };
    match request {
        Request::Run(running) => run_told(alloc, "run", running),
        Request::Exec(running) => run_told(alloc, "exec", running),
        Request::Save(running) => run_told(alloc, "save", running),
        Request::Resume(resuming) => resume_told(alloc, resuming),
        Request::Check(files) => files_told(alloc, "check", files),
        Request::Build(files) => files_told(alloc, "build", files),
        Request::Note(files) => files_told(alloc, "note", files),
        Request::List(files) => files_told(alloc, "list", files),
        Request::Assemble(files) => files_told(alloc, "assemble", files),
        Request::Verify(files) => files_told(alloc, "verify", files),
        Request::Load(functions) => Ok(format!(in alloc; "load {functions}")?),
    }
}

#[test]
fn words_are_read(rt: HostRuntime) -> Result<(), Fail> {
    let alloc = rt.alloc();
    let mut count = 0u64;
    for line in CASES.lines() {
        let (text, expected) = line.split_once('|').ok_or("words and an answer")?;
        let words = words_of(alloc, text)?;
        let expected = joined(alloc, &words_of(alloc, expected)?, " ")?;
        let told = request_told(alloc, &words)?;
        assert_eq!(rt; told.as_str(), expected.as_str(), "{line}");
        assert_eq!(rt;
            are_a_command(&words),
            expected.as_str() != "none",
            "{line}"
        );
        count = count.saturating_add(1);
    }
    assert_eq!(rt; count, 153);
    words_say_once();
    Ok(())
}
