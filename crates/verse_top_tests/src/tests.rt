//! Tests of `run`, `check`, `build` and `load`, and of the faults of `exec`, `list` and `assemble`.

use crate::calls::{answer, lines, words, written};
use crate::telling::told;
use std::alloc::Global;
use std::test::Fail;
use verse_base::places::Place;
use verse_base::refusals::Kind;
use verse_base::texts::natural;
use verse_outside::memory_files::MemFiles;
use verse_outside::memory_sinks::MemSink;
use verse_top::answers::{answered_once, exec_runs_what_is_built};
use verse_top::ending_text;
use verse_value::runs::Ending;

// the status, the words, the files as `NAME=TEXT` with bars between them, and what is written; `~`
// is a line feed, `^` a tab and `$` the byte FF
const ROWS: &str =
    "0`run a.verse`a.verse=Main():void =~    Print(\"hi\")~`0 hi~= done at 0 steps 1 live 0~
0`run a.verse`a.verse=Main():void =~    Print(\"hi\")`0 hi~= done at 0 steps 1 live 0~
0`run a.verse`a.verse=Main():void = {}`= done at 0 steps 1 live 0~
0`run a.verse`a.verse=Main():void = { Print(\"a\"); Print(\"b\") }`0 a~0 b~= done at 0 steps 1 live 0~
0`run a.verse`a.verse=Main():void = {~  Print(\"a\")~  Print(\"b\")~}~`0 a~0 b~= done at 0 steps 1 live 0~
0`run a.verse`a.verse=<# c #> Main ( ) : void = # c~~  Print ( \"a\\{b\" ) ~`0 a{b~= done at 0 steps 1 live 0~
0`run a.verse`a.verse=Main():void =~    Print(\"a\\n\\\\\")~`0 a\\n\\\\~= done at 0 steps 1 live 0~
0`run a.verse --in 1,-2 --heap --until 0 --steps 1`a.verse=Main():void =~    Print(\"hi\")~    Print(\"\")`0 hi~0 ~= done at 0 steps 1 live 0~
3`run a.verse --steps 0`a.verse=Main():void =~    Print(\"hi\")~`= steps at 0 steps 0~
6`run x`a.verse=Main():void =~    Print(\"hi\")~`= read x~
1`run a.verse`a.verse=$`1:1 E001 not UTF-8~
1`run a.verse`a.verse=Main():void = @`1:15 E010 unexpected character~
1`run a.verse`a.verse=Main():void = Print(\"a`1:21 E011 text not closed~
1`run a.verse`a.verse=Main():void =~    Print(\"a{b\")`2:11 E011 text not closed~
1`run a.verse`a.verse=<# a`1:1 E012 comment not closed~
1`run a.verse`a.verse=Main():void =~    Print(\"\\q\")`2:12 E013 unknown escape~
1`run a.verse`a.verse=Main():void =~    X := 9223372036854775808`2:10 E014 integer too large~
1`run a.verse`a.verse=Main()<suspends>:void =~    Sleep(0.0005)`2:11 E015 duration out of range~
1`run a.verse`a.verse=Main():void = 'ab'`1:15 E016 bad character literal~
1`run a.verse`a.verse=Main():void =~    Print(\"a\")~^Print(\"b\")`3:2 E020 bad indentation~
1`run a.verse`a.verse=Main():void =`1:14 E020 bad indentation~
1`run a.verse`a.verse=Main():void = (1`1:15 E021 bracket not matched~
1`run a.verse`a.verse=Main():void = 1 2`1:17 E030 unexpected token~
1`run a.verse`a.verse=Main():void`1:12 E030 unexpected token~
1`run a.verse`a.verse=f := interface {}`1:6 E069 not part of this profile~
1`run a.verse`a.verse=Main()<suspends>:void =~    race:~        defer:~            Print(\"a\")`3:9 E030 unexpected token~
1`run a.verse`a.verse=`1:1 E043 no Main~
1`run a.verse`a.verse=F():void = {}`1:1 E043 no Main~
1`run a.verse`a.verse=Main():void = {}~Main():void = {}`1:1 E040 name already defined~
0`run a.verse`a.verse=Main():void = 1`= done at 0 steps 1 live 0~
1`run a.verse`a.verse=Main(X:int):void = {}`1:1 E044 Main has the wrong shape~
1`run a.verse`a.verse=Main(X:c):void = {}`1:8 E041 unknown name~
1`run a.verse`a.verse=Main():void =~    Log(\"a\")`2:5 E041 unknown name~
1`run a.verse`a.verse=a := class(b) {}; b := class(a) {}; Main():void = {}`1:1 E042 class inherits from itself~
1`run a.verse`a.verse=a := class { F():int = 1 }; b := class(a) { F():int = 2 }; Main():void = {}`1:45 E045 override does not fit~
1`run a.verse`a.verse=Main():void = { X := 1; X := 2 }`1:25 E040 name already defined~
1`check a.verse`a.verse=Main():void =~    if (X := 1) {}~    X`3:5 E041 unknown name~
1`run a.verse b.verse`a.verse=Main():void = G()|b.verse=G():void = H()`b.verse:1:12 E041 unknown name~
1`run a.verse`a.verse=Main():void =~    Print(\"a\", \"b\")`2:10 E052 wrong number of arguments~
0`run a.verse`a.verse=Main():void =~    Print(\"a{1}\")`0 a1~= done at 0 steps 1 live 0~
1`check a.verse`a.verse=Main():void = { X:int = \"a\" }`1:25 E050 types do not match~
1`check a.verse`a.verse=Main():void = { X := 1; X() }`1:26 E051 cannot be called~
1`check a.verse`a.verse=F(X:int):void = {}; Main():void = F()`1:36 E052 wrong number of arguments~
1`check a.verse`a.verse=c := class {}; Main():void = { X := c{}; if (X = X) {} }`1:48 E053 cannot be compared~
1`check a.verse`a.verse=Main():void = { X := 1; set X = 2 }`1:25 E054 cannot be set~
1`check a.verse`a.verse=c := class { N:int }; Main():void = { X := c{} }`1:44 E055 field without a value~
1`check a.verse`a.verse=c := class {}; Main():void = { X := c{}; Y := X.N }`1:48 E056 no such member~
1`check a.verse`a.verse=Main()<suspends>:void = sync { Sleep(1.0) }`1:25 E057 needs two expressions~
1`check a.verse`a.verse=Main():void = case (1) { 1 => 2 }`1:15 E058 case not covered~
1`check a.verse`a.verse=Main():void = { X := 1/2 }`1:23 E059 quotient outside Floor or Ceil~
1`check a.verse`a.verse=Main():void = { A := array{1}; X := A[0] }`1:38 E060 can fail outside a failure context~
1`check a.verse`a.verse=G():int = 1; Main():void = { if (G() = 1) {} }`1:35 E061 cannot be undone here~
1`check a.verse`a.verse=Main():void = Sleep(1.0)`1:15 E062 suspends outside an async context~
1`check a.verse`a.verse=Main()<suspends>:void = { if (Sleep(1.0)) {} }`1:31 E063 suspends in a failure context~
1`check a.verse`a.verse=F()<decides>:int = 1; Main():void = {}`1:1 E064 specifiers do not fit~
1`check a.verse`a.verse=F()<computes>:void = { var X:int = 1 }; Main():void = {}`1:24 E065 effect not allowed in computes~
1`check a.verse`a.verse=Main():void = { if (return) {} }`1:21 E066 leaves a failure context or an arm~
1`check a.verse`a.verse=F()<transacts><decides>:void = {}; Main():void = { if (F()) {} }`1:57 E067 wrong kind of brackets~
1`check a.verse`a.verse=Main()<suspends>:void = { loop { branch { Sleep(1.0) } } }`1:34 E068 rush or branch in a loop~
1`check a.verse`a.verse=Main():void = { X:[][][][][][][][][][][][][][][][][][][][][][][][][][][][][][][][]int = array{} }`1:17 E070 type nested too deeply~
1`run a.verse`a.verse=Main():void =~    A := array{1}~    X := A[0]`3:11 E060 can fail outside a failure context~
1`run a.verse`a.verse=Main()<suspends>:void =~    if (Sleep(1.0)) {}`2:9 E063 suspends in a failure context~
1`run a.verse`a.verse=G():int = 1~Main():void =~    for (I := 1..2, G() = 1) {}`3:22 E061 cannot be undone here~
1`check a.verse`a.verse=Main():void =~    var X:int = \"a\"`2:17 E050 types do not match~
1`check a.verse`a.verse=c := class:~    N:int~Main():void =~    X := c{}`4:10 E055 field without a value~
1`check a.verse`a.verse=Main()<suspends>:void =~    sync:~        Sleep(1.0)`2:5 E057 needs two expressions~
1`check a.verse`a.verse=F()<computes>:void =~    var X:int = 1~Main():void = {}`2:5 E065 effect not allowed in computes~
1`check a.verse`a.verse=Main()<suspends>:void =~    loop:~        branch:~            Sleep(1.0)`3:9 E068 rush or branch in a loop~
1`check a.verse`a.verse=Main():void = { X := 1; set X = \"a\" }`1:25 E050 types do not match~
1`check a.verse`a.verse=Main():void = { X := 1 + \"a\"; Y }`1:31 E041 unknown name~
1`check a.verse b.verse`a.verse=Main():void = {}|b.verse=G():int = \"a\"`b.verse:1:11 E050 types do not match~
1`check a.verse`a.verse=c := class { F()<transacts><decides>:int = 1 }; Main():void = { X := c{}; X.F[] }`1:78 E060 can fail outside a failure context~
1`check a.verse`a.verse=c := class { F():int = 1 }; Main():void = { X := c{}; if (X.F() = 1) {} }`1:62 E061 cannot be undone here~
2``a.verse=Main():void =~    Print(\"hi\")~`= words~
2`run`a.verse=Main():void =~    Print(\"hi\")~`= words~
2`run -x`a.verse=Main():void =~    Print(\"hi\")~`= words~
2`run a.verse --steps 1 --steps 2`a.verse=Main():void =~    Print(\"hi\")~`= words~
2`run a.verse --steps 01`a.verse=Main():void =~    Print(\"hi\")~`= words~
2`run a.verse --steps 100000001`a.verse=Main():void =~    Print(\"hi\")~`= words~
2`run a.verse --until 1000000000001`a.verse=Main():void =~    Print(\"hi\")~`= words~
2`run a.verse --in 1,,2`a.verse=Main():void =~    Print(\"hi\")~`= words~
2`run a.verse --in -0`a.verse=Main():void =~    Print(\"hi\")~`= words~
2`run a.verse --in 9223372036854775808`a.verse=Main():void =~    Print(\"hi\")~`= words~
0`check a.verse`a.verse=Main():void =~    Print(\"hi\")~`= ok~
0`check a.verse`a.verse=Main():void = 1`= ok~
1`check a.verse`a.verse=Main():void = 1 2`1:17 E030 unexpected token~
6`check x`a.verse=Main():void =~    Print(\"hi\")~`= read x~
6`build x`a.verse=Main():void =~    Print(\"hi\")~`= read x~
1`build a.verse`a.verse=Main():void = 1 2`1:17 E030 unexpected token~
2`build a.verse --heap`a.verse=Main():void =~    Print(\"hi\")~`= words~
6`note x`a.verse=Main():void =~    Print(\"hi\")~`= read x~
1`note a.verse`a.verse=Main():void = 1 2`1:17 E030 unexpected token~
2`note a.verse --heap`a.verse=Main():void =~    Print(\"hi\")~`= words~
6`exec x`a.verse=Main():void =~    Print(\"hi\")~`= read x~
1`exec a.verse`a.verse=Main():void =~    Print(\"hi\")~`= image I1 0~
1`exec a --heap`a=`= image I3 0~
2`exec a a`a=`= words~
2`exec a --heap --heap`a=`= words~
2`exec`a=`= words~
6`list x`a=`= read x~
1`list a`a=files 1~`= image I1 0~
2`list a b`a=`= words~
6`assemble x`a=`= read x~
1`assemble a`a=`= listing L1 1~
1`assemble a`a=files 1~ops 2~func 0 0 0 0~main 0~0 Unti~1 Return~`= listing L2 5~
1`assemble a`a=files 1~ops 2~func 0 0 0 0~main 0~0 Jump 0~1 Return~`= listing L3 5~
1`assemble a`a=files 1~ops 2~func 0 0 0 0~main 0~0 Unit~2 Return~`= listing L4 6~
1`assemble a`a=files 1~ops 2~func 0 0 0 0~main 0~0 Unit~`= listing L1 6~
1`assemble a`a=files 1~ops 2~func 0 0 0 0~main 0~0 Unit~1 Return`= listing L1 6~
1`assemble a`a=files 1~ops 2~func 0 0 0 0~main 0~0 Unit~1 Return~~`= listing L1 7~
1`assemble a`a=files 0~ops 2~`= listing L3 1~
0`load 2`a=`= done at 2 steps 19 live 0~= lines 6~
0`load 3`a=`= done at 3 steps 28 live 0~= lines 9~
2`load 1`a=`= words~
2`check a.verse --heap`a.verse=Main():void =~    Print(\"hi\")~`= words~
2`check`a.verse=Main():void =~    Print(\"hi\")~`= words~
0`check a b`a=|b=Main():void =~    Print(\"hi\")~`= ok~
0`run a b`a=|b=Main():void =~    Print(\"hi\")~`0 hi~= done at 0 steps 1 live 0~
0`run b a --heap`a=|b=Main():void =~    Print(\"hi\")~`0 hi~= done at 0 steps 1 live 0~
3`run a b --steps 0`a=|b=Main():void =~    Print(\"hi\")~`= steps at 0 steps 0~
1`run a b`a=Main():void =~    Print(\"hi\")~|b=Main():void =~    Print(\"hi\")~`a:1:1 E040 name already defined~
1`run a b`a=Main():void = 1 2|b=@`b:1:1 E010 unexpected character~
1`run a b`a=Main():void = (1|b=@`b:1:1 E010 unexpected character~
1`run a b`a=Main():void = 1 2|b=F():void =`b:1:11 E020 bad indentation~
1`run a b`a=F():void = 1 2|b=G():void = 1 2`a:1:14 E030 unexpected token~
1`run a b`a=Main():void = 1|b=G():void = 1 2`b:1:14 E030 unexpected token~
1`run a b`a=|b=Main():void =~    Log(\"a\")`b:2:5 E041 unknown name~
6`run a x b`a=@|b=Main():void =~    Print(\"hi\")~`= read x~
6`run x y`a=Main():void =~    Print(\"hi\")~`= read x~
1`run a a`a=@`a:1:1 E010 unexpected character~
2`run a b c d e f g h i j k l m n o p q`a=Main():void =~    Print(\"hi\")~`= words~";

fn files_of(alloc: Global, text: &str) -> Result<MemFiles, Fail> {
    let mut files = MemFiles::new(alloc);
    for file in text.split('|') {
        let (name, text) = file.split_once('=').ok_or("a name and a text")?;
        files.add(name, lines(alloc, text)?.as_slice())?;
    }
    Ok(files)
}

// whether the command of a row is answered as the row has it
fn is_told_so(alloc: Global, row: &str) -> Result<bool, Fail> {
    let (status, rest) = row.split_once('`').ok_or("a status")?;
    let (command, rest) = rest.split_once('`').ok_or("words")?;
    let (files, text) = rest.split_once('`').ok_or("files and a text")?;
    let mut files = files_of(alloc, files)?;
    let told = answer(alloc, command, &mut files)?;
    let expected = written(alloc, status, text)?;
    Ok(told.as_slice() == expected.as_slice())
}

#[test]
fn rows_are_told(rt: HostRuntime) -> Result<(), Fail> {
    let alloc = rt.alloc();
    answered_once();
    let mut count = 0u64;
    for row in ROWS.lines() {
        assert!(rt; is_told_so(alloc, row)?, "{row}");
        count = count.saturating_add(1);
    }
    assert_eq!(rt; count, 131);
    Ok(())
}

const HI: &str = "Main():void =~    Print(\"hi\")~";

#[test]
fn a_file_fails_to_load(rt: HostRuntime) -> Result<(), Fail> {
    let alloc = rt.alloc();
    let mut files = MemFiles::new(alloc);
    files.add("a.verse", lines(alloc, HI)?.as_slice())?;
    files.fail_at(1)?;
    let told = answer(alloc, "run a.verse", &mut files)?;
    assert_eq!(rt;
        told.as_slice(),
        b"0`0 hi\n= done at 0 steps 1 live 0\n".as_slice()
    );
    let told = answer(alloc, "run a.verse", &mut files)?;
    assert_eq!(rt; told.as_slice(), b"6`= read a.verse\n".as_slice());
    Ok(())
}

#[test]
fn a_write_fails(rt: HostRuntime) -> Result<(), Fail> {
    let alloc = rt.alloc();
    let mut files = MemFiles::new(alloc);
    files.add("a.verse", lines(alloc, HI)?.as_slice())?;
    let command = words(alloc, "run a.verse")?;
    let mut failing = MemSink::new(alloc, 1000, 1)?;
    failing.fail_at(2)?;
    let status = told(alloc, command.as_slice(), &mut files, &mut failing);
    assert!(rt; status == 7 && failing.taken() == b"0 ".as_slice());
    Ok(())
}

// a file that is too large decides before what stands behind it is loaded
#[test]
fn a_great_file_decides(rt: HostRuntime) -> Result<(), Fail> {
    let alloc = rt.alloc();
    let mut great = MemFiles::new(alloc);
    great.add("a", b"@".as_slice())?;
    great.add("b", vec![in alloc; b' '; 1048577]?.as_slice())?;
    let told = answer(alloc, "check a b x", &mut great)?;
    assert_eq!(rt;
        told.as_slice(),
        b"1`b:1:1 E002 file too large\n".as_slice()
    );
    Ok(())
}

/// A class of 4100 fields, and a `Main` that makes so many of it.
fn many_instances(alloc: Global, count: u64) -> Result<Vec<u8>, Fail> {
    let mut text = Vec::new(alloc);
    text.extend_from_slice(b"c := class:\n")?;
    for i in 0..4100u64 {
        text.extend_from_slice(b"    F")?;
        natural(i, &mut text)?;
        text.extend_from_slice(b":int = 0\n")?;
    }
    text.extend_from_slice(b"Main():void =\n")?;
    for _i in 0..count {
        text.extend_from_slice(b"    c{}\n")?;
    }
    Ok(text)
}

#[test]
fn great_programs_are_told(rt: HostRuntime) -> Result<(), Fail> {
    let alloc = rt.alloc();
    let mut files = MemFiles::new(alloc);
    files.add("a", many_instances(alloc, 1024)?.as_slice())?;
    files.add("b", many_instances(alloc, 1000)?.as_slice())?;
    let told = answer(alloc, "check a", &mut files)?;
    assert_eq!(rt;
        told.as_slice(),
        b"1`1:1 E098 program too large\n".as_slice()
    );
    let told = answer(alloc, "check b", &mut files)?;
    assert_eq!(rt; told.as_slice(), b"0`= ok\n".as_slice());
    Ok(())
}

const BUILT: &str =
    "a=Main(X:[]int):void =~    for (N : X, N > 1) { Tell(N) }~|b=Tell(N:int):void =~    var M:int = N~    Print(\"{M}\")~";

#[test]
fn what_is_built_runs(rt: HostRuntime) -> Result<(), Fail> {
    let alloc = rt.alloc();
    exec_runs_what_is_built();
    let mut files = files_of(alloc, BUILT)?;
    let built = answer(alloc, "build a b", &mut files)?;
    let image = built
        .as_slice()
        .strip_prefix(b"0`".as_slice())
        .ok_or("an image")?;
    files.add("image", image)?;
    let ran = answer(alloc, "run a b --in 1,2,3 --heap", &mut files)?;
    let executed = answer(alloc, "exec image --in 1,2,3 --heap", &mut files)?;
    assert_eq!(rt; executed.as_slice(), ran.as_slice());
    let text = "0 2~0 3~@0 var 2~@1 var 3~= done at 0 steps 6 live 0~";
    assert_eq!(rt; ran.as_slice(), written(alloc, "0", text)?.as_slice());
    Ok(())
}

/// The bytes that a command wrote, with the status 0.
fn bytes_of(alloc: Global, command: &str, files: &mut MemFiles) -> Result<Vec<u8>, Fail> {
    let told = answer(alloc, command, files)?;
    let bytes = told
        .as_slice()
        .strip_prefix(b"0`".as_slice())
        .ok_or("a status of 0")?;
    let mut kept = Vec::new(alloc);
    kept.extend_from_slice(bytes)?;
    Ok(kept)
}

// what never has a value among them
const NOTED: &str =
    "a=Main(X:[]int):void =~    for (N : X, N > 1) { Tell(N) }~    if (Y := false?) { Tell(Y.Length) }~|b=Tell(N:int):void =~    var M:int = N~    defer:~        Print(\"{M}\")~";

#[test]
fn what_is_noted_passes(rt: HostRuntime) -> Result<(), Fail> {
    let alloc = rt.alloc();
    let mut files = files_of(alloc, NOTED)?;
    let image = bytes_of(alloc, "build a b", &mut files)?;
    let notes = bytes_of(alloc, "note a b", &mut files)?;
    files.add("image", image.as_slice())?;
    files.add("notes", notes.as_slice())?;
    let told = answer(alloc, "verify image notes", &mut files)?;
    assert_eq!(rt; told.as_slice(), b"0`= ok\n".as_slice());
    Ok(())
}

#[test]
fn endings_are_told(rt: HostRuntime) -> Result<(), Fail> {
    let alloc = rt.alloc();
    let place = Place {
        file: 1,
        line: 3,
        col: 53,
    };
    let error = Ending::Error(Kind::Overflow, place);
    let mut text = Vec::new(alloc);
    text.extend_from_slice(ending_text(alloc, Ending::Done, 1, 20000, 17, 0)?.as_slice())?;
    text.extend_from_slice(ending_text(alloc, Ending::Waiting, 1, 0, 1, 1)?.as_slice())?;
    text.extend_from_slice(ending_text(alloc, Ending::Until, 1, 1000, 4, 1)?.as_slice())?;
    text.extend_from_slice(ending_text(alloc, Ending::Steps, 1, 0, 3, 0)?.as_slice())?;
    text.extend_from_slice(ending_text(alloc, error, 1, 0, 1, 0)?.as_slice())?;
    text.extend_from_slice(ending_text(alloc, error, 2, 0, 1, 0)?.as_slice())?;
    text.extend_from_slice(ending_text(alloc, Ending::Stuck, 1, 0, 1, 0)?.as_slice())?;
    let expected =
        "= done at 20000 steps 17 live 0~= waiting at 0 steps 1 live 1~= until at 1000 steps 4 live 1~= steps at 0 steps 3~= error K1 3:53 at 0 steps 1~= error K1 2:3:53 at 0 steps 1~= stuck at 0 steps 1~";
    assert_eq!(rt; text.as_slice(), lines(alloc, expected)?.as_slice());
    Ok(())
}
