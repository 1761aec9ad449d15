//! Files and their tokens, a line for each.

use std::alloc::{AllocError, Global};
use std::test::Fail;
use verse_base::refusals::Front;
use verse_lex::tokens::{Token, TokenKind};
use verse_lex::{lex, text_bytes};

// A file and its tokens: kind with value, span, place and, of the first of a line, the span of
// the line's indentation; or the rule that is broken, and where. In the file `^` is a line feed,
// `$` a carriage return, `%` a tab, `!` the byte FF and ` a byte-order mark.
const CASES: &str = r###"! ⇒ E001 1:1
Main():void = @ ⇒ E010 1:15
Main():void = Print("a ⇒ E011 1:21
<# a ⇒ E012 1:1
Main():void =^    Print("\q") ⇒ E013 2:12
Main():void =^    X := 9223372036854775808 ⇒ E014 2:10
Main()<suspends>:void =^    Sleep(0.0005) ⇒ E015 2:11
 ⇒ 
`a ⇒ Name 3-4 1:1 in 3-3
`^a ⇒ Name 4-5 2:1 in 4-4
`` ⇒ E010 1:1
a` ⇒ E010 1:2
aé ⇒ E010 1:2
`é ⇒ E010 1:1
é ⇒ E010 1:1
a! ⇒ E001 1:2
#é( ⇒ 
"é€" ⇒ Text=[195, 169, 226, 130, 172] 0-7 1:1 in 0-0
"a"b ⇒ Text=[97] 0-3 1:1 in 0-0; Name 3-4 1:4
a$^b ⇒ Name 0-1 1:1 in 0-0; Name 3-4 2:1 in 3-3
a$b ⇒ E010 1:2
#a$b ⇒ E010 1:3
#a$^b ⇒ Name 4-5 2:1 in 4-4
<#a$b#> ⇒ E010 1:4
<#a$^b#>a ⇒ Name 8-9 2:4 in 0-0
"a$b" ⇒ E010 1:3
"a$^b" ⇒ E011 1:1
"a{$b}" ⇒ E010 1:4
'$' ⇒ E016 1:1
1..4 ⇒ Int(1) 0-1 1:1 in 0-0; Mark(DotDot) 1-3 1:2; Int(4) 3-4 1:4
1.5 ⇒ Dec(1500) 0-3 1:1 in 0-0
1. ⇒ Int(1) 0-1 1:1 in 0-0; Mark(Dot) 1-2 1:2
1.a ⇒ Int(1) 0-1 1:1 in 0-0; Mark(Dot) 1-2 1:2; Name 2-3 1:3
0x ⇒ E010 1:2
0x1 ⇒ Int(1) 0-3 1:1 in 0-0
0x1g ⇒ E010 1:4
0xg ⇒ E010 1:2
0x1.5 ⇒ Int(1) 0-3 1:1 in 0-0; Mark(Dot) 3-4 1:4; Int(5) 4-5 1:5
0X1 ⇒ E010 1:2
007 ⇒ Int(7) 0-3 1:1 in 0-0
0 ⇒ Int(0) 0-1 1:1 in 0-0
9223372036854775807 ⇒ Int(9223372036854775807) 0-19 1:1 in 0-0
9223372036854775808 ⇒ E014 1:1
9223372036854775808a ⇒ E014 1:1
0x7fffffffffffffff ⇒ Int(9223372036854775807) 0-18 1:1 in 0-0
0xFFFFFFFFFFFFFFFF ⇒ E014 1:1
0x000000000000000000001aF ⇒ Int(431) 0-25 1:1 in 0-0
000000000000000000000001 ⇒ Int(1) 0-24 1:1 in 0-0
1.0005 ⇒ E015 1:1
1.0000 ⇒ E015 1:1
1.0000a ⇒ E015 1:1
1.050 ⇒ Dec(1050) 0-5 1:1 in 0-0
1000000.000 ⇒ Dec(1000000000) 0-11 1:1 in 0-0
1000000.001 ⇒ E015 1:1
1000001.0 ⇒ E015 1:1
99999999999999999999.0 ⇒ E015 1:1
00000000000000000000000000000.5 ⇒ Dec(500) 0-31 1:1 in 0-0
1a ⇒ E010 1:2
1_ ⇒ E010 1:2
1.5b ⇒ E010 1:4
1.5.5 ⇒ Dec(1500) 0-3 1:1 in 0-0; Mark(Dot) 3-4 1:4; Int(5) 4-5 1:5
1 a ⇒ Int(1) 0-1 1:1 in 0-0; Name 2-3 1:3
"\\\"\'\{\}\<\>\&\#\~\n\r\t" ⇒ Text=[92, 34, 39, 123, 125, 60, 62, 38, 35, 126, 10, 13, 9] 0-28 1:1 in 0-0
"\q" ⇒ E013 1:2
"\ ⇒ E013 1:2
"\^" ⇒ E013 1:2
'\q' ⇒ E013 1:2
'\ ⇒ E013 1:2
'{' ⇒ Char(123) 0-3 1:1 in 0-0
'}' ⇒ Char(125) 0-3 1:1 in 0-0
'"' ⇒ Char(34) 0-3 1:1 in 0-0
'#' ⇒ Char(35) 0-3 1:1 in 0-0
''' ⇒ E016 1:1
'\'' ⇒ Char(39) 0-4 1:1 in 0-0
'\\' ⇒ Char(92) 0-4 1:1 in 0-0
'\n' ⇒ Char(10) 0-4 1:1 in 0-0
'ab' ⇒ E016 1:1
'a ⇒ E016 1:1
'' ⇒ E016 1:1
' ⇒ E016 1:1
'é' ⇒ E016 1:1
'%' ⇒ E016 1:1
' ' ⇒ Char(32) 0-3 1:1 in 0-0
'~' ⇒ Char(126) 0-3 1:1 in 0-0
"}" ⇒ E010 1:2
"a}b" ⇒ E010 1:3
"" ⇒ Text=[] 0-2 1:1 in 0-0
"a ⇒ E011 1:1
"a^b" ⇒ E011 1:1
"a{b}c" ⇒ TextOpen=[97] 0-3 1:1 in 0-0; Name 3-4 1:4; TextClose=[99] 4-7 1:5
"{a}{b}" ⇒ TextOpen=[] 0-2 1:1 in 0-0; Name 2-3 1:3; TextMid=[] 3-5 1:4; Name 5-6 1:6; TextClose=[] 6-8 1:7
"{'}'}" ⇒ TextOpen=[] 0-2 1:1 in 0-0; Char(125) 2-5 1:3; TextClose=[] 5-7 1:6
"{'"'}{'\''}" ⇒ TextOpen=[] 0-2 1:1 in 0-0; Char(34) 2-5 1:3; TextMid=[] 5-7 1:6; Char(39) 7-11 1:8; TextClose=[] 11-13 1:12
"{a#}" ⇒ E011 1:1
"{a"b"}" ⇒ E011 1:1
"{a ⇒ E011 1:1
"{a^}" ⇒ E011 1:1
"{a{b}}" ⇒ E011 1:1
"{a<#b#>}" ⇒ E011 1:1
"{<#>}" ⇒ E011 1:1
"{@ ⇒ E010 1:3
"{'a}" ⇒ E016 1:3
"{''}" ⇒ E016 1:3
"{'^'}" ⇒ E016 1:3
"a{b}c ⇒ E011 1:1
"a{b}c^" ⇒ E011 1:1
"a{b}c}" ⇒ E010 1:7
"{a <> b}" ⇒ TextOpen=[] 0-2 1:1 in 0-0; Name 2-3 1:3; Mark(Differs) 4-6 1:5; Name 7-8 1:8; TextClose=[] 8-10 1:9
"# <# #> <#>" ⇒ Text=[35, 32, 60, 35, 32, 35, 62, 32, 60, 35, 62] 0-13 1:1 in 0-0
<# a <# b #> c #>d ⇒ Name 17-18 1:18 in 0-0
<# a <# b #> c ⇒ E012 1:1
<# <#> #> ⇒ E012 1:1
<# <#> #> #>a ⇒ Name 12-13 1:13 in 0-0
<#^#> a ⇒ Name 6-7 2:4 in 0-0
  <#^ #> a b ⇒ Name 9-10 2:5 in 0-2; Name 11-12 2:7
a <# ^ #> b^ c ⇒ Name 0-1 1:1 in 0-0; Name 10-11 2:5; Name 13-14 3:2 in 12-13
<#> ⇒ E010 1:1
<# # " ' #>a ⇒ Name 11-12 1:12 in 0-0
#> ⇒ 
< #a ⇒ Mark(Below) 0-1 1:1 in 0-0
   # a^  %b^^%c ⇒ Name 10-11 2:4 in 7-10; Name 14-15 4:2 in 13-14
a;b,c ⇒ Name 0-1 1:1 in 0-0; Mark(Semicolon) 1-2 1:2; Name 2-3 1:3; Mark(Comma) 3-4 1:4; Name 4-5 1:5
arrays array _x _ __ Array ⇒ Name 0-6 1:1 in 0-0; Word(Array) 7-12 1:8; Name 13-15 1:14; Word(Wild) 16-17 1:17; Name 18-20 1:19; Name 21-26 1:22
defer deferred do double await ⇒ Word(Defer) 0-5 1:1 in 0-0; Name 6-14 1:7; LeftOut 15-17 1:16; Name 18-24 1:19; LeftOut 25-30 1:26
Self self set Sleep sleep Inf int ⇒ Word(This) 0-4 1:1 in 0-0; Name 5-9 1:6; Word(Set) 10-13 1:11; Word(Sleep) 14-19 1:15; Name 20-25 1:21; Word(Inf) 26-29 1:27; Word(Int) 30-33 1:31
:= : => = <> <= >= < > += + -= -> - *= * / .. . , ; ( ) [ ] { } ? ⇒ Mark(Define) 0-2 1:1 in 0-0; Mark(Colon) 3-4 1:4; Mark(FatArrow) 5-7 1:6; Mark(Equals) 8-9 1:9; Mark(Differs) 10-12 1:11; Mark(AtMost) 13-15 1:14; Mark(AtLeast) 16-18 1:17; Mark(Below) 19-20 1:20; Mark(Above) 21-22 1:22; Mark(PlusEquals) 23-25 1:24; Mark(Plus) 26-27 1:27; Mark(MinusEquals) 28-30 1:29; Mark(Arrow) 31-33 1:32; Mark(Minus) 34-35 1:35; Mark(TimesEquals) 36-38 1:37; Mark(Times) 39-40 1:40; Mark(Slash) 41-42 1:42; Mark(DotDot) 43-45 1:44; Mark(Dot) 46-47 1:47; Mark(Comma) 48-49 1:49; Mark(Semicolon) 50-51 1:51; Mark(RoundOpen) 52-53 1:53; Mark(RoundClose) 54-55 1:55; Mark(SquareOpen) 56-57 1:57; Mark(SquareClose) 58-59 1:59; Mark(BraceOpen) 60-61 1:61; Mark(BraceClose) 62-63 1:63; Mark(Question) 64-65 1:65
:== ==> ->- ..... <=> <>= +=+ */ ⇒ Mark(Define) 0-2 1:1 in 0-0; Mark(Equals) 2-3 1:3; Mark(Equals) 4-5 1:5; Mark(FatArrow) 5-7 1:6; Mark(Arrow) 8-10 1:9; Mark(Minus) 10-11 1:11; Mark(DotDot) 12-14 1:13; Mark(DotDot) 14-16 1:15; Mark(Dot) 16-17 1:17; Mark(AtMost) 18-20 1:19; Mark(Above) 20-21 1:21; Mark(Differs) 22-24 1:23; Mark(Equals) 24-25 1:25; Mark(PlusEquals) 26-28 1:27; Mark(Plus) 28-29 1:29; Mark(Times) 30-31 1:31; Mark(Slash) 31-32 1:32
@ ⇒ E010 1:1
a~b ⇒ E010 1:2
a&b ⇒ E010 1:2
a\b ⇒ E010 1:2
a|b ⇒ E010 1:2
array and block branch break case char class ⇒ Word(Array) 0-5 1:1 in 0-0; Word(And) 6-9 1:7; Word(Block) 10-15 1:11; Word(Branch) 16-22 1:17; Word(Break) 23-28 1:24; Word(Case) 29-33 1:30; Word(Char) 34-38 1:35; Word(Class) 39-44 1:40
else enum event false for if int logic loop map not option or ⇒ Word(Else) 0-4 1:1 in 0-0; Word(Enum) 5-9 1:6; Word(Event) 10-15 1:11; Word(False) 16-21 1:17; Word(For) 22-25 1:23; Word(If) 26-28 1:27; Word(Int) 29-32 1:30; Word(Logic) 33-38 1:34; Word(Loop) 39-43 1:40; Word(Map) 44-47 1:45; Word(Not) 48-51 1:49; Word(Option) 52-58 1:53; Word(Or) 59-61 1:60
race return rush set spawn string sync task then true tuple using var void ⇒ Word(Race) 0-4 1:1 in 0-0; Word(Return) 5-11 1:6; Word(Rush) 12-16 1:13; Word(Set) 17-20 1:18; Word(Spawn) 21-26 1:22; Word(String) 27-33 1:28; Word(Sync) 34-38 1:35; Word(Task) 39-43 1:40; Word(Then) 44-48 1:45; Word(True) 49-53 1:50; Word(Tuple) 54-59 1:55; Word(Using) 60-65 1:61; Word(Var) 66-69 1:67; Word(Void) 70-74 1:71
allocates await char32 converges do float interface live module profile rational reads ⇒ LeftOut 0-9 1:1 in 0-0; LeftOut 10-15 1:11; LeftOut 16-22 1:17; LeftOut 23-32 1:24; LeftOut 33-35 1:34; LeftOut 36-41 1:37; LeftOut 42-51 1:43; LeftOut 52-56 1:53; LeftOut 57-63 1:58; LeftOut 64-71 1:65; LeftOut 72-80 1:73; LeftOut 81-86 1:82
struct super type upon varies weak_map when where writes ⇒ LeftOut 0-6 1:1 in 0-0; LeftOut 7-12 1:8; LeftOut 13-17 1:14; LeftOut 18-22 1:19; LeftOut 23-29 1:24; LeftOut 30-38 1:31; LeftOut 39-43 1:40; LeftOut 44-49 1:45; LeftOut 50-56 1:51
"###;

/// The bytes that a byte of a line stands for.
fn bytes_for(byte: &u8) -> &[u8] {
    match *byte {
        b'^' => b"\n".as_slice(),
        b'$' => b"\r".as_slice(),
        b'%' => b"\t".as_slice(),
        b'!' => b"\xFF".as_slice(),
        b'`' => b"\xEF\xBB\xBF".as_slice(),
        _ => std::slice::from_ref(byte),
    }
}

/// The bytes of the file that a line of the table has.
fn file_of(alloc: Global, text: &str) -> Result<Vec<u8>, AllocError> {
    let mut file = Vec::new(alloc);
    for byte in text.as_bytes() {
        file.extend_from_slice(bytes_for(byte))?;
    }
    Ok(file)
}

/// What the characters of a text token stand for, as the table has it.
fn describe_text(
    out: &mut String,
    alloc: Global,
    file: &[u8],
    token: &Token,
) -> Result<(), AllocError> {
    match text_bytes(alloc, file, token) {
        Ok(bytes) => write!(out, "={:?}", bytes.as_slice())?,
        Err(_) => out.push_str("=no memory")?,
    }
    Ok(())
}

fn is_text(token: &Token) -> bool {
    matches!(
        token.kind,
        TokenKind::Text | TokenKind::TextOpen | TokenKind::TextMid | TokenKind::TextClose
    )
}

fn describe_place(out: &mut String, token: &Token) -> Result<(), AllocError> {
    write!(out, " {}-{}", token.start, token.end)?;
    write!(out, " {}:{}", token.place.line, token.place.col)?;
    Ok(())
}

fn describe_indent(out: &mut String, indent: Option<(u32, u32)>) -> Result<(), AllocError> {
    if let Some((from, to)) = indent {
        write!(out, " in {from}-{to}")?;
    }
    Ok(())
}

/// A token as the table has it.
fn describe(out: &mut String, alloc: Global, file: &[u8], token: &Token) -> Result<(), AllocError> {
    write!(out, "{:?}", token.kind)?;
    if is_text(token) {
        describe_text(out, alloc, file, token)?;
    }
    describe_place(out, token)?;
    describe_indent(out, token.indent)
}

/// What a line of the table says of this file.
fn answer(alloc: Global, file: &[u8]) -> Result<String, AllocError> {
    let mut out = String::new(alloc);
    if file.len() > 1048576 {
        return Ok(out);
    }
    match lex(alloc, 7, file) {
        Ok(tokens) => {
            for token in &tokens {
                if !out.is_empty() {
                    out.push_str("; ")?;
                }
                describe(&mut out, alloc, file, token)?;
            }
        }
        Err(Front::Refused(refusal)) => {
            let place = refusal.place;
            write!(out, "E{:03} {}:{}", refusal.rule.0, place.line, place.col)?;
        }
        Err(Front::Memory) => out.push_str("no memory")?,
    }
    Ok(out)
}

#[test]
fn cases(rt: HostRuntime) -> Result<(), Fail> {
    let mut count = 0u64;
    for line in CASES.lines() {
        let (text, expected) = line.split_once(" ⇒ ").ok_or("a line has two parts")?;
        let file = file_of(rt.alloc(), text)?;
        let found = answer(rt.alloc(), file.as_slice())?;
        assert_eq!(rt; found.as_str(), expected, "{line}");
        count = count.saturating_add(1);
    }
    assert_eq!(rt; count, 137);
    Ok(())
}
