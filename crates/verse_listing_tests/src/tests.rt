//! Tests of listings.

use std::alloc::Global;
use std::test::Fail;
use verse_code::validity::is_valid;
use verse_listing::assembling::assemble;
use verse_listing::faults::ListFault;

/// The operations of a listing or its fault, and the listing with `;` for each line feed.
const ROWS: &str = "\
ok [Unit, Return] | files 1;ops 2;func 0 0 0 0;main 0;0 Unit;1 Return;
L2 5 | files 1;ops 2;func 0 0 0 0;main 0;0 Unti;1 Return;
L3 5 | files 1;ops 2;func 0 0 0 0;main 0;0 Jump 0;1 Return;
L4 6 | files 1;ops 2;func 0 0 0 0;main 0;0 Unit;2 Return;
L1 6 | files 1;ops 2;func 0 0 0 0;main 0;0 Unit;
L1 1 | 
L1 1 | ;
L1 1 | files 1
L1 2 | files 1;
L1 2 | files 1;ops 2
L1 6 | files 1;ops 2;func 0 0 0 0;main 0;0 Unit;1 Return
L1 7 | files 1;ops 2;func 0 0 0 0;main 0;0 Unit;1 Return;;
L1 7 | files 1;ops 2;func 0 0 0 0;main 0;0 Unit;1 Return;x
L1 7 | files 1;ops 2;func 0 0 0 0;main 0;0 Unit;1 Return;2 Unit;
L3 1 | files 0;ops 2;func 0 0 0 0;main 0;0 Unit;1 Return;
L3 1 | files 17;ops 2;func 0 0 0 0;main 0;0 Unit;1 Return;
ok [Unit, Return] | files 16;ops 2;func 0 0 0 0;main 0;0 Unit;1 Return;
L1 1 | files 01;ops 2;func 0 0 0 0;main 0;0 Unit;1 Return;
L3 1 | files -1;ops 2;func 0 0 0 0;main 0;0 Unit;1 Return;
L1 1 | files -0;ops 2;func 0 0 0 0;main 0;0 Unit;1 Return;
L1 1 | files;ops 2;func 0 0 0 0;main 0;0 Unit;1 Return;
L1 1 | files ;ops 2;func 0 0 0 0;main 0;0 Unit;1 Return;
L1 1 | files 1 2;ops 2;func 0 0 0 0;main 0;0 Unit;1 Return;
L1 1 | files  1;ops 2;func 0 0 0 0;main 0;0 Unit;1 Return;
L1 1 | Files 1;ops 2;func 0 0 0 0;main 0;0 Unit;1 Return;
L3 1 | files 99999999999999999999;ops 2;func 0 0 0 0;main 0;0 Unit;1 Return;
L1 1 | files +1;ops 2;func 0 0 0 0;main 0;0 Unit;1 Return;
L1 1 | file 1;ops 2;func 0 0 0 0;main 0;0 Unit;1 Return;
L3 2 | files 1;ops 0;func 0 0 0 0;main 0;0 Unit;1 Return;
L1 6 | files 1;ops 1;func 0 0 0 0;main 0;0 Unit;1 Return;
L1 7 | files 1;ops 3;func 0 0 0 0;main 0;0 Unit;1 Return;
L3 2 | files 1;ops 16777217;func 0 0 0 0;main 0;0 Unit;1 Return;
L3 2 | files 1;ops -3;func 0 0 0 0;main 0;0 Unit;1 Return;
L1 2 | files 1;ops x;func 0 0 0 0;main 0;0 Unit;1 Return;
L1 3 | files 1;ops 2;func 0 0 0;main 0;0 Unit;1 Return;
L3 3 | files 1;ops 2;func 0 0 0 2;main 0;0 Unit;1 Return;
ok [Unit, Return] | files 1;ops 2;func 0 0 0 1;main 0;0 Unit;1 Return;
L3 3 | files 1;ops 2;func 1 0 0 0;main 0;0 Unit;1 Return;
L3 4 | files 1;ops 2;func 2 2 0 0;main 0;0 Unit;1 Return;
L3 3 | files 1;ops 2;func 0 0 2 0;main 0;0 Unit;1 Return;
ok [Unit, Return] | files 1;ops 2;func 0 16777216 0 0;main 0;0 Unit;1 Return;
L3 3 | files 1;ops 2;func 0 16777217 0 0;main 0;0 Unit;1 Return;
L1 3 | files 1;ops 2;func 0 0 0 0 0;main 0;0 Unit;1 Return;
L3 4 | files 1;ops 2;place 0 1 1;main 0;0 Unit;1 Return;
L1 3 | files 1;ops 2;func 0 0 x 0;main 0;0 Unit;1 Return;
L3 4 | files 1;ops 2;func 0 0 0 0;main 1;0 Unit;1 Return;
L3 4 | files 1;ops 2;func 0 0 0 0;main -1;0 Unit;1 Return;
L1 4 | files 1;ops 2;func 0 0 0 0;main;0 Unit;1 Return;
L1 4 | files 1;ops 2;func 0 0 0 0;main 0 0;0 Unit;1 Return;
L1 4 | files 1;ops 2;func 0 0 0 0;0 Unit;0 Unit;1 Return;
L3 5 | files 1;ops 2;func 0 0 0 0;main 0;0 Unit 1;1 Return;
L3 5 | files 1;ops 2;func 0 0 0 0;main 0;0 Int;1 Return;
ok [Int(5), Return] | files 1;ops 2;func 0 0 0 0;main 0;0 Int 5;1 Return;
ok [Int(-9223372036854775808), Return] | files 1;ops 2;func 0 0 0 0;main 0;0 Int -9223372036854775808;1 Return;
L3 5 | files 1;ops 2;func 0 0 0 0;main 0;0 Int -9223372036854775809;1 Return;
ok [Int(9223372036854775807), Return] | files 1;ops 2;func 0 0 0 0;main 0;0 Int 9223372036854775807;1 Return;
L3 5 | files 1;ops 2;func 0 0 0 0;main 0;0 Int 9223372036854775808;1 Return;
L3 5 | files 1;ops 2;func 0 0 0 0;main 0;0 Int 18446744073709551615;1 Return;
L3 5 | files 1;ops 2;func 0 0 0 0;main 0;0 Int 18446744073709551617;1 Return;
L3 5 | files 1;ops 2;func 0 0 0 0;main 0;0 Int -18446744073709551615;1 Return;
L1 5 | files 1;ops 2;func 0 0 0 0;main 0;0 Int -0;1 Return;
ok [Char(255), Return] | files 1;ops 2;func 0 0 0 0;main 0;0 Char 255;1 Return;
L3 5 | files 1;ops 2;func 0 0 0 0;main 0;0 Char 256;1 Return;
ok [Jump(1), Return] | files 1;ops 2;func 0 0 0 0;main 0;0 Jump 1;1 Return;
L3 5 | files 1;ops 2;func 0 0 0 0;main 0;0 Jump 2;1 Return;
L3 5 | files 1;ops 2;func 0 0 0 0;main 0;0 Again 0;1 Return;
L3 5 | files 1;ops 2;func 0 0 0 0;main 0;0 Text 0;1 Return;
ok [Get(4294967295), Return] | files 1;ops 2;func 0 0 0 0;main 0;0 Get 4294967295;1 Return;
L3 5 | files 1;ops 2;func 0 0 0 0;main 0;0 Get 4294967296;1 Return;
L3 5 | files 1;ops 2;func 0 0 0 0;main 0;0 Get -1;1 Return;
ok [Sleep(1000000000), Return] | files 1;ops 2;func 0 0 0 0;main 0;0 Sleep 1000000000;1 Return;
L3 5 | files 1;ops 2;func 0 0 0 0;main 0;0 Sleep 1000000001;1 Return;
L4 5 | files 1;ops 2;func 0 0 0 0;main 0;1 Unit;1 Return;
L4 5 | files 1;ops 2;func 0 0 0 0;main 0;1 Unti;1 Return;
L4 5 | files 1;ops 2;func 0 0 0 0;main 0;-1 Unit;1 Return;
L2 5 | files 1;ops 2;func 0 0 0 0;main 0;0 unit;1 Return;
L1 5 | files 1;ops 2;func 0 0 0 0;main 0;0 Unit2;1 Return;
L1 5 | files 1;ops 2;func 0 0 0 0;main 0;0;1 Return;
L1 5 | files 1;ops 2;func 0 0 0 0;main 0;0 ;1 Return;
L1 5 | files 1;ops 2;func 0 0 0 0;main 0;0  Unit;1 Return;
L1 5 | files 1;ops 2;func 0 0 0 0;main 0;00 Unit;1 Return;
L1 5 | files 1;ops 2;func 0 0 0 0;main 0;0 Unti x;1 Return;
L1 5 | files 1;ops 2;func 0 0 0 0;main 0;1 Unti x;1 Return;
L4 5 | files 1;ops 2;func 0 0 0 0;main 0;18446744073709551616 Unit;1 Return;
L3 5 | files 1;ops 2;func 0 0 0 0;main 0;0 Jump 1 1;1 Return;
L3 5 | files 1;ops 2;func 0 0 0 0;main 0;0 Store 1 2 3;1 Return;
ok [Defer(1), Return] | files 1;ops 2;func 0 0 0 0;main 0;0 Defer 1;1 Return;
ok [Leave(7), Return] | files 1;ops 2;func 0 0 0 0;main 0;0 Leave 7;1 Return;
ok [DeferEnd, Return] | files 1;ops 2;func 0 0 0 0;main 0;0 DeferEnd;1 Return;
ok [Unit, Return] | files 1;ops 2;text;func 0 0 0 0;main 0;0 Unit;1 Return;
ok [Unit, Return] | files 1;ops 2;text 6869;func 0 0 0 0;main 0;0 Unit;1 Return;
L1 3 | files 1;ops 2;text 68f;func 0 0 0 0;main 0;0 Unit;1 Return;
L1 3 | files 1;ops 2;text 6A;func 0 0 0 0;main 0;0 Unit;1 Return;
L1 3 | files 1;ops 2;text ;func 0 0 0 0;main 0;0 Unit;1 Return;
ok [Unit, Return] | files 1;ops 2;text 00ff;func 0 0 0 0;main 0;0 Unit;1 Return;
L1 3 | files 1;ops 2;text 68 69;func 0 0 0 0;main 0;0 Unit;1 Return;
ok [Unit, Return] | files 1;ops 2;place 0 1 1;func 0 0 0 0;main 0;0 Unit;1 Return;
L3 3 | files 1;ops 2;place 1 1 1;func 0 0 0 0;main 0;0 Unit;1 Return;
L3 3 | files 1;ops 2;place 0 0 1;func 0 0 0 0;main 0;0 Unit;1 Return;
L3 3 | files 1;ops 2;place 0 1 0;func 0 0 0 0;main 0;0 Unit;1 Return;
L1 3 | files 1;ops 2;place 0 1;func 0 0 0 0;main 0;0 Unit;1 Return;
ok [Unit, Return] | files 1;ops 2;place 0 4294967295 4294967295;func 0 0 0 0;main 0;0 Unit;1 Return;
L3 3 | files 1;ops 2;place 0 4294967296 1;func 0 0 0 0;main 0;0 Unit;1 Return;
ok [Unit, Return] | files 1;ops 2;text 61;place 0 1 1;func 0 0 0 0;main 0;0 Unit;1 Return;
L1 4 | files 1;ops 2;place 0 1 1;text 61;func 0 0 0 0;main 0;0 Unit;1 Return;
L3 3 | files 1;ops 2;class 1 0;func 0 0 0 0;main 0;0 Unit;1 Return;
ok [Unit, Return] | files 1;ops 2;func 0 0 0 0;class 3;main 0;0 Unit;1 Return;
ok [Unit, Return] | files 1;ops 2;func 0 0 0 0;class 3 0 0;main 0;0 Unit;1 Return;
L3 4 | files 1;ops 2;func 0 0 0 0;class 3 1;main 0;0 Unit;1 Return;
L1 4 | files 1;ops 2;func 0 0 0 0;class 3 1 x;main 0;0 Unit;1 Return;
L3 4 | files 1;ops 2;func 0 0 0 0;class -1;main 0;0 Unit;1 Return;
L1 4 | files 1;ops 2;func 0 0 0 0;class;main 0;0 Unit;1 Return;
L3 4 | files 1;ops 2;func 0 0 0 0;class 4294967296;main 0;0 Unit;1 Return;
L1 5 | files 1;ops 2;func 0 0 0 0;class 2 0;func 0 0 0 0;main 0;0 Unit;1 Return;
ok [Unit, Return] | files 1;ops 2;func 0 0 0 0;func 0 0 0 0;class 2 1;main 0;0 Unit;1 Return;
L1 4 | files 1;ops 2;func 0 0 0 0;text 61;main 0;0 Unit;1 Return;
L1 4 | files 1;ops 2;func 0 0 0 0;place 0 1 1;main 0;0 Unit;1 Return;
ok [Text(0), Print(0), Object(0, 1), Call(1), Store { slot: 1, indices: 2, mode: 3, place: 0 }, Group { kind: 1, arms: 1, place: 0 }, Arm(7), Take { domain: 0, value: 1, label: 2 }, Return] | files 2;ops 9;text 6869;text;place 0 3 5;place 1 300 2;func 0 2 0 0;func 1 3 4 1;class 2 1 0;class 0;main 0;0 Text 0;1 Print 0;2 Object 0 1;3 Call 1;4 Store 1 2 3 0;5 Group 1 1 0;6 Arm 7;7 Take 0 1 2;8 Return;
L3 16 | files 2;ops 9;text 6869;text;place 0 3 5;place 1 300 2;func 0 2 0 0;func 1 3 4 1;class 2 1 0;class 0;main 0;0 Text 0;1 Print 0;2 Object 0 1;3 Call 1;4 Store 1 2 4 0;5 Group 1 1 0;6 Arm 7;7 Take 0 1 2;8 Return;";

fn bytes_of(alloc: Global, row: &str) -> Result<Vec<u8>, Fail> {
    let mut bytes = Vec::new(alloc);
    for byte in row.as_bytes() {
        bytes.push(if *byte == b';' { b'\n' } else { *byte })?;
    }
    Ok(bytes)
}

/// What assembling tells.
fn told(alloc: Global, bytes: &[u8]) -> Result<String, Fail> {
    match assemble(alloc, bytes) {
        Ok(code) => {
            let ops = code.ops.as_slice();
            let valid = is_valid(&code);
            Ok(format!(in alloc; "{} {ops:?}", if valid { "ok" } else { "invalid" })?)
        }
        Err(ListFault::Memory) => Ok(format!(in alloc; "memory")?),
        Err(ListFault::Bad { rule, line }) => Ok(format!(in alloc; "L{rule} {line}")?),
    }
}

#[test]
fn rows(rt: HostRuntime) -> Result<(), Fail> {
    let alloc = rt.alloc();
    let mut count = 0u64;
    for row in ROWS.lines() {
        let (expected, listing) = row.split_once(" | ").ok_or("a row has two parts")?;
        let bytes = bytes_of(alloc, listing)?;
        assert_eq!(rt; told(alloc, bytes.as_slice())?.as_str(), expected, "{row}");
        count = count.saturating_add(1);
    }
    assert_eq!(rt; count, 119);
    Ok(())
}

/// A listing that is cut at any byte fails at the line that is cut.
#[test]
fn cut_anywhere(rt: HostRuntime) -> Result<(), Fail> {
    let alloc = rt.alloc();
    let row = ROWS.lines().next().ok_or("there are rows")?;
    let (_expected, listing) = row.split_once(" | ").ok_or("a row has two parts")?;
    let bytes = bytes_of(alloc, listing)?;
    let all = bytes.as_slice();
    let mut line = 1u64;
    for end in 0..all.len() {
        let expected = format!(in alloc; "L1 {line}")?;
        assert_eq!(rt; told(alloc, &all[..end])?.as_str(), expected.as_str());
        if all[end] == b'\n' {
            line = line.saturating_add(1);
        }
    }
    Ok(())
}
