//! Tests of images.

ghost use Rattle.verse_code.specs.Validity.{Valid};

use crate::again::read_again;
use std::alloc::Global;
use std::test::Fail;
use verse_code::codes::Code;
use verse_code::validity::is_valid;
use verse_image::decoding::decode;
use verse_image::encoding::encode;
use verse_image::faults::ImageFault;

/// Bytes in hex, and the operations that they spell or the fault.
const ROWS: &str = "\
5653494d0101010000010000000000002f ok [Return]
5653494d010102000001000000000000012f ok [Unit, Return]
5653494d01810002000001000000000000012f I4 5
- I3 0
5753494d010102000001000000000000012f I1 0
5653494d030102000001000000000000012f I2 4
5653494d010002000001000000000000012f I5 5
5653494d010102000001000002000000012f I5 12
5653494d010102000001000000000000402f I6 16
5653494d01010400000100000000000000ff7e07ac02092f ok [Int(-129), Get(300), Drop, Return]
5653494d0201010000010000000000002f ok [Return]
5653494d0201030000010000000000004001422f ok [Defer(1), DeferEnd, Return]
5653494d0101030000010000000000004001422f I6 16
5653494d02010100000100000000000043 I6 16
5653494d01010100000100000000000080 I6 16
5653494d018080808080 I4 5
5653494d0180808080 I3 9
5653494d0111 I5 5
5653494d01018080800800 I3 11
5653494d01018180800800 I5 6
5653494d010101018092f401 I5 8
5653494d010101010241 I3 10
5653494d0101010001010101 I5 9
5653494d0101010001000001 I5 10
5653494d01010100000102010000 I5 11
5653494d01010100000100000100 I5 12
5653494d01010100000100000002 I5 13
5653494d010101000001020200000000 I5 15
5653494d0101010000010000000001030101 I5 17
5653494d0101010000010000000000002600 I6 17
5653494d01010200000100000000000026012f ok [Jump(1), Return]
5653494d01010200000100000000000026022f I6 17
5653494d010101000001000000000000048002 I6 17
5653494d010101000001000000000000358194ebdc03 I6 17
5653494d010102000001000000000000358094ebdc032f ok [Sleep(1000000000), Return]
5653494d01010100000100000000000000ffffffffffffffffff00 ok [Int(9223372036854775807)]
5653494d01010200000100000000000000ffffffffffffffffff002f ok [Int(9223372036854775807), Return]
5653494d010102000001000000000000008080808080808080807f2f ok [Int(-9223372036854775808), Return]
5653494d01010200000100000000000000808080808080808080012f I4 17
5653494d0101020000010000000000000080002f I4 17
5653494d01010200000100000000000000402f ok [Int(-64), Return]
5653494d01010200000100000000000000c0002f ok [Int(64), Return]
5653494d01010200000100000000000000ff7f2f I4 17
5653494d0102080202486900010103ac020201020001000001000103020100000501340023010203002400002d013c0101003d072f ok [Text(1), Print(0), Store { slot: 1, indices: 2, mode: 3, place: 0 }, Object(0, 0), Call(1), Group { kind: 1, arms: 1, place: 0 }, Arm(7), Return]";

fn digit(letter: u8) -> u8 {
    match letter {
        b'0'..=b'9' => letter - b'0',
        b'a'..=b'f' => letter - b'a' + 10,
        _ => 0,
    }
}

fn bytes_of(alloc: Global, hex: &str) -> Result<Vec<u8>, Fail> {
    let mut bytes = Vec::new(alloc);
    for pair in hex.as_bytes().chunks_exact(2) {
        if let [high, low] = pair {
            bytes.push(digit(*high).wrapping_mul(16).wrapping_add(digit(*low)))?;
        }
    }
    Ok(bytes)
}

fn ops_told(alloc: Global, code: &Code) -> Result<String, Fail> {
    let valid = if is_valid(code) { "ok" } else { "invalid" };
    let ops = code.ops.as_slice();
    Ok(format!(in alloc; "{valid} {ops:?}")?)
}

fn fault_told(alloc: Global, fault: ImageFault) -> Result<String, Fail> {
    match fault {
        ImageFault::Memory => Ok(String::from_str(alloc, "memory")?),
        ImageFault::Bad { rule, at } => Ok(format!(in alloc; "I{rule} {at}")?),
    }
}

/// What decoding tells.
fn told(alloc: Global, bytes: &[u8]) -> Result<String, Fail> {
    match decode(alloc, bytes) {
        Ok(code) => ops_told(alloc, &code),
        Err(fault) => fault_told(alloc, fault),
    }
}

fn is_told(alloc: Global, bytes: &[u8], expected: &str) -> Result<bool, Fail> {
    let told = told(alloc, bytes)?;
    Ok(told.as_str() == expected)
}

// the bytes of a row, and what they spell
fn row_parts(alloc: Global, row: &str) -> Result<(Vec<u8>, &str), Fail> {
    let (hex, expected) = row.split_once(' ').ok_or("a line has two parts")?;
    let bytes = bytes_of(alloc, hex)?;
    Ok((bytes, expected))
}

fn is_right(alloc: Global, row: &str) -> Result<bool, Fail> {
    let (bytes, expected) = row_parts(alloc, row)?;
    is_told(alloc, bytes.as_slice(), expected)
}

fn count_right(alloc: Global) -> Result<u64, Fail> {
    let mut count = 0u64;
    for row in ROWS.lines() {
        if !is_right(alloc, row)? {
            return Err(Fail::from(row));
        }
        count = count.saturating_add(1);
    }
    Ok(count)
}

#[test]
fn rows(rt: HostRuntime) -> Result<(), Fail> {
    assert!(rt; count_right(rt.alloc())? == 44);
    Ok(())
}

// whether the code is read again from its image
fn is_read_again(alloc: Global, code: &Code) -> Result<bool, ImageFault>
    requires { Valid code.now }
{
    let read = read_again(alloc, code)?;
    Ok(read.ops.as_slice() == code.ops.as_slice())
}

// whether the image of the code is these bytes
fn is_image(alloc: Global, code: &Code, bytes: &[u8]) -> Result<bool, Fail>
    requires { Valid code.now }
{
    match encode(alloc, code) {
        Ok(image) => Ok(bytes == image.as_slice()),
        Err(_) => Err(Fail::from("memory")),
    }
}

// whether the bytes are an image that is written again as it was
fn is_written_again(alloc: Global, row: &str) -> Result<bool, Fail> {
    let (bytes, _) = row_parts(alloc, row)?;
    let Ok(code) = decode(alloc, bytes.as_slice()) else {
        return Ok(false);
    };
    if !is_read_again(alloc, &code)? {
        return Err(Fail::from(row));
    }
    is_image(alloc, &code, bytes.as_slice())
}

fn count_written_again(alloc: Global) -> Result<u64, Fail> {
    let mut count = 0u64;
    for row in ROWS.lines() {
        if is_written_again(alloc, row)? {
            count = count.saturating_add(1);
        }
    }
    Ok(count)
}

#[test]
fn written_again(rt: HostRuntime) -> Result<(), Fail> {
    assert!(rt; count_written_again(rt.alloc())? == 12);
    Ok(())
}

// whether an image that ends here ends too early
fn is_cut_told(alloc: Global, bytes: &[u8]) -> Result<bool, Fail> {
    let expected = format!(in alloc; "I3 {}", bytes.len())?;
    is_told(alloc, bytes, expected.as_str())
}

fn are_cuts_told(alloc: Global, all: &[u8]) -> Result<bool, Fail> {
    for end in 0..all.len() {
        if !is_cut_told(alloc, &all[..end])? {
            return Ok(false);
        }
    }
    Ok(true)
}

#[test]
fn cut_and_longer(rt: HostRuntime) -> Result<(), Fail> {
    let alloc = rt.alloc();
    let row = ROWS.lines().next().ok_or("there are rows")?;
    let (mut bytes, _) = row_parts(alloc, row)?;
    assert!(rt; are_cuts_told(alloc, bytes.as_slice())?);
    bytes.push(0)?;
    assert!(rt; is_told(alloc, bytes.as_slice(), "I7 17")?);
    Ok(())
}
