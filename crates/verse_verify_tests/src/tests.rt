//! Tests of the verifier: images, notes, and what it says of them.

use crate::answers::answer;
use std::alloc::Global;
use std::test::Fail;
use verse_verify::faults::VerifyFault;

/// Bytes of images and of notes in hex, and the answer.
const ROWS: &str = "\
5653494d010102000001000000000000012f 56534e540100000100000000010000010300 ok
5653494d010102000001000000000000012f 56534e540100000100000000010000010500 V7 0
5653494d010102000001000000000000012f 56534e5401000001000000000100000103 V1 17
5653494d0101010000010000000000002f 56534e540100000100000000 V4 0";

fn digit(letter: u8) -> u8 {
    match letter {
        b'0'..=b'9' => letter - b'0',
        b'a'..=b'f' => letter - b'a' + 10,
        _ => 0,
    }
}

fn bytes_of(alloc: Global, hex: &str) -> Result<Vec<u8>, Fail> {
    let mut bytes = Vec::new(alloc);
    for pair in hex.as_bytes().chunks_exact(2) {
        if let [high, low] = pair {
            bytes.push(digit(*high).wrapping_mul(16).wrapping_add(digit(*low)))?;
        }
    }
    Ok(bytes)
}

fn told(alloc: Global, image: &[u8], notes: &[u8]) -> Result<String, Fail> {
    match answer(alloc, image, notes) {
        Ok(Ok(())) => Ok(format!(in alloc; "ok")?),
        Ok(Err(VerifyFault::Bad { rule, at })) => Ok(format!(in alloc; "V{rule} {at}")?),
        Ok(Err(VerifyFault::Memory)) => Ok(format!(in alloc; "memory")?),
        Err(_) => Ok(format!(in alloc; "no image")?),
    }
}

#[test]
fn rows(rt: HostRuntime) -> Result<(), Fail> {
    let alloc = rt.alloc();
    let mut count = 0u64;
    for line in ROWS.lines() {
        let (image, rest) = line.split_once(' ').ok_or("a line has three parts")?;
        let (notes, expected) = rest.split_once(' ').ok_or("a line has three parts")?;
        let image = bytes_of(alloc, image)?;
        let notes = bytes_of(alloc, notes)?;
        let told = told(alloc, image.as_slice(), notes.as_slice())?;
        assert_eq!(rt; told.as_str(), expected, "{line}");
        count = count.saturating_add(1);
    }
    assert_eq!(rt; count, 4);
    Ok(())
}
