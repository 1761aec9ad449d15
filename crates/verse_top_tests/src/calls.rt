//! Commands in text over files in memory, and what they answer.

use crate::telling::told;
use std::alloc::Global;
use std::test::Fail;
use verse_base::texts::natural;
use verse_outside::memory_files::MemFiles;
use verse_outside::memory_sinks::MemSink;

/// The most bytes that one command writes here.
const MOST_WRITTEN: usize = 100000;

/// A text in which `~` is a line feed, `^` a tab and `$` the byte FF.
pub(crate) fn lines(alloc: Global, text: &str) -> Result<Vec<u8>, Fail> {
    let mut bytes = Vec::new(alloc);
    for byte in text.as_bytes() {
        bytes.push(match *byte {
            b'~' => b'\n',
            b'^' => b'\t',
            b'$' => 255,
            other => other,
        })?;
    }
    Ok(bytes)
}

pub(crate) fn words(alloc: Global, text: &str) -> Result<Vec<String>, Fail> {
    let mut words = Vec::new(alloc);
    for word in text.split_whitespace() {
        words.push(String::from_str(alloc, word)?)?;
    }
    Ok(words)
}

/// The status with which a command ends, a backquote, and all that it writes.
pub(crate) fn answer(alloc: Global, text: &str, files: &mut MemFiles) -> Result<Vec<u8>, Fail> {
    let command = words(alloc, text)?;
    let mut out = MemSink::new(alloc, MOST_WRITTEN, 1000)?;
    let status = told(alloc, command.as_slice(), files, &mut out);
    let mut answer = Vec::new(alloc);
    natural(u64::from(status), &mut answer)?;
    answer.push(b'`')?;
    answer.extend_from_slice(out.taken())?;
    Ok(answer)
}

/// The same of a status and a text in which `~` is a line feed.
pub(crate) fn written(alloc: Global, status: &str, text: &str) -> Result<Vec<u8>, Fail> {
    let mut answer = Vec::new(alloc);
    answer.extend_from_slice(status.as_bytes())?;
    answer.push(b'`')?;
    answer.extend_from_slice(lines(alloc, text)?.as_slice())?;
    Ok(answer)
}
