//! The program: its words, the files and standard output of the system, and the status.
#![tactic(auto)]

use std::env::Env;
use std::process::ExitCode;
use std::{env, io};
use verse_outside::sinks::write_all;
use verse_outside::standard::{StdFiles, StdSink};
use verse_top::verse;

/// The words after the program's name.
fn words(rt: &(impl Env + AllocGlobal)) -> io::Result<Vec<String>> {
    let mut words = env::args(rt)?;
    let _ = words.next();
    Ok(words.collect(rt.alloc())?)
}

fn status(rt: &HostRuntime) -> u8 {
    let mut files = StdFiles::new(rt);
    let mut out = StdSink::new(io::writer(rt));
    match words(rt) {
        Ok(words) => verse(rt.alloc(), words.as_slice(), &mut files, &mut out),
        Err(error) if error.kind() == io::ErrorKind::OutOfMemory => {
            match write_all(&mut out, b"= memory\n") {
                Ok(()) => 5,
                Err(_) => 7,
            }
        }
        // A word that is not UTF-8 is none of a command.
        Err(_) => verse(rt.alloc(), &[], &mut files, &mut out),
    }
}

fn main(rt: HostRuntime) -> ExitCode {
    ExitCode::from(status(&rt))
}
