use crate::command::eifcheck;
use crate::status::Status;
use eif_base::{FileTexts, OpenGate, OutSink};
use std::alloc::Global;
use std::env;
use std::io::{self, ErrorKind};
use std::process::ExitCode;
use std::rt::{Env, Files};
use std::thread::Threads;

/// What the program says on standard error, for each status but those with a report.
pub fn complaint(status: Status) -> Option<&'static str> {
    match status {
        Status::Yes | Status::Faults => None,
        Status::Usage => Some(
            "usage: eifcheck --root CLASS.PROCEDURE [--do check] [--form 1|2] [--workers N] [--list FILE] [FILES]",
        ),
        Status::ReadFault => Some("a file could not be read"),
        Status::WriteFault => Some("the report could not be written"),
        Status::Memory => Some("out of memory"),
        Status::TooLarge => Some("the input is too large"),
    }
}

/// Runs the call over the files and the standard output, with the program's own words.
fn run<R: Threads + Sync + Files + Print + Env + AllocGlobal>(rt: &R) -> Status {
    let alloc = rt.alloc();
    let mut words = match env::args(rt) {
        Ok(words) => words,
        Err(error) if error.kind() == ErrorKind::OutOfMemory => return Status::Memory,
        Err(_) => return Status::Usage,
    };
    let _program = words.next();
    let Ok(words) = words.collect::<Vec<String>>(alloc) else {
        return Status::Memory;
    };
    let mut texts = FileTexts::new(rt, alloc);
    let mut sink = OutSink::new(io::writer(rt));
    eifcheck(rt, alloc, &words, &mut texts, &mut sink, &OpenGate)
}

/// The program: it ends with the number of its status.
pub fn program<R: Threads + Sync + Files + Print + Eprint + Env + AllocGlobal>(rt: &R) -> ExitCode {
    let status = run(rt);
    if let Some(line) = complaint(status) {
        let _ = rt.eprintln(format_args!("eifcheck: {line}"));
    }
    ExitCode::from(status.number())
}
