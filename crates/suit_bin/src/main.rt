//! The program `suit`: one run over standard input and standard output.
#![tactic(auto)]

use std::io::ErrorKind;
use std::process::ExitCode;
use std::rt::Env;
use std::thread::Threads;
use std::{env, io};
use suit_game::OpenGate;
use suit_ports::{Sink, Source, StdSink, StdSource};
use suit_top::{Status, run};

/// The code where the system does not tell the words, which no status has.
const NO_WORDS: u8 = 15;

fn main(rt: HostRuntime) -> ExitCode {
    let mut source = StdSource::of(rt.stdin());
    let mut sink = StdSink::of(rt.stdout());
    match run_words(&rt, &mut source, &mut sink) {
        Ok(status) => ExitCode::from(status.code()),
        Err(fault) if fault.kind() == ErrorKind::OutOfMemory => {
            ExitCode::from(Status::Memory.code())
        }
        Err(_) => ExitCode::from(NO_WORDS),
    }
}

/// Runs the words after the program's name, if the system tells them.
fn run_words<R, S, K>(rt: &R, source: &mut S, sink: &mut K) -> io::Result<Status>
where
    R: Threads + Sync + Env + AllocGlobal,
    S: Source,
    K: Sink,
{
    let words: Vec<String> = env::args(rt)?.skip(1).collect(rt.alloc())?;
    let texts: Vec<&str> = words.iter().map(|word| word.as_str()).collect(rt.alloc())?;
    Ok(run(rt, &OpenGate, rt.alloc(), &texts, source, sink))
}
