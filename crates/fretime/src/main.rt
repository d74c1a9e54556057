//! The program `fretime` reads AIGER circuits and moves latches over gates so that fewer are left,
//! in one circuit or in many at once. It checks certificates, carries witnesses back, simulates,
//! compares and converts.
#![tactic(auto)]

mod advising;
mod answers;
mod batch;
mod batch_object;
mod clashes;
mod explaining;
mod reporting;
mod run;
mod usage;
mod written;

use circuit_files::OutputFiles;
use counted_io::{Counted, CountedRead, CountedWrite, Streams};
use run::{report_unreadable_arguments, run_words};
use std::env::Env;
use std::io::IsTerminal;
use std::process::ExitCode;
use std::rt::Files;
use std::thread::Threads;
use std::time::Clock;
use std::{env, io};

/// Returns the command-line arguments, the program's own name first.
fn words<R: Env + AllocGlobal>(rt: &R) -> io::Result<Vec<String>> {
    Ok(env::args(rt)?.collect(rt.alloc())?)
}

/// Returns true if the terminal knows no sequence that steers it.
fn is_dumb<R: Env + AllocGlobal>(rt: &R) -> bool {
    match env::var(rt, "TERM") {
        Ok(term) => term.as_str() == "dumb",
        Err(_) => false,
    }
}

/// Runs the program on the command-line arguments, and returns the exit status.
fn run_program<
    R: Env + AllocGlobal + Files + OutputFiles + Threads + Sync + Clock,
    I: CountedRead,
    O: CountedWrite,
    E: CountedWrite,
>(rt: &R, streams: &mut Streams<I, O, E>) -> u8 {
    match words(rt) {
        Ok(words) => {
            let status = run_words(rt, rt.alloc(), words.as_slice(), streams);
            drop(words);
            status
        }
        Err(error) => {
            let status = report_unreadable_arguments(&error, &mut streams.err);
            drop(error);
            status
        }
    }
}

fn main(rt: HostRuntime) -> ExitCode {
    let mut streams = Streams {
        stdin: Counted::new(rt.stdin()),
        out: Counted::new(rt.stdout()),
        err: Counted::new(rt.stderr()),
        is_terminal: rt.stderr().is_terminal() && !is_dumb(&rt),
    };
    ExitCode::from(run_program(&rt, &mut streams))
}
