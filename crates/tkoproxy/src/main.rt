//! The program: passes its arguments and its standard ends to the command.
#![tactic(auto)]

mod build;

use build::{BUILD, SOURCES};
use std::alloc::Global;
use std::fs::{File, Files};
use std::io::{Read, Write};
use std::net::{Net, TcpListener, TcpStream};
use std::process::ExitCode;
use std::rt::Env;
use std::sync::Wait;
use std::thread::Threads;
use std::time::Clock;
use std::{env, io};
use tko_cli::{command, hold_standard_streams};
use tko_io::Piped;

fn main(rt: HostRuntime) -> ExitCode {
    hold_standard_streams(&rt);
    let status = match words_of(&rt) {
        Ok(words) => {
            let ends = (rt.stdin(), rt.stdout(), rt.stderr());
            let status = run(&rt, rt.alloc(), &words, ends);
            if status == 0 && asks_for_version(&words) {
                let _ = rt.stdout().println(BUILD);
            }
            status
        },
        Err(error) => report(&rt, error.kind()),
    };
    ExitCode::from(status)
}

/// Whether the words ask for the version, after which the build is printed.
fn asks_for_version(words: &[String]) -> bool {
    match words.get(1) {
        Some(word) => word.as_str() == "--version" || word.as_str() == "-V",
        None => false,
    }
}

fn words_of(rt: &(impl Env + AllocGlobal)) -> io::Result<Vec<String>> {
    Ok(env::args(rt)?.collect(rt.alloc())?)
}

/// Runs the command over std's readers and writers. The bounds of `IoRuntime` are written out,
/// since the prover covers only those at the runtime itself.
fn run<
    R: Wait
        + Net<Stream = TcpStream, Listener = TcpListener>
        + Clock
        + Threads
        + Sync
        + Copy
        + Send
        + 'static
        + Files<File = File>
        + Eprint,
    I: Read + Drop,
    O: Write + Drop,
    F: Write + Drop,
>(rt: &R, alloc: Global, words: &[String], (input, output, faults): (I, O, F)) -> u8 {
    let mut input = Piped::new(input);
    let mut output = Piped::new(output);
    let mut faults = Piped::new(faults);
    command(
        rt,
        alloc,
        SOURCES,
        words,
        &mut input,
        &mut output,
        &mut faults,
    )
}

/// Reports why the words could not be read, and returns the status: one is not UTF-8, or memory ran
/// out.
fn report(rt: &impl Eprint, kind: io::ErrorKind) -> u8 {
    let (line, status) = match kind {
        io::ErrorKind::InvalidData => ("error: an argument is not UTF-8", 2),
        _ => ("fault: memory", 1),
    };
    let _ = rt.eprintln(line);
    status
}
