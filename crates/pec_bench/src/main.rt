//! The bench program: its first word names what is timed, standard input holds the data.
//! It promises nothing; the scripts of bench/ run it on the proved calls.
#![tactic(auto)]

mod diff;
mod paths;
mod refutes;
mod rows;
mod run;
mod terms;
mod texts;

use pec_io::{StdSink, StdSource, read_all, write_all};
use pec_text::sections;
use std::env;
use std::process::ExitCode;

/// The greatest number of bytes that a bench reads.
const MOST: usize = 67_108_864;

fn main(rt: HostRuntime) -> ExitCode {
    let alloc = rt.alloc();
    let words = match env::args(&rt) {
        Ok(words) => words.skip(1).collect::<Vec<String>>(alloc),
        Err(_error) => return ExitCode::from(2),
    };
    let Ok(words) = words else {
        return ExitCode::from(6);
    };
    match words.as_slice() {
        [name] if name.as_str() == "io" => ExitCode::from(io(&rt)),
        [name] if name.as_str() == "sections" => ExitCode::from(cut(&rt)),
        [name] if name.as_str() == "read" => ExitCode::from(texts::program(&rt)),
        [name] if name.as_str() == "rules" => ExitCode::from(texts::rule(&rt)),
        [name] if name.as_str() == "diff" => ExitCode::from(status(&rt, diff::run(&rt))),
        [name] if name.as_str() == "rows" => ExitCode::from(status(&rt, rows::run(&rt))),
        [name, steps] if name.as_str() == "run" => {
            ExitCode::from(status(&rt, run::run(&rt, steps.as_str())))
        }
        [name, times] if name.as_str() == "paths" => {
            ExitCode::from(status(&rt, paths::run(&rt, times.as_str())))
        }
        [name, shape, n, times] if name.as_str() == "refutes" => ExitCode::from(status(
            &rt,
            refutes::run(&rt, shape.as_str(), n.as_str(), times.as_str()),
        )),
        [name, shape, n, times] if name.as_str() == "copies" => ExitCode::from(status(
            &rt,
            refutes::copies(&rt, shape.as_str(), n.as_str(), times.as_str()),
        )),
        [name, what, times] if name.as_str() == "terms" => ExitCode::from(status(
            &rt,
            terms::run(&rt, what.as_str(), times.as_str()),
        )),
        _ => ExitCode::from(2),
    }
}

/// Copies standard input to standard output through `read_all` and `write_all`.
fn io(rt: &HostRuntime) -> u8 {
    let mut input = StdSource::new(rt.stdin());
    let mut out = StdSink::new(rt.stdout());
    let Ok(bytes) = read_all(rt.alloc(), &mut input, MOST) else {
        return 4;
    };
    match write_all(&mut out, bytes.as_slice()) {
        Ok(()) => 0,
        Err(_failed) => 5,
    }
}

/// Cuts standard input into sections, and prints how many are whole and what stops the cut.
fn cut(rt: &HostRuntime) -> u8 {
    let mut input = StdSource::new(rt.stdin());
    let Ok(bytes) = read_all(rt.alloc(), &mut input, MOST) else {
        return 4;
    };
    let Ok(text) = sections(rt.alloc(), bytes.as_slice()) else {
        return 6;
    };
    let whole = text.whole.len();
    let rest = text.rest;
    match println!(rt; "whole {whole}\nrest {rest:?}") {
        Ok(()) => 0,
        Err(_error) => 5,
    }
}

/// The status of a bench, which says on standard error why it failed.
fn status(rt: &HostRuntime, done: anyhow::Result<()>) -> u8 {
    match done {
        Ok(()) => 0,
        Err(error) => {
            let _ = rt.eprintln(error);
            1
        }
    }
}
