//! The program `pec`: the real words, standard input and standard output, handed to the top call.
//! What the streams give and take is not proved; all between is `serve_plain`'s promise.
#![tactic(auto)]

use pec_io::{StdSink, StdSource};
use pec_top::serve_plain;
use std::env;
use std::process::ExitCode;

const USAGE: &str = "usage: pec prove | check | print | run --steps N";

const HELP: &str = "\
pec proves rewrite rules once for everything that their parameters stand for.

usage: pec prove | check | print | run --steps N
       pec --help | --version

prove          reads rules from standard input, proves or refuses each, and writes a report
check          checks the certificates of standard input against their rules, and writes a report
print          writes the rules, programs and certificates of standard input in canonical form
run --steps N  runs each program of standard input for at most N steps, N from 0 to 1000000,
               and reports how it ran and which cells it left that are not 0

status  0 done, 1 done and a rule was refused, a certificate is not valid or a program did not end,
        2 no such command,
        3 input refused, 4 a read failed, 5 a write failed, 6 want of memory";

fn main(rt: HostRuntime) -> ExitCode {
    let alloc = rt.alloc();
    let words = match env::args(&rt) {
        Ok(words) => words.skip(1).collect::<Vec<String>>(alloc),
        // Words that can't be read, or are no text, are in no form.
        Err(_error) => {
            let _ = rt.eprintln(USAGE);
            return ExitCode::from(2);
        }
    };
    let Ok(words) = words else {
        return ExitCode::from(6);
    };
    let answered = match words.as_slice() {
        [word] if word.as_str() == "--help" => rt.println(HELP),
        [word] if word.as_str() == "--version" => rt.println("pec 0.1.0"),
        words => return ExitCode::from(run(&rt, words)),
    };
    match answered {
        Ok(()) => ExitCode::SUCCESS,
        Err(_error) => ExitCode::from(5),
    }
}

/// Runs the command of these words over the standard streams. What stopped it is said on standard
/// error, where that can be said.
fn run(rt: &HostRuntime, words: &[String]) -> u8 {
    let mut input = StdSource::new(rt.stdin());
    let mut out = StdSink::new(rt.stdout());
    let status = serve_plain(rt.alloc(), words, &mut input, &mut out);
    let _ = match status {
        2 => rt.eprintln(USAGE),
        4 => rt.eprintln("pec: standard input could not be read"),
        5 => rt.eprintln("pec: standard output could not be written"),
        6 => rt.eprintln("pec: not enough memory"),
        _ => Ok(()),
    };
    status
}
