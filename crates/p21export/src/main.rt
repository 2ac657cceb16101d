//! `p21export SCHEMA FILE --json OUT`, or `--sqlite OUT`: checks a STEP file against an EXPRESS schema, and writes its model as JSON or as a database.
#![tactic(auto)]

use p21_exporter::{Around, Screen, program, unreadable_words};
use std::env;
use std::io::IsTerminal;
use std::process::ExitCode;

fn main(rt: HostRuntime) -> ExitCode {
    let words: Vec<String> = match env::args(&rt).and_then(|words| words
        .collect(rt.alloc())
        .map_err(std::io::Error::from))
    {
        Ok(words) => words,
        Err(_) => return ExitCode::from(unreadable_words(&mut rt.stderr())),
    };
    let around = Around {
        input: &mut rt.stdin(),
        output: &mut rt.stdout(),
        errors: &mut rt.stderr(),
        screen: Screen::new(&rt, rt.stderr().is_terminal()),
    };
    ExitCode::from(program(&rt, &rt, rt.alloc(), words.as_slice(), around, rt.stderr()))
}
