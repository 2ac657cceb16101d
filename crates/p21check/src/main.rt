//! `p21check SCHEMA FILE`: checks a STEP file against an EXPRESS schema.
#![tactic(auto)]

use p21_report::{Screen, program_with_progress, unreadable_words};
use p21_where_text::TextChecker;
use std::env;
use std::io::IsTerminal;
use std::process::ExitCode;

fn main(rt: HostRuntime) -> ExitCode {
    let words: Vec<String> = match env::args(&rt).and_then(|words| words
        .collect(rt.alloc())
        .map_err(std::io::Error::from))
    {
        Ok(words) => words,
        Err(error) => return ExitCode::from(unreadable_words(rt.alloc(), &error, &mut rt.stderr())),
    };
    let status = program_with_progress(
        &rt,
        rt.alloc(),
        &TextChecker,
        words.as_slice(),
        &mut rt.stdin(),
        &mut rt.stdout(),
        &mut rt.stderr(),
        rt.stderr(),
        Screen::new(&rt, rt.stderr().is_terminal()),
    );
    ExitCode::from(status)
}
