//! The program `case_runner`: reads cases from standard input, one JSON object a line, and prints an answer for each.
#![tactic(auto)]

mod answering;

use answering::answer_line;
use std::io;
use std::io::{BufRead, Write};
use std::process::ExitCode;

/// Prints the answer to a line that is not empty.
fn print_answer(rt: &HostRuntime, line: &str) -> io::Result<()> {
    if line.is_empty() {
        return Ok(());
    }
    let answer = answer_line(rt.alloc(), line)?;
    println!(rt; "{answer}")
}

/// Prints the answer to each line in its order.
fn print_answers(rt: &HostRuntime) -> io::Result<()> {
    for line in io::BufReader::new(rt.alloc(), rt.reader())?.lines(rt.alloc()) {
        print_answer(rt, line?.as_str())?;
    }
    Ok(())
}

fn main(rt: HostRuntime) -> ExitCode {
    match print_answers(&rt) {
        Ok(()) => ExitCode::from(0),
        Err(error) => {
            let _ = writeln!(rt.stderr(), "case_runner: {error}");
            ExitCode::from(1)
        }
    }
}
