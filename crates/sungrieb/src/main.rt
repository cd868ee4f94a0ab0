// The program: it answers scripts and checks run sheets. A thin layer: `script` understands lines, `reader` reads
// patterns, and this crate joins the two and prints.
//
// A new command gets a case of `script::command::Command`, an arm in `session::Session::obey`, and a line in `help`.
#![tactic(auto)]

mod check;
mod drafts;
mod failure;
mod help;
mod lines;
mod sealing;
mod session;
mod show;
mod wrong;

use crate::lines::Answers;
use check::Sheet;
use failure::Failure;
use session::Session;
use std::env;
use std::io::{BufWriter, Write};
use std::process::ExitCode;

// The words behind the program's name.
fn arguments(rt: &HostRuntime) -> Result<Vec<String>, Failure> {
    let Ok(all) = env::args(rt) else {
        return Err(Failure::Usage("an argument is not UTF-8"));
    };
    Ok(all.skip(1).collect(rt.alloc())?)
}

// Answers a script: the file's, or what comes on standard input.
fn run_script(rt: &HostRuntime, files: &[String]) -> Result<(), Failure> {
    let mut session = Session::new(rt.alloc());
    let mut out = BufWriter::new(rt.alloc(), rt.stdout())?;
    let answered = match files {
        [] => lines::answer_input(rt, &mut session, &mut out),
        [file] => lines::answer_file(rt, file, &mut session, &mut out),
        _ => Err(Failure::Usage("run takes one file at most")),
    };
    // Whatever went wrong, the answers before it are not lost.
    out.flush()?;
    answered
}

// Checks the patterns of a run sheet.
fn check_sheet(rt: &HostRuntime, files: &[String]) -> Result<(), Failure> {
    let [file] = files else {
        return Err(Failure::Usage("check takes one file"));
    };
    let mut sheet = Sheet::new();
    let mut out = BufWriter::new(rt.alloc(), rt.stdout())?;
    let answered = lines::answer_file(rt, file, &mut sheet, &mut out);
    if answered.is_ok() {
        sheet.sum_up(&mut out)?;
    }
    out.flush()?;
    answered
}

fn obey(rt: &HostRuntime) -> Result<(), Failure> {
    let words = arguments(rt)?;
    let Some((word, rest)) = words.as_slice().split_first() else {
        return Err(Failure::Usage("no command"));
    };
    match word.as_str() {
        "run" => run_script(rt, rest),
        "check" => check_sheet(rt, rest),
        "--help" | "-h" | "help" => {
            println!(rt; "{}", help::HELP)?;
            Ok(())
        }
        "--version" | "-V" => {
            println!(rt; "{}", help::VERSION)?;
            Ok(())
        }
        _ => Err(Failure::UnknownWord(word.clone()?)),
    }
}

// A failure is said on standard error, and ends the process with status 1.
fn main(rt: HostRuntime) -> ExitCode {
    match obey(&rt) {
        Ok(()) => ExitCode::SUCCESS,
        Err(failure) => {
            let _ = eprintln!(rt; "sungrieb: {failure}");
            ExitCode::FAILURE
        }
    }
}
