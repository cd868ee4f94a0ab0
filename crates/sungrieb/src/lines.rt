// The lines of an input, each handed on to be answered.
use crate::failure::Failure;
use script::words;
use std::fs;
use std::io::{BufRead, BufReader, BufWriter, Read, Stdout, Write};

pub type Out = BufWriter<Stdout>;

pub trait Answers {
    // Answers the line of that number; its line break is gone.
    fn answer(&mut self, number: u64, line: &[u8], out: &mut Out) -> Result<(), Failure>;
}

pub fn answer_input<A: Answers>(
    rt: &HostRuntime,
    answers: &mut A,
    out: &mut Out,
) -> Result<(), Failure> {
    answer_lines(rt, rt.stdin(), answers, out)
}

pub fn answer_file<A: Answers>(
    rt: &HostRuntime,
    path: &String,
    answers: &mut A,
    out: &mut Out,
) -> Result<(), Failure> {
    let answered = fs::open(rt, path.as_str())
        .map_err(Failure::Input)
        .and_then(|file| answer_lines(rt, file, answers, out));
    match answered {
        Err(Failure::Input(error)) => Err(Failure::File(path.clone()?, error)),
        answered => answered,
    }
}

fn answer_lines<R: Read + Drop, A: Answers>(
    rt: &HostRuntime,
    input: R,
    answers: &mut A,
    out: &mut Out,
) -> Result<(), Failure> {
    let mut input = BufReader::new(rt.alloc(), input).map_err(Failure::Input)?;
    let mut line = Vec::new(rt.alloc());
    for number in 1..u64::MAX {
        line.clear();
        let read = input.read_until(b'\n', &mut line).map_err(Failure::Input)?;
        if read == 0 {
            break;
        }
        answers.answer(number, words::before(line.as_slice(), b'\n'), out)?;
        // Whoever waits for an answer before the next line gets it.
        if input.buffer().is_empty() {
            out.flush()?;
        }
    }
    Ok(())
}
