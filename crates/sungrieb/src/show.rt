// Answers as they are printed.
use crate::failure::Failure;
use crate::lines::Out;
use reader::Draft;
use refusal::Refusal;
use std::fmt::Display;
use std::io::Write;

// How much of a long text is shown before a place, and in all.
const BEFORE: usize = 60;

const SHOWN: usize = 100;

// What came of reading a pattern, and the draft that it was read into.
pub fn reading<T: Copy>(
    read: Result<(), Refusal>,
    draft: &Draft<T>,
    out: &mut Out,
) -> Result<(), Failure> {
    if let Err(refusal) = read {
        writeln!(out, "{refusal}")?;
        return Ok(());
    }
    let atoms = draft.atoms();
    write!(out, "accepted atoms {atoms} codes")?;
    for code in draft.codes() {
        write!(out, " {code}")?;
    }
    writeln!(out, "")?;
    Ok(())
}

// The test of an atom, behind the word for its notation.
pub fn test<T: Display + Drop>(word: &str, test: Option<T>, out: &mut Out) -> Result<(), Failure> {
    match test {
        Some(test) => writeln!(out, "{word} {test}")?,
        None => writeln!(out, "no test")?,
    }
    Ok(())
}

pub fn wrong_line<W: Display + Drop>(number: u64, words: W, out: &mut Out) -> Result<(), Failure> {
    writeln!(out, "line {number}: {words}")?;
    Ok(())
}

pub fn yes_or_no(yes: bool) -> &'static str {
    if yes { "yes" } else { "no" }
}

// Bytes as people can read them: what is not printable ASCII in hexadecimal digits.
pub fn bytes(text: &[u8], out: &mut Out) -> Result<(), Failure> {
    for byte in text {
        byte_of_text(*byte, out)?;
    }
    Ok(())
}

fn is_printable(byte: u8) -> bool {
    byte >= 32 && byte < 127
}

fn byte_of_text(byte: u8, out: &mut Out) -> Result<(), Failure> {
    if is_printable(byte) {
        out.write_all(&[byte])?;
    } else {
        write!(out, "\\x{byte:02x}")?;
    }
    Ok(())
}

// A line with the text around the place, and a line with a caret under the place.
pub fn marked(text: &[u8], place: usize, out: &mut Out) -> Result<(), Failure> {
    let start = place.saturating_sub(BEFORE);
    let margin = if start > 0 { "    ..." } else { "    " };
    write!(out, "{margin}")?;
    for byte in text.iter().skip(start).take(SHOWN) {
        byte_of_text(*byte, out)?;
    }
    writeln!(out, "")?;
    write!(out, "{}", if start > 0 { "       " } else { "    " })?;
    for byte in text.iter().skip(start).take(place.saturating_sub(start)) {
        write!(out, "{}", if is_printable(*byte) { " " } else { "    " })?;
    }
    writeln!(out, "^")?;
    Ok(())
}
