// Event records as CSV: one event a line, as moment, kind and value.
ghost use Rattle.std.specs.Prelude.{◌≡◌, ◌++◌, OnOk};
ghost use Rattle.records.specs.Rows.{Reads, event_row, header, row_of, still_first, good_in, bad_in, good_rows, bad_rows, text_rows};

use crate::blanks::stripped;
use script::number::number;
use script::words::{before, behind, trimmed};
use std::alloc::AllocError;
use std::num::TryFromIntError;
use symbols::Event;

#[derive(Clone, Copy, Debug, PartialEq, Eq)]
pub enum Field {
    Moment,
    Kind,
    Value,
}

// What is wrong with a line.
#[derive(Clone, Copy, Debug, PartialEq, Eq)]
pub enum Fault {
    Missing(Field),
    NotANumber(Field),
    TooLarge(Field),
    // There are more than three fields.
    Surplus,
}

#[derive(Clone, Copy, Debug, PartialEq, Eq)]
pub enum Row {
    Blank,
    Header,
    Event(Event),
}

// Lines are counted from 1.
#[derive(Clone, Copy, Debug, PartialEq, Eq)]
pub struct BadLine {
    pub number: usize,
    pub fault: Fault,
}

fn parse_field<T: TryFrom<u64, Error = TryFromIntError>>(
    text: &[u8],
    field: Field,
) -> Result<T, Fault>
    ensures { Reads T.try_from_gives field text.now result }
{
    let text = stripped(text);
    if text.is_empty() {
        return Err(Fault::Missing(field));
    }
    let n = number(text).ok_or(Fault::NotANumber(field))?;
    T::try_from(n).map_err(|_| Fault::TooLarge(field))
}

// The event of a line, or the first thing that is wrong with it.
pub fn parse_row(line: &[u8]) -> Result<Event, Fault>
    ensures { result ≡ event_row line.now }
{
    let rest = behind(line, b',');
    let last = behind(rest, b',');
    let moment = parse_field(before(line, b','), Field::Moment)?;
    let kind = parse_field(before(rest, b','), Field::Kind)?;
    let value = parse_field(before(last, b','), Field::Value)?;
    if before(last, b',').len() < last.len() {
        return Err(Fault::Surplus);
    }
    Ok(Event {
        kind,
        value,
        moment,
    })
}

// A header's first field begins with something else than a digit.
fn is_header(line: &[u8]) -> bool
    ensures { result ≡ header line.now }
{
    matches!(stripped(before(line, b',')), [first, ..] if !first.is_ascii_digit())
}

// What a line has; `first` says that all lines before it are blank, so that it may be a header.
pub fn row_of(line: &[u8], first: bool) -> Result<Row, Fault>
    ensures { result ≡ row_of first line.now }
{
    if trimmed(line).is_empty() {
        return Ok(Row::Blank);
    }
    if first && is_header(line) {
        return Ok(Row::Header);
    }
    Ok(Row::Event(parse_row(line)?))
}

fn still_first(first: bool, row: Result<Row, Fault>) -> bool
    ensures { result ≡ still_first first row }
{
    first && matches!(row, Ok(Row::Blank))
}

// Puts what the row has behind what is there already.
fn keep(
    row: Result<Row, Fault>,
    number: usize,
    out: &mut Vec<Event>,
    bad: &mut Vec<BadLine>,
) -> Result<(), AllocError>
    ensures good { OnOk result (out.new.items ≡ out.old.items ++ good_in row) }
    ensures bad { OnOk result (bad.new.items ≡ bad.old.items ++ bad_in number row) }
{
    match row {
        Ok(Row::Event(event)) => out.push(event)?,
        Ok(Row::Blank | Row::Header) => {}
        Err(fault) => bad.push(BadLine { number, fault })?,
    }
    Ok(())
}

// Puts the events of the lines and the bad lines, in order, in the place of what `out` and `bad` held.
pub fn read_events(
    text: &[u8],
    out: &mut Vec<Event>,
    bad: &mut Vec<BadLine>,
) -> Result<(), AllocError>
    ensures good { OnOk result (out.new.items ≡ good_rows (text_rows text.now)) }
    ensures bad { OnOk result (bad.new.items ≡ bad_rows 1 (text_rows text.now)) }
{
    out.clear();
    bad.clear();
    let mut first = true;
    for (i, line) in text.split(|b| *b == b'\n').enumerate() {
        let row = row_of(line, first);
        keep(row, i + 1, out, bad)?;
        first = still_first(first, row);
    }
    Ok(())
}
