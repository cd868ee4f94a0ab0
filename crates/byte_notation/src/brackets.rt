// Brackets, as [a-z_] or [^[:digit:]].
//
// A bracket is read member by member. A member is a class, a range or one byte, and `advance` says by the state and the next
// byte whether another member begins or the bracket closes. Each member is put into the set of the bytes named so far.
ghost use Rattle.std.specs.Prelude.{◌≡◌, ◌+◌, ◌<◌, ◌≤◌, length, drop};
ghost use Rattle.items.specs.Lexemes.{Within};
ghost use Rattle.symbols.specs.ByteSets.{no_byte};
ghost use Rattle.byte_notation.specs.Bounds.{Fitting, Closing};
ghost use Rattle.byte_notation.specs.Brackets.{after, range_end, member_in, behind, taken, with_read, with_ranges, members, tested, bracket};

use super::classes::{ByteRange, read_class};
use items::{Lexeme, Rest};
use refusal::{Cause, Refusal};
use symbols::ByteTest;

// How far a bracket is read. Only where no member is read yet does ] stand for itself.
#[derive(Clone, Copy, Debug, PartialEq, Eq)]
pub enum State {
    NoMember,
    Members,
    Closed,
}

// The bytes that the members name, and how many bytes the bracket takes.
#[derive(Clone, Copy)]
pub struct Bracket {
    pub test: ByteTest,
    pub width: usize,
}

// The state once `byte`, which begins a member or closes the bracket, is taken.
fn advance(state: State, byte: u8) -> State
    ensures { result ≡ after state byte }
{
    match (state, byte) {
        (State::NoMember, _) => State::Members,
        (State::Members, b']') => State::Closed,
        (State::Members, _) => State::Members,
        (State::Closed, _) => State::Closed,
    }
}

// The end of a range whose first byte stands in front.
fn range_end(text: &[u8]) -> Option<u8>
    ensures is { result ≡ range_end (drop 1 text.now) }
    ensures within { Fitting result (length text.now) }
{
    match text {
        [_, b'-', high, ..] if *high != b']' => Some(*high),
        _ => None,
    }
}

fn insert_ranges(test: &mut ByteTest, ranges: &[ByteRange])
    ensures { test.new ≡ with_ranges test.old ranges.now }
{
    for range in ranges {
        test.insert_range(range.low, range.high);
    }
}

// Puts the bytes of the member at the cursor into the test, and moves the cursor behind it.
fn take_member(text: Rest<'_>, cursor: &mut usize, test: &mut ByteTest) -> Result<(), Refusal>
    requires { cursor.old < length text.bytes.now }
    ensures is { result ≡ taken (member_in text.entry.place text.entry.bytes.now cursor.old) }
    ensures test { test.new ≡ with_read test.old (member_in text.entry.place text.entry.bytes.now cursor.old) }
    ensures moved { cursor.new ≡ behind (member_in text.entry.place text.entry.bytes.now cursor.old) cursor.old }
    ensures within { cursor.new ≤ length text.entry.bytes.now }
{
    if let Some(ranges) = read_class(text.bytes, cursor) {
        insert_ranges(test, ranges);
        return Ok(());
    }
    let left = text.behind(*cursor);
    let low = left.bytes[0];
    match range_end(left.bytes) {
        None => {
            *cursor += 1;
            test.insert(low);
        }
        Some(high) if high < low => return Err(left.refused(Cause::ReversedRange)),
        Some(high) => {
            *cursor += 3;
            test.insert_range(low, high);
        }
    }
    Ok(())
}

// Reads members from `start` on up to the bracket that closes the one in front.
fn read_members(text: Rest<'_>, start: usize) -> Result<Bracket, Refusal>
    ensures is { result ≡ members text.entry.place State.NoMember no_byte (text.entry.place + start) 0 (drop start text.entry.bytes.now) }
    ensures within { Closing result start (length text.entry.bytes.now) }
{
    let mut test = ByteTest::none();
    let mut state = State::NoMember;
    let mut cursor = start;
    while cursor < text.bytes.len() {
        state = advance(state, text.bytes[cursor]);
        if let State::Closed = state {
            return Ok(Bracket {
                test,
                width: cursor + 1,
            });
        }
        take_member(text, &mut cursor, &mut test)?;
    }
    Err(text.refused(Cause::UnclosedBracket))
}

// The test of a bracket whose members name the bytes of `named`: after ^ the others, without the end of a line.
fn test_of(mut named: ByteTest, inverted: bool) -> ByteTest
    ensures { result ≡ tested inverted named }
{
    if inverted {
        named.insert(b'\n');
        named.invert();
    }
    named
}

// The atom that begins with the bracket in front.
pub fn read_bracket(text: Rest<'_>) -> Result<Lexeme<ByteTest>, Refusal>
    ensures is { result ≡ bracket text.entry.place (drop 1 text.entry.bytes.now) }
    ensures within { Within 0 (length text.entry.bytes.now) result }
{
    let inverted = matches!(text.bytes, [_, b'^', ..]);
    let start = if inverted { 2 } else { 1 };
    let bracket = read_members(text, start)?;
    Ok(Lexeme::atom(test_of(bracket.test, inverted), bracket.width))
}
