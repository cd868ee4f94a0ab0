// The byte notation: how a pattern over bytes is written.
//
// A sign or a byte that stands for itself is one byte, an escape two. A bracket is read member by member, in `brackets`; its
// members are single bytes, ranges and the named classes of `classes`.
#![tactic(auto)]

ghost use Rattle.std.specs.Prelude.{◌≡◌, ◌<◌, length, drop};
ghost use Rattle.items.specs.Lexemes.{Within};
ghost use Rattle.byte_notation.specs.Law.{Reads};
ghost use Rattle.byte_notation.specs.Lexing.{lexed, escape, escape_of, only_byte, any_byte};

use items::{Lexeme, Notation, Rest, Sign};
use refusal::{Cause, Refusal};
use symbols::ByteTest;

mod brackets;
mod classes;
pub mod laws;

// The notation's name, where a reader is told which notation to read.
pub struct Bytes;

impl Notation for Bytes {
    type Test = ByteTest;

    ghost lexed = { lexed };

    fn next(text: &[u8], place: usize) -> Result<Lexeme<ByteTest>, Refusal>
        requires { place < length text.now }
        ensures is { result ≡ lexed place (drop place text.now) }
        ensures within { Within place (length text.now) result }
        ensures law { Reads place (drop place text.now) result }
    {
        read_item(Rest::of(text, place))
    }
}

// The item in front.
fn read_item(text: Rest<'_>) -> Result<Lexeme<ByteTest>, Refusal>
    ensures is { result ≡ lexed text.entry.place text.entry.bytes.now }
    ensures within { Within 0 (length text.entry.bytes.now) result }
{
    let [first, ..] = text.bytes else {
        return Err(text.refused(Cause::NoItem));
    };
    match *first {
        b'(' => Ok(Lexeme::sign(Sign::Open)),
        b')' => Ok(Lexeme::sign(Sign::Close)),
        b'|' => Ok(Lexeme::sign(Sign::Bar)),
        b'*' => Ok(Lexeme::sign(Sign::Star)),
        b'+' => Ok(Lexeme::sign(Sign::Plus)),
        b'?' => Ok(Lexeme::sign(Sign::Query)),
        b'.' => Ok(Lexeme::atom(any_byte(), 1)),
        b'\\' => read_escape(text),
        b'[' => brackets::read_bracket(text),
        b'{' | b'^' | b'$' => Err(text.refused(Cause::NoItem)),
        byte => Ok(Lexeme::atom(only(byte), 1)),
    }
}

fn only(byte: u8) -> ByteTest
    ensures { result ≡ only_byte byte }
{
    let mut test = ByteTest::none();
    test.insert(byte);
    test
}

// Every byte but the end of a line.
fn any_byte() -> ByteTest
    ensures { result ≡ any_byte }
{
    let mut test = only(b'\n');
    test.invert();
    test
}

// The byte that a backslash before this one gives.
fn escape_of(byte: u8) -> Option<u8>
    ensures { result ≡ escape_of byte }
{
    match byte {
        b'n' => Some(b'\n'),
        b't' => Some(b'\t'),
        b'r' => Some(b'\r'),
        b'('
        | b')'
        | b'|'
        | b'*'
        | b'+'
        | b'?'
        | b'['
        | b']'
        | b'{'
        | b'}'
        | b'.'
        | b'\\'
        | b'^'
        | b'$' => Some(byte),
        _ => None,
    }
}

// The atom that the backslash in front begins.
fn read_escape(text: Rest<'_>) -> Result<Lexeme<ByteTest>, Refusal>
    ensures is { result ≡ escape text.entry.place (drop 1 text.entry.bytes.now) }
    ensures within { Within 0 (length text.entry.bytes.now) result }
{
    if let [_, second, ..] = text.bytes
        && let Some(byte) = escape_of(*second)
    {
        return Ok(Lexeme::atom(only(byte), 2));
    }
    Err(text.refused(Cause::BadEscape))
}
