// The event notation: how a pattern over events is written.
//
// Spaces between items are skipped. The signs ( ) | * + ? are operators, and `.` is the atom that passes
// every event. Any other atom is an optional `!`, a kind, and optionally a colon with a value, or with two
// values and - between. `start_of` tells by its first byte what an item is; `codes_at` reads what an atom names.
#![tactic(auto)]

ghost use Rattle.std.specs.Prelude.{◌≡◌, ◌<◌, length, drop};
ghost use Rattle.items.specs.Lexemes.{Within};
ghost use Rattle.event_notation.specs.Law.{AtomLaw, Law};
ghost use Rattle.event_notation.specs.Trials.{Trials};
ghost use Rattle.event_notation.specs.Reading.{start_of, every, tested, lexed};

pub mod laws;
mod number;
mod span;

use items::{Lexeme, Notation, Rest, Sign, Token};
use refusal::{Cause, Refusal};
use span::{Span, codes_at};
use symbols::EventTest;

// What the first byte of an item makes it.
#[derive(Clone, Copy)]
enum Start {
    Space,
    Sign(Sign),
    Dot,
    Bang,
    Digit,
    Nothing,
}

fn start_of(byte: u8) -> Start
    ensures { result ≡ start_of byte }
{
    match byte {
        b' ' => Start::Space,
        b'(' => Start::Sign(Sign::Open),
        b')' => Start::Sign(Sign::Close),
        b'|' => Start::Sign(Sign::Bar),
        b'*' => Start::Sign(Sign::Star),
        b'+' => Start::Sign(Sign::Plus),
        b'?' => Start::Sign(Sign::Query),
        b'.' => Start::Dot,
        b'!' => Start::Bang,
        b'0'..=b'9' => Start::Digit,
        _ => Start::Nothing,
    }
}

// The test of `.`, which passes every event.
fn every() -> EventTest
    ensures { result ≡ every }
{
    EventTest {
        low: 0,
        high: Events::last_code(),
        inverted: false,
    }
}

// The test of some codes, or of all others.
fn tested(codes: Span, inverted: bool) -> EventTest
    ensures { result ≡ tested inverted codes }
{
    EventTest {
        low: codes.low,
        high: codes.high,
        inverted,
    }
}

// The notation of patterns over events.
pub struct Events;

impl Events {
    // The code of the last event there can be, 255:65535. The contract shows the notation's trials.
    pub fn last_code() -> u32
        ensures is { result ≡ 16777215 }
        ensures trials { Trials }
    {
        16_777_215
    }
}

impl Notation for Events {
    type Test = EventTest;

    ghost lexed = { lexed };

    fn next(text: &[u8], place: usize) -> Result<Lexeme<EventTest>, Refusal>
        requires { place < length text.now }
        ensures is { result ≡ lexed place (drop place text.now) }
        ensures within { Within place (length text.now) result }
        ensures law { AtomLaw (drop place text.now) result }
        ensures stands { Law place (drop place text.now) result }
    {
        read_item(Rest::of(text, place))
    }
}

// The item in front.
fn read_item(text: Rest<'_>) -> Result<Lexeme<EventTest>, Refusal>
    ensures is { result ≡ lexed text.entry.place text.entry.bytes.now }
    ensures within { Within 0 (length text.entry.bytes.now) result }
{
    let [first, ..] = text.bytes else {
        return Err(text.refused(Cause::NoItem));
    };
    match start_of(*first) {
        Start::Space => Ok(Lexeme {
            token: Token::Space,
            width: 1,
        }),
        Start::Sign(sign) => Ok(Lexeme::sign(sign)),
        Start::Dot => Ok(Lexeme::atom(every(), 1)),
        Start::Bang => {
            let codes = codes_at(text.behind(1))?;
            Ok(Lexeme::atom(tested(codes, true), codes.width + 1))
        }
        Start::Digit => {
            let codes = codes_at(text)?;
            Ok(Lexeme::atom(tested(codes, false), codes.width))
        }
        Start::Nothing => Err(text.refused(Cause::NoItem)),
    }
}
