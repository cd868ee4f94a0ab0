// Numbers: the whole run of digits, one to five of them, within a bound.
ghost use Rattle.std.specs.Prelude.{◌≡◌, ◌≤◌, length};
ghost use Rattle.event_notation.specs.Numbers.{digits, Inside, number_at, Bounded};

use items::Rest;
use refusal::{Cause, Refusal};

// A number and how many digits it is written with.
#[derive(Clone, Copy)]
pub struct Number {
    pub value: u32,
    pub width: usize,
}

// The run of digits in front; none where they are over five.
fn digits(text: &[u8]) -> Option<Number>
    ensures is { result ≡ digits 0 0 text.now }
    ensures within { Inside (length text.now) result }
{
    let mut value: u32 = 0;
    let mut width = 0;
    for byte in text {
        if !byte.is_ascii_digit() {
            break;
        }
        if width == 5 {
            return None;
        }
        value = value * 10 + u32::from(*byte - b'0');
        width += 1;
    }
    Some(Number { value, width })
}

// The number in front, at most `most`; a refusal names the place where its first digit stands or should.
pub fn number_at(text: Rest<'_>, most: u32) -> Result<Number, Refusal>
    ensures is { result ≡ number_at most text.entry.place text.entry.bytes.now }
    ensures within { Bounded most (length text.entry.bytes.now) result }
{
    match digits(text.bytes) {
        Some(number) if number.width > 0 && number.value <= most => Ok(number),
        _ => Err(text.refused(Cause::BadNumber)),
    }
}
