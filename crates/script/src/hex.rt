// Hexadecimal digits.
ghost use Rattle.std.specs.Prelude.{◌≡◌, ◌<◌, Some, IfSome};
ghost use Rattle.script.specs.Hex.{hex_of, pair_of, ReadAs, hex_error_text};
ghost use Rattle.script.specs.declared.hex.HexError.TheVariants.{NoMemory};

use std::alloc::AllocFailed;
use std::error::Error;
use std::fmt;

#[derive(Clone, Copy, Debug, PartialEq, Eq)]
pub enum HexError {
    // The digits are not pairs, or something else stands among them.
    NotHex,
    NoMemory,
}

impl fmt::Display for HexError {
    ghost output = { λ error. Some (hex_error_text error) };

    fn fmt<W: fmt::Write>(&self, f: &mut fmt::Formatter<W>) -> fmt::Result {
        f.write_str(match self {
            Self::NotHex => "the text is not pairs of hexadecimal digits",
            Self::NoMemory => "out of memory",
        })
    }
}

impl Error for HexError {}

impl<T: Drop> From<AllocFailed<T>> for HexError {
    ghost from_gives = { λ _ r. r ≡ NoMemory };

    fn from(_failed: AllocFailed<T>) -> HexError {
        HexError::NoMemory
    }
}

pub fn hex_value(byte: u8) -> Option<u8>
    ensures is { result ≡ hex_of byte }
    ensures small { IfSome result (λ v. v < 16) }
{
    let digit = char::from(byte).to_digit(16)?;
    Some(digit as u8)
}

// The byte that two digits write.
fn hex_pair(high: u8, low: u8) -> Option<u8>
    ensures { result ≡ pair_of (hex_of high) (hex_of low) }
{
    Some(hex_value(high)? * 16 + hex_value(low)?)
}

// Puts the bytes that the pairs of digits write in the place of what `out` held.
pub fn read_hex(text: &[u8], out: &mut Vec<u8>) -> Result<(), HexError>
    ensures { ReadAs text.now out.new.items result }
{
    out.clear();
    let mut rest = text;
    while let [high, low, others @ ..] = rest {
        out.push(hex_pair(*high, *low).ok_or(HexError::NotHex)?)?;
        rest = others;
    }
    if rest.is_empty() {
        Ok(())
    } else {
        Err(HexError::NotHex)
    }
}
