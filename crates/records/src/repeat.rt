// Copies of a piece, one after the other.
ghost use Rattle.std.specs.Prelude.{◌≡◌, Some};
ghost use Rattle.records.specs.Copies.{Repeated, repeat_error_text};
ghost use Rattle.records.specs.declared.repeat.RepeatError.TheVariants.{NoMemory};

use std::alloc::AllocError;
use std::error::Error;
use std::fmt;

// A longer record is not made, so that a number in a script cannot use up the memory. A search
// refuses much shorter ones.
pub const MOST_SYMBOLS: usize = 16_777_216;

#[derive(Clone, Copy, Debug, PartialEq, Eq)]
pub enum RepeatError {
    // The copies are more than `MOST_SYMBOLS`.
    TooLong,
    NoMemory,
}

impl fmt::Display for RepeatError {
    ghost output = { λ error. Some (repeat_error_text error) };

    fn fmt<W: fmt::Write>(&self, f: &mut fmt::Formatter<W>) -> fmt::Result {
        f.write_str(match self {
            Self::TooLong => "the copies have over 16,777,216 symbols",
            Self::NoMemory => "out of memory",
        })
    }
}

impl Error for RepeatError {}

impl From<AllocError> for RepeatError {
    ghost from_gives = { λ _ r. r ≡ NoMemory };

    fn from(_error: AllocError) -> RepeatError {
        RepeatError::NoMemory
    }
}

// Puts `count` copies of the piece in the place of what `out` held; nothing where they are too many.
pub fn repeat<T: Copy>(piece: &[T], count: u64, out: &mut Vec<T>) -> Result<(), RepeatError>
    ensures { Repeated piece.now count out.new.items result }
{
    out.clear();
    if piece.is_empty() {
        return Ok(());
    }
    if count > (MOST_SYMBOLS / piece.len()) as u64 {
        return Err(RepeatError::TooLong);
    }
    for _ in 0..count {
        out.extend_from_slice(piece)?;
    }
    Ok(())
}
