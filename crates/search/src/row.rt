ghost use Rattle.std.specs.Prelude.{◌≡◌, ◌≤◌, length, Some, Err, OnOk, IfOk, IfErr};

use refusal::{Cause, Refusal};

// A record has at most so many symbols.
const LONGEST: usize = 1_048_576;

pub(crate) fn refused<T>(cause: Cause) -> Result<T, Refusal>
    ensures { result ≡ Err (record { cause = cause; place = 0 }) }
{
    Err(Refusal { cause, place: 0 })
}

// A record that is short enough to be searched.
#[derive(Drop)]
pub(crate) struct Row<'r, T> {
    pub(crate) symbols: &'r [T],
    ghost short: { length symbols.now ≤ 1048576 },
}

impl<'r, T> Row<'r, T> {
    ghost use Rattle.law.specs.Calls.{refusal, Search, Find as FindQuery, Whole as WholeQuery};

    pub(crate) fn new(symbols: &'r [T]) -> Result<Row<'r, T>, Refusal>
        ensures same { IfOk result (λ row. row.symbols.now ≡ symbols.now) }
        ensures refused { IfErr result (λ q. refusal (Search (WholeQuery symbols.now)) ≡ Some q) }
    {
        if symbols.len() > LONGEST {
            return refused(Cause::RecordTooLong);
        }
        Ok(Row { symbols })
    }

    // A search from behind the end is refused.
    pub(crate) fn check_from(&self, from: usize) -> Result<(), Refusal>
        ensures inside { OnOk result (from ≤ length self.now.symbols.now) }
        ensures refused { IfErr result (λ q. refusal (Search (FindQuery self.now.symbols.now from)) ≡ Some q) }
    {
        if from > self.symbols.len() {
            return refused(Cause::FromPastEnd);
        }
        Ok(())
    }
}
