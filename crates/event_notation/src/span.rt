// What an atom names behind its optional `!`: a kind, and every value, one value or a range of values.
ghost use Rattle.std.specs.Prelude.{◌≡◌, length};
ghost use Rattle.event_notation.specs.Spans.{range, values, codes, Within, Wide};

use crate::number::number_at;
use items::Rest;
use refusal::{Cause, Refusal};

const MOST_KIND: u32 = 255;

const MOST_VALUE: u32 = 65_535;

// The numbers from `low` to `high`, both included, and how many bytes they are written with.
#[derive(Clone, Copy)]
pub struct Span {
    pub low: u32,
    pub high: u32,
    pub width: usize,
}

// One value in front, or two with - between.
fn range_at(text: Rest<'_>) -> Result<Span, Refusal>
    ensures is { result ≡ range text.entry.place text.entry.bytes.now }
    ensures within { Within 65535 (length text.entry.bytes.now) result }
{
    let low = number_at(text, MOST_VALUE)?;
    let behind = text.behind(low.width);
    let [b'-', ..] = behind.bytes else {
        return Ok(Span {
            low: low.value,
            high: low.value,
            width: low.width,
        });
    };
    let high = number_at(behind.behind(1), MOST_VALUE)?;
    if high.value < low.value {
        return Err(text.refused(Cause::ReversedRange));
    }
    Ok(Span {
        low: low.value,
        high: high.value,
        width: low.width + 1 + high.width,
    })
}

// The values in front of what stands behind a kind: every value, or those behind a colon.
fn values_at(text: Rest<'_>) -> Result<Span, Refusal>
    ensures is { result ≡ values text.entry.place text.entry.bytes.now }
    ensures within { Within 65535 (length text.entry.bytes.now) result }
{
    let [b':', ..] = text.bytes else {
        return Ok(Span {
            low: 0,
            high: MOST_VALUE,
            width: 0,
        });
    };
    let values = range_at(text.behind(1))?;
    Ok(Span {
        low: values.low,
        high: values.high,
        width: 1 + values.width,
    })
}

// The codes of the events that are named in front: a kind and its values.
pub fn codes_at(text: Rest<'_>) -> Result<Span, Refusal>
    ensures is { result ≡ codes text.entry.place text.entry.bytes.now }
    ensures within { Within 16777215 (length text.entry.bytes.now) result }
    ensures wide { Wide result }
{
    let kind = number_at(text, MOST_KIND)?;
    let values = values_at(text.behind(kind.width))?;
    let first = kind.value * 65_536;
    Ok(Span {
        low: first + values.low,
        high: first + values.high,
        width: kind.width + values.width,
    })
}
