// What a record is made of.
ghost use Rattle.std.specs.Prelude.{◌≡◌};
ghost use Rattle.search_script.specs.Sources.{source_of, told_source};

use crate::command::{Mistake, Source};
use crate::verb::Manner;
use script::arguments::parse_count;
use script::words::{behind, trimmed};

// Only a raw text keeps the blanks at its end.
pub(crate) fn parse_source(manner: Manner, raw: &[u8]) -> Result<Source<'_>, Mistake>
    ensures { told_source result ≡ source_of manner raw.now }
{
    let rest = trimmed(raw);
    match manner {
        Manner::Text => Ok(Source::Text(raw)),
        Manner::Hex => Ok(Source::Hex(rest)),
        Manner::HexRepeat => Ok(Source::HexRepeat(parse_count(rest)?, behind(rest, b' '))),
        Manner::File | Manner::EventsFile if rest.is_empty() => Err(Mistake::NoPath),
        Manner::File => Ok(Source::File(rest)),
        Manner::Events => Ok(Source::Events(rest)),
        Manner::EventsRepeat => Ok(Source::EventsRepeat(parse_count(rest)?, behind(rest, b' '))),
        Manner::EventsFile => Ok(Source::EventsFile(rest)),
    }
}
