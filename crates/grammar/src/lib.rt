// The grammar of patterns: from placed items to codes in postfix order.
//
// A pattern is one or more chains with | between; a chain is one or more repeats side by side; a repeat
// is a unit followed by any number of the signs * + ?; a unit is an atom, or a pattern between ( and ).
// The parser goes over the items once and writes each code as soon as its operands are complete: the
// codes of a repeat at once, the join of two repeats when the second is complete, the choice of two
// branches when the second is complete.
#![tactic(auto)]

ghost use Rattle.std.specs.Prelude.{◌≡◌, ◌+◌, ◌*◌, ◌≤◌, length};
ghost use Rattle.collector.specs.Pushing.{held, size};
ghost use Rattle.grammar.specs.Law.{Understood};
ghost use Rattle.grammar.specs.Parse.{parse, outcome};

use self::frame::Frame;
use self::parser::Parser;
use arrayvec::ArrayVec;
use collector::Collector;
use items::Placed;
use pattern::Code;
use refusal::Refusal;

mod frame;
mod parser;
mod writing;

// Reads the items of a text of that length, and collects the codes of the pattern.
// Two entries for each item but one are always enough.
pub fn read_pattern(
    items: &[Placed],
    text_length: usize,
    codes: &mut Collector<'_, Code>,
) -> Result<(), Refusal>
    requires used_value { codes.old.used ≡ 0 }
    requires bound { 2 * length items.now ≤ size codes.old + 1 }
    ensures parsed { parse items.now text_length ≡ outcome result (held codes.new) }
    ensures law { Understood items.now text_length (held codes.new) result }
    ensures same { size codes.new ≡ size codes.old }
    ensures lender { codes.new.entries.ghost_name ≡ codes.old.entries.ghost_name }
{
    let mut parser = Parser {
        codes,
        frame: Frame::default(),
        around: ArrayVec::new(),
    };
    parser.read_all(items, text_length)
}
