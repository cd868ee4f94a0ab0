// A pattern as codes in postfix order: what a draft keeps, and what the words of a pattern are defined from.
#![tactic(auto)]

ghost use Rattle.pattern.specs.One.{OneTree};

mod names;

#[derive(Clone, Copy, Debug, Default, PartialEq, Eq)]
pub enum Code {
    #[default]
    Atom,
    Join,
    Choice,
    Star,
    Plus,
    Maybe,
}

// Codes have one tree at most, which the stack machine finds.
pub fn codes_stand()
    ensures { OneTree }
{}
