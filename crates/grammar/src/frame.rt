// What the parser knows of one pattern that it is in.
ghost use Rattle.std.specs.Prelude.{◌≡◌};
ghost use Rattle.grammar.specs.Parse.{more, grown, operand_in};

use refusal::Cause;

// How many repeats the chain has so far. From two on a join is due once the last of them is complete.
#[derive(Clone, Copy, Debug, Default, PartialEq, Eq)]
pub enum Repeats {
    #[default]
    Empty,
    One,
    Many,
}

// A pattern that is being read: whether branches with a | behind them stand before, and the repeats of
// the branch that is being read.
#[derive(Clone, Copy, Debug, Default, PartialEq, Eq)]
pub struct Frame {
    pub branches: bool,
    pub repeats: Repeats,
}

impl Repeats {
    pub(crate) fn longer(self) -> Repeats
        ensures { result ≡ more self }
    {
        match self {
            Repeats::Empty => Repeats::One,
            Repeats::One | Repeats::Many => Repeats::Many,
        }
    }
}

impl Frame {
    pub(crate) fn grow(self) -> Frame
        ensures { result ≡ grown self }
    {
        Frame {
            repeats: self.repeats.longer(),
            ..self
        }
    }

    // Refuses where a repeat should stand and none does.
    pub(crate) fn operand(self) -> Result<(), Cause>
        ensures { result ≡ operand_in self.repeats }
    {
        match self.repeats {
            Repeats::Empty => Err(Cause::MissingOperand),
            Repeats::One | Repeats::Many => Ok(()),
        }
    }
}
