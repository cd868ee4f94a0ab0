ghost use Rattle.std.specs.Prelude.{◌≡◌, ◌≤◌};
ghost use Rattle.law.specs.Reading.{both};
ghost use Rattle.search.specs.Counted.{tallied, known_more, Low};

// What a search cost: symbols read, of these by known, built and plain steps; and steps dropped.
#[derive(Clone, Copy, Debug, Default, PartialEq, Eq)]
pub struct Counts {
    pub reads: usize,
    pub known: usize,
    pub built: usize,
    pub plain: usize,
    pub dropped: usize,
}

impl Counts {
    // With so many reads more, by known steps.
    pub(crate) fn more_known(self, reads: usize) -> Counts
        requires low { Low self }
        requires few { reads ≤ 1048576 }
        ensures { tallied result ≡ known_more (tallied self) reads }
    {
        Counts {
            reads: self.reads + reads,
            known: self.known + reads,
            ..self
        }
    }

    pub(crate) fn plus(self, other: Counts) -> Counts
        requires { (Low self) × (Low other) }
        ensures { tallied result ≡ both (tallied self) (tallied other) }
    {
        Counts {
            reads: self.reads + other.reads,
            known: self.known + other.known,
            built: self.built + other.built,
            plain: self.plain + other.plain,
            dropped: self.dropped + other.dropped,
        }
    }
}
