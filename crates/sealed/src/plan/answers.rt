// What a plan answers, and the step rule for any positions that a symbol passes.
ghost use Rattle.std.specs.Prelude.{◌≡◌};
ghost use Rattle.sets.specs.Positions.{holds, width};
ghost use Rattle.theory.specs.Masks.{ahead_set, back_set};
ghost use Rattle.sealed.specs.Tables.{following, preceding};
ghost use Rattle.sealed.specs.Plans.{positions_of, is_member};

use crate::plan::Plan;
use crate::rows::{row, united};
use pattern::Code;
use sets::PositionSet;

impl Plan {
    pub fn nullable(&self) -> bool
        ensures { result ≡ (positions_of self.now).nullable }
    {
        self.tables.nullable
    }

    // The positions that follow p; the first positions follow 0.
    pub fn followers(&self, p: u8) -> PositionSet
        ensures { holds result ≡ following (positions_of self.now) p }
    {
        row(&self.tables.next, p)
    }

    // The positions that q follows; 0 follows the last positions.
    pub fn leaders(&self, q: u8) -> PositionSet
        ensures { holds result ≡ preceding (positions_of self.now) q }
    {
        row(&self.tables.prior, q)
    }

    // One step ahead from the set, by a symbol that passes the tests of `passing`.
    pub fn ahead(&self, set: PositionSet, passing: PositionSet) -> PositionSet
        ensures { holds result ≡ ahead_set width is_member (positions_of self.now) (holds set) passing }
    {
        united(&self.tables.next, set).intersection(passing)
    }

    // One step back.
    pub fn back(&self, set: PositionSet, passing: PositionSet) -> PositionSet
        ensures { holds result ≡ back_set width is_member (positions_of self.now) (holds set) passing }
    {
        united(&self.tables.prior, set)
            .intersection(passing)
            .with(0)
    }
}
