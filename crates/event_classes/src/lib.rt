// Events as symbols. The ranges of the tests cut the codes of events into classes;
// moments are not looked at.
#![tactic(auto)]

ghost use Rattle.std.specs.Prelude.{◌≤◌, length};
ghost use Rattle.event_classes.specs.Tables.{CutRight, CutTold};

mod answers;
mod cuts;
mod table;

use arrayvec::ArrayVec;
use symbols::EventTest;
use table::CutTable;

#[derive(Drop)]
pub struct EventCuts {
    tests: ArrayVec<EventTest, 63>,
    table: CutTable,
    ghost few: { length tests.items ≤ 63 },
    ghost right: { CutRight tests.items table },
    ghost told: { CutTold tests.items table },
}
