// What an alphabet of events looks up.
ghost use Rattle.std.specs.Prelude.{◌≡◌, ℕ, ◌+◌, ◌<◌, length, slice_index_or};
ghost use Rattle.sets.specs.Positions.{holds, PositionSet};
ghost use Rattle.event_classes.specs.Cuts.{lowest_code};
ghost use Rattle.event_classes.specs.Tables.{passed_code, KindRight, KindsRight, CutRight, CutTold};

use crate::cuts::Cuts;
use alphabet::passed;
use arrayvec::ArrayVec;
use sets::PositionSet;
use std::array;
use symbols::EventTest;

// How many codes the events of one kind have.
const CODES_OF_KIND: u32 = 1 << 16;

// The classes of the lowest and of the highest code of a kind, between which the classes of its events lie.
#[derive(Clone, Copy)]
pub struct KindClasses {
    pub lowest: u8,
    pub highest: u8,
}

// The cuts, the classes of each kind, and the tests that each class passes.
#[derive(Drop)]
pub struct CutTable {
    pub cuts: Cuts,
    pub kinds: [KindClasses; 256],
    pub passing: ArrayVec<PositionSet, 127>,
}

fn classes_of_kind(cuts: &Cuts, kind: u8) -> KindClasses
    ensures { KindRight cuts.now kind result }
{
    let lowest = u32::from(kind) * CODES_OF_KIND;
    KindClasses {
        lowest: cuts.rank(lowest) as u8,
        highest: cuts.rank(lowest + (CODES_OF_KIND - 1)) as u8,
    }
}

fn kinds(cuts: &Cuts) -> [KindClasses; 256]
    ensures { KindsRight cuts.now result }
{
    array::from_fn(|kind| classes_of_kind(cuts, kind as u8))
}

// What each class passes, by its lowest code.
fn passing(tests: &ArrayVec<EventTest, 63>, cuts: &Cuts) -> ArrayVec<PositionSet, 127>
    ensures each { length result.items ≡ length cuts.now + 1 }
    ensures told { (c k : ℕ) (d : PositionSet) → c < length cuts.now + 1 → holds (slice_index_or result.items c d) k ≡ passed_code tests.now.items (lowest_code cuts.now c) k }
{
    let mut passing = ArrayVec::new();
    passing.push(passed(tests, |test| test.passes_code(0)));
    for code in cuts.codes() {
        passing.push(passed(tests, |test| test.passes_code(*code)));
    }
    passing
}

pub fn tabulate(tests: &ArrayVec<EventTest, 63>) -> CutTable
    ensures cuts { CutRight tests.now.items result }
    ensures passing { CutTold tests.now.items result }
{
    let cuts = Cuts::of(tests);
    let kinds = kinds(&cuts);
    let passing = passing(tests, &cuts);
    CutTable {
        cuts,
        kinds,
        passing,
    }
}
