ghost use Rattle.std.specs.Prelude.{◌≡◌, if◌then◌else◌};
ghost use Rattle.law.specs.Memory.{allowance, opened, sets_live, steps_known};
ghost use Rattle.search.specs.Remembered.{memory, Ready};

use crate::counts::Counts;
use automaton::Automaton;
use memory::policy::Policy;
use memory::shelf::Shelf;
use sets::{PlaceSet, PositionSet};

mod ahead;
mod back;
mod calls;
mod seats;
mod steps;

// What a searcher is made of. Its fields change one after another; that they fit together is the searcher's invariant.
#[derive(Drop)]
pub struct Scanner<'p, M, S, P> {
    automaton: &'p M,
    shelf: S,
    policy: P,
    // The set at each place, and the places that hold one.
    sets: [PositionSet; 64],
    live: PlaceSet,
    // The places whose set is one of a scan back.
    back: PlaceSet,
    // The places whose set holds a first position, holds a last one, is empty.
    begins: PlaceSet,
    ends: PlaceSet,
    empties: PlaceSet,
    limit: u8,
}

// A set that a scan is in, with its place where that is known.
#[derive(Clone, Copy)]
struct Cursor {
    set: PositionSet,
    place: Option<u8>,
}

// Where a set was seated, if anywhere, and how many steps that dropped.
#[derive(Clone, Copy)]
struct Seating {
    place: Option<u8>,
    gone: usize,
}

// Where a read leads, and how it counts.
#[derive(Clone, Copy)]
struct Move {
    cursor: Cursor,
    counts: Counts,
}

// A scan that has come to a place of the record. Its mark is, back, the smallest place so far at which a word begins,
// and ahead the end of the longest word so far.
#[derive(Clone, Copy)]
struct Scan<T> {
    at: usize,
    cursor: Cursor,
    mark: T,
    counts: Counts,
}

// A run of a scan over steps that the shelf knows: how far it has come, the place of its set, the scan's mark, and the
// places that it met.
#[derive(Clone, Copy)]
struct Run<T> {
    at: usize,
    place: u8,
    mark: T,
    met: PlaceSet,
}

// The new mark where the flag is set, else the one so far.
fn marked<T: Copy>(flag: bool, new: T, so_far: T) -> T
    ensures { result ≡ (if flag then new else so_far) }
{
    if flag { new } else { so_far }
}

impl<'p, M: Automaton, S: Shelf, P: Policy> Scanner<'p, M, S, P> {
    // Everything is dropped on shelf and policy.
    pub(crate) fn open(automaton: &'p M, mut shelf: S, mut policy: P) -> Scanner<'p, M, S, P>
        ensures opened { memory S.Shelf P.Policy result ≡ opened (S.Shelf.room shelf) (S.Shelf.most shelf) }
        ensures ready { Ready M.Automaton S.Shelf P.Policy result }
        ensures automaton { result.automaton ≡ automaton.entry }
    {
        shelf.empty();
        policy.drop_places(PlaceSet::all());
        let none = PlaceSet::empty();
        Scanner {
            automaton,
            shelf,
            policy,
            sets: [PositionSet::empty(); 64],
            live: none,
            back: none,
            begins: none,
            ends: none,
            empties: none,
            limit: 64,
        }
    }

    // How many sets are live.
    pub(crate) fn live_sets(&self) -> u8
        ensures { result ≡ sets_live (memory S.Shelf P.Policy self.now) }
    {
        self.live.count()
    }

    // How many steps are known.
    pub(crate) fn known_steps(&self) -> usize
        ensures { S.Shelf.sound self.now.shelf → result ≡ steps_known (memory S.Shelf P.Policy self.now) }
    {
        self.shelf.count()
    }

    // How many sets may be live.
    pub(crate) fn allowance(&self) -> u8
        ensures { result ≡ allowance (memory S.Shelf P.Policy self.now) }
    {
        self.shelf.places().min(self.limit)
    }
}
