// One symbol read in a set: by a step that the shelf knows, or by the step rule.
ghost use Rattle.std.specs.Prelude.{◌≡◌, ℕ, ◌<◌, ◌≤◌, IfSome, Some, MatchOption};
ghost use Rattle.law.specs.Memory.{Noted};
ghost use Rattle.law.specs.Reading.{Unknown};
ghost use Rattle.search.specs.Counted.{Bounded, tallied};
ghost use Rattle.search.specs.Heard.{BuildingHeard, ReadingHeard};
ghost use Rattle.search.specs.Remembered.{memory, subject, Ready, Kept, Notable, At, Builds, Moved};

use crate::counts::Counts;
use crate::scanner::{Cursor, Move, Scanner, Seating};
use automaton::Automaton;
use memory::policy::Policy;
use memory::shelf::Shelf;
use sets::{PlaceSet, PositionSet};
use theory::Direction;

impl<'p, M: Automaton, S: Shelf, P: Policy> Scanner<'p, M, S, P> {
    // The place to which the shelf knows a step from the place, for the class.
    fn known_from(&self, place: Option<u8>, class: u16) -> Option<u8>
        ensures known { MatchOption result (Unknown (memory S.Shelf P.Policy self.now) place class) (λ t. (p : ℕ) × (place ≡ Some p) × (S.Shelf.steps self.now.shelf p class ≡ Some t)) }
        ensures low { IfSome result (λ t. t < 64) }
    {
        self.shelf.know(place?, class)
    }

    // Notes a step; at full capacity every step is dropped before. Says how many were.
    fn note_step(&mut self, place: u8, class: u16, target: u8) -> usize
        ensures noted { S.Shelf.sound self.old.shelf → Notable (memory S.Shelf P.Policy self.old) place class target → Noted (memory S.Shelf P.Policy self.old) place class target (memory S.Shelf P.Policy self.new) result }
        ensures small { result ≤ 16384 }
        ensures kept { Kept M.Automaton S.Shelf self.old self.new }
        ensures silent { self.new.policy ≡ self.old.policy }
    {
        let mut gone = 0;
        if self.shelf.count() >= self.shelf.capacity() {
            gone = self.shelf.drop_places(PlaceSet::all());
        }
        let _ = self.shelf.note(place, class, target);
        gone
    }

    // A read that the shelf has no step for, in the set that was seated `here`: the step rule leads on.
    fn build(&mut self, direction: Direction, set: PositionSet, class: u16, here: Seating) -> Move
        requires { here.gone ≤ 16384 }
        ensures moved { Builds (subject M.Automaton self.old) (S.Shelf.sound self.old.shelf) direction set class here (memory S.Shelf P.Policy self.old) (memory S.Shelf P.Policy self.new) result }
        ensures small { Bounded 1 result.counts }
        ensures kept { Kept M.Automaton S.Shelf self.old self.new }
        ensures heard { BuildingHeard S.Shelf P.Policy self.old direction here.place self.new result.cursor }
    {
        let target = self.automaton.step(direction, set, class);
        let there = self.seat(target, direction, here.place);
        let gone = here.gone + there.gone;
        let cursor = Cursor {
            set: target,
            place: there.place,
        };
        let (Some(p), Some(t)) = (here.place, there.place) else {
            return plain(cursor, gone);
        };
        let more = self.note_step(p, class, t);
        let counts = Counts {
            reads: 1,
            built: 1,
            dropped: gone + more,
            ..Counts::default()
        };
        Move { cursor, counts }
    }

    // Reads a symbol in the set of a cursor.
    pub(in crate::scanner) fn advance(
        &mut self,
        direction: Direction,
        cursor: Cursor,
        symbol: M::Symbol,
    ) -> Move
        ensures moved { Ready M.Automaton S.Shelf P.Policy self.old → At direction (memory S.Shelf P.Policy self.old) cursor → Moved (subject M.Automaton self.old) (memory S.Shelf P.Policy self.old) direction cursor.set symbol (memory S.Shelf P.Policy self.new) result }
        ensures small { Bounded 1 result.counts }
        ensures kept { Kept M.Automaton S.Shelf self.old self.new }
        ensures heard { ReadingHeard S.Shelf P.Policy self.old direction cursor self.new result.cursor }
    {
        let class = self.automaton.class_of(symbol);
        let here = self.settle(direction, cursor);
        match self.known_from(here.place, class) {
            Some(t) => {
                self.policy.touch(PlaceSet::single(t));
                let counts = Counts {
                    reads: 1,
                    known: 1,
                    dropped: here.gone,
                    ..Counts::default()
                };
                let cursor = Cursor {
                    set: self.sets[t as usize],
                    place: Some(t),
                };
                Move { cursor, counts }
            }
            None => self.build(direction, cursor.set, class, here),
        }
    }
}

// A read by the step rule alone, since one of its sets has no place.
fn plain(cursor: Cursor, gone: usize) -> Move
    ensures cursor { result.cursor ≡ cursor }
    ensures counts { tallied result.counts ≡ record { reads = 1; known = 0; built = 0; plain = 1; dropped = gone } }
{
    let counts = Counts {
        reads: 1,
        plain: 1,
        dropped: gone,
        ..Counts::default()
    };
    Move { cursor, counts }
}
