// How a set is given a place, and how places are given up.
ghost use Rattle.std.specs.Prelude.{◌≡◌, ℕ, ◌+◌, ◌<◌, ◌≤◌, [], ◌∷◌, None, Decides, MatchOption};
ghost use Rattle.sets.specs.Members.{less};
ghost use Rattle.sets.specs.Places.{member};
ghost use Rattle.law.specs.Memory.{without_places, with_set, steps_known, Seated};
ghost use Rattle.memory.specs.Live.News.{seated, dropped};
ghost use Rattle.search.specs.Heard.{Heard, SeatingHeard, SettlingHeard};
ghost use Rattle.search.specs.Remembered.{memory, state, SeatedAt, backward, marked, Kept, At};

use crate::scanner::{Cursor, Scanner, Seating};
use automaton::Automaton;
use memory::policy::Policy;
use memory::shelf::Shelf;
use sets::{PlaceSet, PositionSet};
use theory::Direction;

fn is_back(direction: Direction) -> bool
    ensures { result ≡ backward direction }
{
    match direction {
        Direction::Ahead => false,
        Direction::Back => true,
    }
}

fn mark(places: PlaceSet, place: u8, on: bool) -> PlaceSet
    requires { place < 64 }
    ensures { member result ≡ marked (member places) place on }
{
    if on {
        places.with(place)
    } else {
        places.without(place)
    }
}

impl<'p, M: Automaton, S: Shelf, P: Policy> Scanner<'p, M, S, P> {
    // Is the set live at the place, for the direction?
    fn holds_at(&self, place: u8, set: PositionSet, direction: Direction) -> bool
        requires { place < 64 }
        ensures { Decides result (SeatedAt self.now set direction place) }
    {
        if !self.live.has(place) {
            return false;
        }
        if self.back.has(place) != is_back(direction) {
            return false;
        }
        self.sets[place as usize] == set
    }

    // The place where the set is live for the direction.
    fn place_of(&self, set: PositionSet, direction: Direction) -> Option<u8>
        ensures { MatchOption result ((p : ℕ) → p < 64 → SeatedAt self.now set direction p → ⊥) (λ p. (p < 64) × SeatedAt self.now set direction p) }
    {
        (0..64u8).find(|&p| self.holds_at(p, set, direction))
    }

    // Drops the places, with the steps from and to them, and says how many steps those were.
    pub(in crate::scanner) fn drop_these(&mut self, places: PlaceSet) -> usize
        ensures dropped { memory S.Shelf P.Policy self.new ≡ without_places (memory S.Shelf P.Policy self.old) (member places) }
        ensures gone { result + steps_known (without_places (memory S.Shelf P.Policy self.old) (member places)) ≡ steps_known (memory S.Shelf P.Policy self.old) }
        ensures live { member self.new.live ≡ less (member self.old.live) (member places) }
        ensures kept { Kept M.Automaton S.Shelf self.old self.new }
        ensures heard { Heard P.Policy self.old.policy (dropped (member places) ∷ []) self.new.policy }
    {
        let gone = self.shelf.drop_places(places);
        self.policy.drop_places(places);
        self.live = self.live.minus(places);
        gone
    }

    // Seats the set at a place.
    fn put(&mut self, place: u8, set: PositionSet, direction: Direction)
        requires { place < 64 }
        ensures put { memory S.Shelf P.Policy self.new ≡ with_set (memory S.Shelf P.Policy self.old) place (state direction set) }
        ensures kept { Kept M.Automaton S.Shelf self.old self.new }
        ensures heard { Heard P.Policy self.old.policy (seated place ∷ []) self.new.policy }
    {
        let back = mark(self.back, place, is_back(direction));
        let begins = mark(self.begins, place, self.automaton.has_first(set));
        let ends = mark(self.ends, place, self.automaton.has_last(set));
        let empties = mark(self.empties, place, self.automaton.is_empty(set));
        self.sets[place as usize] = set;
        self.live = self.live.with(place);
        self.back = back;
        self.begins = begins;
        self.ends = ends;
        self.empties = empties;
        self.policy.seat(place);
    }

    // Seats the set, while a place may be held.
    pub(in crate::scanner) fn seat(
        &mut self,
        set: PositionSet,
        direction: Direction,
        held: Option<u8>,
    ) -> Seating
        ensures seated { Seated (memory S.Shelf P.Policy self.old) (state direction set) held (memory S.Shelf P.Policy self.new) result.place result.gone }
        ensures small { result.gone ≤ 16384 }
        ensures kept { Kept M.Automaton S.Shelf self.old self.new }
        ensures heard { SeatingHeard S.Shelf P.Policy self.old set direction held self.new result.place }
    {
        if let Some(p) = self.place_of(set, direction) {
            self.policy.touch(PlaceSet::single(p));
            return Seating {
                place: Some(p),
                gone: 0,
            };
        }
        let mut gone = 0;
        if self.live.count() >= self.allowance() {
            let places = self.policy.choose(held);
            if places.is_empty() {
                return Seating {
                    place: None,
                    gone: 0,
                };
            }
            gone = self.drop_these(places);
        }
        match self.live.lowest_free() {
            Some(p) => {
                self.put(p, set, direction);
                Seating {
                    place: Some(p),
                    gone,
                }
            }
            None => unreachable(),
        }
    }

    // Seats the set of a cursor, holding nothing; where its place is known, the set is found live there.
    pub(in crate::scanner) fn settle(&mut self, direction: Direction, cursor: Cursor) -> Seating
        ensures seated { At direction (memory S.Shelf P.Policy self.old) cursor → Seated (memory S.Shelf P.Policy self.old) (state direction cursor.set) None (memory S.Shelf P.Policy self.new) result.place result.gone }
        ensures small { result.gone ≤ 16384 }
        ensures kept { Kept M.Automaton S.Shelf self.old self.new }
        ensures heard { SettlingHeard S.Shelf P.Policy self.old direction cursor self.new result.place }
    {
        match cursor.place {
            Some(p) => {
                self.policy.touch(PlaceSet::single(p));
                Seating {
                    place: Some(p),
                    gone: 0,
                }
            }
            None => self.seat(cursor.set, direction, None),
        }
    }
}
