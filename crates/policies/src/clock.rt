ghost use Rattle.std.specs.Prelude.{◌≡◌, ℕ, ◌<◌, true};
ghost use Rattle.sets.specs.Members.{none, less};
ghost use Rattle.sets.specs.Places.{member};
ghost use Rattle.memory.specs.Live.{May};
ghost use Rattle.memory.specs.Live.News.{dropped, met, chose};
ghost use Rattle.policies.specs.Heard.{clock_hears, way_from};
ghost use Rattle.policies.specs.Round.{next, way, round, only, hand_after};
ghost use Rattle.sets.proofs.Known.{members_low};

use crate::others::without_held;
use memory::policy::Policy;
use sets::PlaceSet;

// The policy with a mark for each place and a hand that goes round, the second chance of paging.
#[derive(Clone, Copy)]
pub struct Clock {
    live: PlaceSet,
    marks: PlaceSet,
    hand: u8,
    ghost low: { hand < 64 },
}

// Where the clock stops, and the marks that are left.
#[derive(Clone, Copy)]
struct Stop {
    found: Option<u8>,
    marks: PlaceSet,
}

impl Clock {
    // A clock that was told of no live place, without a mark, its hand at place 0.
    pub fn new() -> Clock
        ensures live { member result.live ≡ none }
        ensures marks { member result.marks ≡ none }
        ensures hand { result.hand ≡ 0 }
    {
        Clock {
            live: PlaceSet::empty(),
            marks: PlaceSet::empty(),
            hand: 0,
        }
    }
}

impl Policy for Clock {
    ghost use Rattle.policies.specs.Clock.{face_of};

    ghost live = { λ s. member s.live };

    ghost hears = { λ a e b. clock_hears (face_of a) e (face_of b) };

    ghost low = { λ s k e. members_low s.live k e };

    fn seat(&mut self, place: u8) {
        self.live = self.live.with(place);
        self.marks = self.marks.with(place);
    }

    // The marks and the hand stay: only a choice moves the hand.
    fn drop_places(&mut self, places: PlaceSet)
        ensures live { member self.new.live ≡ less (member self.old.live) (member places) }
        ensures marks { self.new.marks ≡ self.old.marks }
        ensures hears { clock_hears (face_of self.old) (dropped (member places)) (face_of self.new) }
    {
        self.live = self.live.minus(places);
    }

    fn touch(&mut self, places: PlaceSet)
        ensures live { self.new.live ≡ self.old.live }
        ensures hears { clock_hears (face_of self.old) (met (member places)) (face_of self.new) }
    {
        self.marks = self.marks.union(places);
    }

    fn choose(&mut self, held: Option<u8>) -> PlaceSet
        ensures same { member self.new.live ≡ member self.old.live }
        ensures within { (k : ℕ) → member result k ≡ true → May (member self.old.live) held k }
        ensures some { (k : ℕ) → May (member self.old.live) held k → (j : ℕ) × (member result j ≡ true) }
        ensures hears { clock_hears (face_of self.old) (chose held (member result)) (face_of self.new) }
        ensures answer { member result ≡ only (way_from (face_of self.old) held).found }
        ensures marks { member self.new.marks ≡ (way_from (face_of self.old) held).marks }
        ensures hand { self.new.hand ≡ hand_after (way_from (face_of self.old) held).found self.old.hand }
    {
        let stop = go_round(without_held(self.live, held), self.marks, self.hand);
        self.marks = stop.marks;
        match stop.found {
            Some(p) => {
                self.hand = behind(p);
                PlaceSet::single(p)
            }
            None => PlaceSet::empty(),
        }
    }
}

fn behind(p: u8) -> u8
    ensures is { result ≡ next p }
    ensures low { result < 64 }
{
    if p < 63 { p + 1 } else { 0 }
}

// The way of the hand, twice round at most.
fn go_round(may: PlaceSet, start: PlaceSet, hand: u8) -> Stop
    ensures { way result.found (member result.marks) ≡ round (member may) (member start) hand }
{
    let mut marks = start;
    let mut at = hand;
    for _ in 0..128u8 {
        if may.has(at) {
            if !marks.has(at) {
                return Stop {
                    found: Some(at),
                    marks,
                };
            }
            marks = marks.without(at);
        }
        at = behind(at);
    }
    Stop { found: None, marks }
}
