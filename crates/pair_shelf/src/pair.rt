ghost use Rattle.std.specs.Prelude.{◌≡◌, ◌≤◌, ◌==◌, ◌&&◌, true, length, reverse, take};
ghost use Rattle.std.specs.List.{find};
ghost use Rattle.std.specs.Option.{option_map};
ghost use Rattle.sets.specs.Places.{member};
ghost use Rattle.memory.specs.Steps.{nothing, size};
ghost use Rattle.pair_shelf.specs.Bounded.{table_bounds};
ghost use Rattle.pair_shelf.specs.Pairs.{pairs, distinct, kept};

use crate::step::Step;
use memory::shelf::Shelf;
use sets::PlaceSet;

// Up to 512 steps, no two from one place for one class. Only the first `len` of the table mean anything, so
// that emptying writes one number and a step that is dropped is written over later, if ever.
#[derive(Drop)]
pub struct PairShelf {
    steps: [Step; 512],
    len: usize,
    ghost low: { len ≤ 512 },
    ghost ok: { distinct (take len steps) ≡ true },
}

impl PairShelf {
    // A shelf without a step.
    pub fn new() -> PairShelf
        ensures { pairs (take result.len result.steps) ≡ nothing }
    {
        PairShelf {
            steps: [Step::default(); 512],
            len: 0,
        }
    }
}

impl Shelf for PairShelf {
    ghost room = { λ _. 64 };

    ghost most = { λ _. 512 };

    ghost steps = { λ s. pairs (take s.len s.steps) };

    // It counts the part of its table that is in use, so its count is right always.
    ghost sound = { λ _. Unit {0} };

    ghost bounds = { λ s. table_bounds s.steps s.len s.low s.ok };

    fn places(&self) -> u8 {
        64
    }

    fn capacity(&self) -> usize {
        512
    }

    fn know(&self, place: u8, class: u16) -> Option<u8> {
        find_step(&self.steps[..self.len], place, class)
    }

    fn count(&self) -> usize
        ensures { result ≡ size 64 (pairs (take self.now.len self.now.steps)) }
    {
        self.len
    }

    fn empty(&mut self) {
        self.len = 0;
    }

    fn note(&mut self, place: u8, class: u16, target: u8) -> bool {
        if place >= 64 || target >= 64 || class >= 256 {
            return false;
        }
        if self.len >= 512 || self.know(place, class).is_some() {
            return false;
        }
        self.steps[self.len] = Step {
            place,
            class,
            target,
        };
        self.len += 1;
        true
    }

    fn drop_places(&mut self, places: PlaceSet) -> usize {
        let before = self.len;
        self.len = keep_steps(&mut self.steps, before, places);
        before - self.len
    }
}

fn find_step(steps: &[Step], place: u8, class: u16) -> Option<u8>
    ensures { result ≡ option_map (λ s. s.target) (find (λ s. place == s.place && class == s.class) (reverse steps.now)) }
{
    steps
        .iter()
        .rev()
        .find(|s| place == s.place && class == s.class)
        .map(|s| s.target)
}

// Brings those of the first `len` steps that are neither from nor to the places to the front, in their order,
// and answers how many they are.
fn keep_steps(steps: &mut [Step], len: usize, places: PlaceSet) -> usize
    requires { len ≤ length steps.old }
    ensures few { result ≤ len }
    ensures kept { take result steps.new ≡ kept (member places) (take len steps.old) }
{
    let mut n = 0;
    for i in 0..len {
        let s = steps[i];
        if !s.touches(places) {
            steps[n] = s;
            n += 1;
        }
    }
    n
}
