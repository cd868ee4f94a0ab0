ghost use Rattle.std.specs.Prelude.{◌≡◌};
ghost use Rattle.sets.specs.Members.{none};
ghost use Rattle.sets.specs.Places.{member};
ghost use Rattle.policies.specs.Heard.{flush_hears};
ghost use Rattle.sets.proofs.Known.{members_low};

use crate::others::without_held;
use memory::policy::Policy;
use sets::PlaceSet;

// The policy that gives up every live place but the held one.
#[derive(Clone, Copy)]
pub struct FlushAll {
    live: PlaceSet,
}

impl FlushAll {
    // A policy that was told of no live place.
    pub fn new() -> FlushAll
        ensures { member result.live ≡ none }
    {
        FlushAll {
            live: PlaceSet::empty(),
        }
    }
}

impl Policy for FlushAll {
    ghost live = { λ s. member s.live };

    ghost hears = { λ a e b. flush_hears (member a.live) e (member b.live) };

    ghost low = { λ s k e. members_low s.live k e };

    fn seat(&mut self, place: u8) {
        self.live = self.live.with(place);
    }

    fn drop_places(&mut self, places: PlaceSet) {
        self.live = self.live.minus(places);
    }

    fn touch(&mut self, _places: PlaceSet) {}

    fn choose(&mut self, held: Option<u8>) -> PlaceSet {
        without_held(self.live, held)
    }
}
