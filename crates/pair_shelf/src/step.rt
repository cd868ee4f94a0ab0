ghost use Rattle.std.specs.Prelude.{◌≡◌, ◌||◌};
ghost use Rattle.sets.specs.Places.{member};

use sets::PlaceSet;

// A known step: from a place, at a class, to a target.
#[derive(Clone, Copy, Default, Debug, PartialEq, Eq)]
pub struct Step {
    pub place: u8,
    pub class: u16,
    pub target: u8,
}

impl Step {
    // Does it lead from or to one of the places?
    pub(crate) fn touches(&self, places: PlaceSet) -> bool
        ensures { result ≡ (member places self.now.place || member places self.now.target) }
    {
        places.has(self.place) || places.has(self.target)
    }
}
