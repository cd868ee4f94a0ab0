ghost use Rattle.std.specs.Prelude.{◌≡◌, ℕ, ◌<◌, Bool, true};
ghost use Rattle.sets.specs.Members.{plus, less};
ghost use Rattle.sets.specs.Places.{member};
ghost use Rattle.memory.specs.Live.{May, News};
ghost use Rattle.memory.specs.Live.News.{seated, dropped, met, chose};

use sets::PlaceSet;

// A policy chooses which places are given up when all are taken.
pub trait Policy {
    // The live places that it was told of.
    ghost live: { Self → ℕ → Bool };

    // How it goes on when it hears something: whatever it keeps beside the live places, and how it chooses.
    ghost hears: { Self → News → Self → Type 0 };

    // A set was seated at the place.
    fn seat(&mut self, place: u8)
        ensures live { live self.new ≡ plus 64 (live self.old) place }
        ensures hears { hears self.old (seated place) self.new };

    // The places were dropped.
    fn drop_places(&mut self, places: PlaceSet)
        ensures live { live self.new ≡ less (live self.old) (member places) }
        ensures hears { hears self.old (dropped (member places)) self.new };

    // The places were met again.
    fn touch(&mut self, places: PlaceSet)
        ensures live { live self.new ≡ live self.old }
        ensures hears { hears self.old (met (member places)) self.new };

    // The places to drop: live ones without the held one, and none only if there is no such place.
    fn choose(&mut self, held: Option<u8>) -> PlaceSet
        ensures same { live self.new ≡ live self.old }
        ensures within { (k : ℕ) → member result k ≡ true → May (live self.old) held k }
        ensures some { (k : ℕ) → May (live self.old) held k → (j : ℕ) × (member result j ≡ true) }
        ensures hears { hears self.old (chose held (member result)) self.new };

    ghost low: { (s : Self) (k : ℕ) → live s k ≡ true → k < 64 };
}
