ghost use Rattle.std.specs.Prelude.{◌≡◌, ℕ, ◌+◌, Option};
ghost use Rattle.sets.specs.Places.{member};
ghost use Rattle.memory.specs.Steps.{without, size, Bounds, notable, after, nothing};

use sets::PlaceSet;

// A shelf keeps known steps: from a place, at a class of symbols, to a place.
pub trait Shelf {
    // How many places it has; its places are those below.
    ghost room: { Self → ℕ };

    // Its capacity: how many steps it can hold.
    ghost most: { Self → ℕ };

    // Its map from place and class to place.
    ghost steps: { Self → ℕ → ℕ → Option ℕ };

    // That the numbers it keeps beside its map agree with the map. True from its emptying on;
    // the map itself does not rest on it.
    ghost sound: { Self → Type 0 };

    // What every shelf proves of its places, its capacity and its map.
    ghost bounds: { (s : Self) → Bounds (room s) (most s) (steps s) };

    fn places(&self) -> u8
        ensures { result ≡ room self.now };

    fn capacity(&self) -> usize
        ensures { result ≡ most self.now };

    // Where the step from the place at the class leads, if it is known.
    fn know(&self, place: u8, class: u16) -> Option<u8>
        ensures { result ≡ steps self.now place class };

    // How many steps it holds.
    fn count(&self) -> usize
        ensures { sound self.now → result ≡ size (room self.now) (steps self.now) };

    // Drops every step, whatever was there.
    fn empty(&mut self)
        ensures room { room self.new ≡ room self.old }
        ensures most { most self.new ≡ most self.old }
        ensures map { steps self.new ≡ nothing }
        ensures sound { sound self.new };

    // Adds the step, or answers false and changes nothing.
    fn note(&mut self, place: u8, class: u16, target: u8) -> bool
        ensures room { room self.new ≡ room self.old }
        ensures most { most self.new ≡ most self.old }
        ensures sound { sound self.old → sound self.new }
        ensures answer { result ≡ notable (room self.old) (most self.old) (steps self.old) place class target }
        ensures map { steps self.new ≡ after result (steps self.old) place class target };

    // Drops the steps from or to the places, and answers how many they were.
    fn drop_places(&mut self, places: PlaceSet) -> usize
        ensures room { room self.new ≡ room self.old }
        ensures most { most self.new ≡ most self.old }
        ensures sound { sound self.old → sound self.new }
        ensures map { steps self.new ≡ without (steps self.old) (member places) }
        ensures answer { result + size (room self.new) (steps self.new) ≡ size (room self.old) (steps self.old) };
}
