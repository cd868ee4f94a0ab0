ghost use Rattle.std.specs.Prelude.{◌≡◌, ◌+◌, ◌*◌, length};
ghost use Rattle.sets.specs.Places.{member};
ghost use Rattle.memory.specs.Steps.{size, nothing, notable, after, without};
ghost use Rattle.dense_shelf.specs.Bounded.{bounds_of_rows};
ghost use Rattle.dense_shelf.specs.Kept.{map_in, Untouched};
ghost use Rattle.dense_shelf.specs.Rows.{rows as served};

use crate::rows::Rows;
use crate::watermark::Watermark;
use memory::shelf::Shelf;
use sets::PlaceSet;
use std::marker::Model;

// A shelf on lent bytes, 256 for each place: one row of places for each class, and in it the target
// of each place's step. Only the rows of the classes used so far mean anything, so that emptying
// writes no byte.
#[derive(Drop)]
pub struct DenseShelf<'a> {
    rows: Rows<'a>,
    count: usize,
}

// It means its rows; the count beside them is the size of their map.
impl<'a> Model for DenseShelf<'a> {
    ghost use Rattle.dense_shelf.specs.Kept.{counted};
    ghost use Rattle.dense_shelf.specs.declared.rows.Rows.{Rows};

    ghost Value = { Rows };

    ghost view = { λ s. s.rows };

    ghost invariant = { λ s. counted s.rows s.count };
}

impl<'a> DenseShelf<'a> {
    // A shelf on the bytes, without a step, whatever the bytes are.
    pub fn new(bytes: &'a mut [u8]) -> DenseShelf<'a>
        ensures bytes { result.bytes.now ≡ bytes.old }
        ensures lender { result.bytes.ghost_name ≡ bytes.entry.ghost_name }
        ensures room { result.places ≡ served (length bytes.old) }
        ensures map { map_in result ≡ nothing }
    {
        DenseShelf {
            rows: Rows::new(bytes),
            count: 0,
        }
    }
}

impl<'a> Shelf for DenseShelf<'a> {
    ghost room = { λ r. r.places };

    ghost most = { λ r. 256 * r.places };

    ghost steps = { λ r. map_in r };

    // Its count is right always, by the invariant of its type.
    ghost sound = { λ _. Unit {0} };

    ghost bounds = { λ r. bounds_of_rows r.bytes.now r.places r.used.classes r.few r.used.low };

    fn places(&self) -> u8 {
        self.rows.places
    }

    fn capacity(&self) -> usize {
        256 * self.places() as usize
    }

    fn know(&self, place: u8, class: u16) -> Option<u8> {
        self.rows.know(place, class)
    }

    fn count(&self) -> usize
        ensures { result ≡ size self.now.places (map_in self.now) }
    {
        self.count
    }

    fn empty(&mut self)
        ensures room { self.new.places ≡ self.old.places }
        ensures most { 256 * self.new.places ≡ 256 * self.old.places }
        ensures map { map_in self.new ≡ nothing }
        ensures sound { Unit {0} }
        ensures untouched { Untouched self.old self.new }
    {
        self.rows.used = Watermark { classes: 0 };
        self.count = 0;
    }

    fn note(&mut self, place: u8, class: u16, target: u8) -> bool
        ensures room { self.new.places ≡ self.old.places }
        ensures most { 256 * self.new.places ≡ 256 * self.old.places }
        ensures sound { Unit {0} → Unit {0} }
        ensures answer { result ≡ notable self.old.places (256 * self.old.places) (map_in self.old) place class target }
        ensures map { map_in self.new ≡ after result (map_in self.old) place class target }
        ensures untouched { Untouched self.old self.new }
    {
        let new = self.rows.note(place, class, target);
        if new {
            self.count = self.count.saturating_add(1);
        }
        new
    }

    fn drop_places(&mut self, places: PlaceSet) -> usize
        ensures room { self.new.places ≡ self.old.places }
        ensures most { 256 * self.new.places ≡ 256 * self.old.places }
        ensures sound { Unit {0} → Unit {0} }
        ensures map { map_in self.new ≡ without (map_in self.old) (member places) }
        ensures answer { result + size self.new.places (map_in self.new) ≡ size self.old.places (map_in self.old) }
        ensures untouched { Untouched self.old self.new }
    {
        let gone = self.rows.forget(places);
        self.count = self.count.saturating_sub(gone);
        gone
    }
}
