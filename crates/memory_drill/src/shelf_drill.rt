use crate::chance::Chance;
use crate::shelf_model::ShelfModel;
use memory::shelf::Shelf;
use sets::PlaceSet;
use std::alloc::{AllocError, Global};
use std::collections::BTreeSet;
use std::fmt;

// How many calls of each kind were made, and how many answers differed from the model's.
#[derive(Clone, Copy, Default)]
pub struct ShelfTally {
    know: u32,
    note: u32,
    noted: u32,
    full: u32,
    drop: u32,
    empty: u32,
    whole: u32,
    differed: u32,
}

impl fmt::Display for ShelfTally {
    fn fmt<W: fmt::Write>(&self, f: &mut fmt::Formatter<W>) -> fmt::Result {
        let ShelfTally {
            know,
            note,
            noted,
            full,
            drop,
            empty,
            whole,
            differed,
        } = *self;
        write!(
            f,
            "{know} know, {note} note ({noted} noted, {full} at full capacity), {drop} drop, {empty} empty, {whole} whole maps; {differed} differed"
        )
    }
}

impl ShelfTally {
    fn expect(&mut self, same: bool) {
        if !same {
            self.differed = self.differed.saturating_add(1);
        }
    }
}

// A shelf beside its model, and the calls that chance picks for both.
#[derive(Drop)]
struct ShelfDrill<S> {
    heap: Global,
    shelf: S,
    model: ShelfModel,
    chance: Chance,
    tally: ShelfTally,
}

pub fn as_place_set(places: &BTreeSet<u8>) -> PlaceSet {
    places.iter().fold(PlaceSet::empty(), |set, p| set.with(*p))
}

impl<S: Shelf> ShelfDrill<S> {
    fn know(&mut self) {
        let place = self.chance.place(self.model.places());
        let class = self.chance.class();
        self.tally.know = self.tally.know.saturating_add(1);
        self.tally.expect(self.shelf.know(place, class) == self.model.know(place, class));
    }

    fn note(&mut self) -> Result<(), AllocError> {
        let place = self.chance.place(self.model.places());
        let class = self.chance.class();
        let target = self.chance.place(self.model.places());
        self.tally.note = self.tally.note.saturating_add(1);
        if self.model.count() == self.model.capacity() {
            self.tally.full = self.tally.full.saturating_add(1);
        }
        let noted = self.shelf.note(place, class, target);
        if noted {
            self.tally.noted = self.tally.noted.saturating_add(1);
        }
        self.tally
            .expect(noted == self.model.note(place, class, target)?);
        self.tally.expect(self.shelf.count() == self.model.count());
        Ok(())
    }

    // Some places: mostly one, now and then a few, rarely all but one.
    fn some_places(&mut self) -> Result<BTreeSet<u8>, AllocError> {
        let many = self.model.places();
        let mut places = BTreeSet::new(self.heap);
        places.insert(self.chance.place(many))?;
        if self.chance.rarely(2) {
            let more = self.chance.next() & 7;
            for _ in 0..more {
                places.insert(self.chance.place(many))?;
            }
        }
        if self.chance.rarely(16) {
            let held = self.chance.place(many);
            places.extend((0..64u8).filter(|p| *p != held))?;
        }
        Ok(places)
    }

    fn drop_some(&mut self) -> Result<(), AllocError> {
        let places = self.some_places()?;
        self.tally.drop = self.tally.drop.saturating_add(1);
        let gone = self.shelf.drop_places(as_place_set(&places));
        self.tally.expect(gone == self.model.drop_places(&places));
        self.tally.expect(self.shelf.count() == self.model.count());
        Ok(())
    }

    fn empty(&mut self) {
        self.tally.empty = self.tally.empty.saturating_add(1);
        self.shelf.empty();
        self.model.empty();
        self.tally.expect(self.shelf.count() == 0);
    }

    // The whole map, with places and classes past the last.
    fn compare_whole(&mut self) {
        self.tally.whole = self.tally.whole.saturating_add(1);
        self.tally
            .expect(self.shelf.places() == self.model.places());
        self.tally
            .expect(self.shelf.capacity() == self.model.capacity());
        for place in 0..66u8 {
            for class in 0..258u16 {
                self.tally.expect(self.shelf.know(place, class) == self.model.know(place, class));
            }
        }
    }

    fn one_call(&mut self) -> Result<(), AllocError> {
        match self.chance.next() >> 16 & 127 {
            0 => self.drop_some()?,
            1..=80 => self.note()?,
            _ => self.know(),
        }
        if self.chance.rarely(2048) {
            self.empty();
        }
        Ok(())
    }
}

pub fn drill_shelf<S: Shelf + Drop>(
    heap: Global,
    shelf: S,
    model: ShelfModel,
    seed: u64,
) -> Result<ShelfTally, AllocError> {
    let mut drill = ShelfDrill {
        heap,
        shelf,
        model,
        chance: Chance::new(seed),
        tally: ShelfTally::default(),
    };
    drill.empty();
    for i in 0..8000u32 {
        drill.one_call()?;
        if i & 511 == 0 {
            drill.compare_whole();
        }
    }
    Ok(drill.tally)
}
