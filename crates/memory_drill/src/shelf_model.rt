use std::alloc::{AllocError, Global};
use std::collections::{BTreeMap, BTreeSet};

// What a shelf should be: its steps by place and class in a map.
#[derive(Drop)]
pub struct ShelfModel {
    places: u8,
    capacity: usize,
    steps: BTreeMap<(u8, u16), u8>,
}

impl ShelfModel {
    pub fn new(heap: Global, places: u8, capacity: usize) -> ShelfModel {
        ShelfModel {
            places,
            capacity,
            steps: BTreeMap::new(heap),
        }
    }

    pub fn places(&self) -> u8 {
        self.places
    }

    pub fn capacity(&self) -> usize {
        self.capacity
    }

    pub fn count(&self) -> usize {
        self.steps.len()
    }

    pub fn know(&self, place: u8, class: u16) -> Option<u8> {
        self.steps.get(&(place, class)).copied()
    }

    fn may_note(&self, place: u8, class: u16, target: u8) -> bool {
        place < self.places
            && target < self.places
            && class < 256
            && !self.steps.contains_key(&(place, class))
            && self.steps.len() < self.capacity
    }

    pub fn note(&mut self, place: u8, class: u16, target: u8) -> Result<bool, AllocError> {
        let may = self.may_note(place, class, target);
        if may {
            self.steps.insert((place, class), target)?;
        }
        Ok(may)
    }

    pub fn drop_places(&mut self, places: &BTreeSet<u8>) -> usize {
        let before = self.steps.len();
        self.steps.retain(|key, target| !places.contains(&key.0) && !places.contains(&*target));
        before.saturating_sub(self.steps.len())
    }

    pub fn empty(&mut self) {
        self.steps.clear();
    }
}
