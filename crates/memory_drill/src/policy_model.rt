use std::alloc::{AllocError, Global};
use std::collections::BTreeSet;

#[derive(Clone, Copy)]
pub enum Rule {
    FlushAll,
    Clock,
}

// What a policy should be: the live places, and for the clock its marks and its hand.
#[derive(Drop)]
pub struct PolicyModel {
    heap: Global,
    rule: Rule,
    live: BTreeSet<u8>,
    marks: BTreeSet<u8>,
    hand: u8,
}

impl PolicyModel {
    pub fn new(heap: Global, rule: Rule) -> PolicyModel {
        PolicyModel {
            heap,
            rule,
            live: BTreeSet::new(heap),
            marks: BTreeSet::new(heap),
            hand: 0,
        }
    }

    pub fn seat(&mut self, place: u8) -> Result<(), AllocError> {
        if place < 64 {
            self.live.insert(place)?;
            self.marks.insert(place)?;
        }
        Ok(())
    }

    pub fn drop_places(&mut self, places: &BTreeSet<u8>) {
        self.live.retain(|p| !places.contains(p));
    }

    pub fn touch(&mut self, places: &BTreeSet<u8>) -> Result<(), AllocError> {
        self.marks
            .extend(places.iter().copied().filter(|p| *p < 64))
    }

    pub fn choose(&mut self, held: Option<u8>) -> Result<BTreeSet<u8>, AllocError> {
        match self.rule {
            Rule::FlushAll => self.others(held),
            Rule::Clock => self.one_by_clock(held),
        }
    }

    fn others(&self, held: Option<u8>) -> Result<BTreeSet<u8>, AllocError> {
        self.live
            .iter()
            .copied()
            .filter(|p| held != Some(*p))
            .collect(self.heap)
    }

    // The nearest unmarked place upward from the hand and round, once the marks on the way are cleared;
    // if all are marked, the nearest place, once all their marks are cleared.
    fn one_by_clock(&mut self, held: Option<u8>) -> Result<BTreeSet<u8>, AllocError> {
        let others = self.others(held)?;
        let mut chosen = BTreeSet::new(self.heap);
        for _ in 0..2u8 {
            for d in 0..64u8 {
                let p = self.hand.wrapping_add(d) & 63;
                if others.contains(&p) && !self.marks.remove(&p) {
                    chosen.insert(p)?;
                    self.hand = p.wrapping_add(1) & 63;
                    return Ok(chosen);
                }
            }
        }
        Ok(chosen)
    }
}
