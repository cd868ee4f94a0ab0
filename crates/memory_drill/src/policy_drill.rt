use crate::chance::Chance;
use crate::policy_model::PolicyModel;
use crate::shelf_drill::as_place_set;
use memory::policy::Policy;
use sets::PlaceSet;
use std::alloc::{AllocError, Global};
use std::collections::BTreeSet;
use std::fmt;

// How many calls of each kind were made, and how many answers differed from the model's.
#[derive(Clone, Copy, Default)]
pub struct PolicyTally {
    seat: u32,
    drop: u32,
    touch: u32,
    choose: u32,
    differed: u32,
}

impl fmt::Display for PolicyTally {
    fn fmt<W: fmt::Write>(&self, f: &mut fmt::Formatter<W>) -> fmt::Result {
        let PolicyTally {
            seat,
            drop,
            touch,
            choose,
            differed,
        } = *self;
        write!(
            f,
            "{seat} seat, {drop} drop, {touch} touch, {choose} choose; {differed} differed"
        )
    }
}

fn same_places(set: PlaceSet, places: &BTreeSet<u8>) -> bool {
    (0..=255u8).all(|p| set.has(p) == places.contains(&p))
}

// A policy beside its model, and the calls that chance picks for both.
#[derive(Drop)]
struct PolicyDrill<P> {
    heap: Global,
    policy: P,
    model: PolicyModel,
    chance: Chance,
    tally: PolicyTally,
}

impl<P: Policy> PolicyDrill<P> {
    fn few_places(&mut self) -> Result<BTreeSet<u8>, AllocError> {
        let mut places = BTreeSet::new(self.heap);
        let n = self.chance.next() & 3;
        for _ in 0..n {
            places.insert(self.chance.place(64))?;
        }
        Ok(places)
    }

    fn seat(&mut self) -> Result<(), AllocError> {
        let place = self.chance.place(64);
        self.tally.seat = self.tally.seat.saturating_add(1);
        self.policy.seat(place);
        self.model.seat(place)
    }

    fn drop(&mut self, places: &BTreeSet<u8>) {
        self.tally.drop = self.tally.drop.saturating_add(1);
        self.policy.drop_places(as_place_set(places));
        self.model.drop_places(places);
    }

    fn touch(&mut self) -> Result<(), AllocError> {
        let places = self.few_places()?;
        self.tally.touch = self.tally.touch.saturating_add(1);
        self.policy.touch(as_place_set(&places));
        self.model.touch(&places)
    }

    fn choose(&mut self) -> Result<(), AllocError> {
        let held = if self.chance.rarely(4) {
            None
        } else {
            Some(self.chance.place(64))
        };
        self.tally.choose = self.tally.choose.saturating_add(1);
        let chosen = self.model.choose(held)?;
        if !same_places(self.policy.choose(held), &chosen) {
            self.tally.differed = self.tally.differed.saturating_add(1);
        }
        if self.chance.rarely(2) {
            self.drop(&chosen);
        }
        Ok(())
    }

    fn one_call(&mut self) -> Result<(), AllocError> {
        match self.chance.next() >> 16 & 7 {
            0..=2 => self.seat()?,
            3 => {
                let places = self.few_places()?;
                self.drop(&places);
            }
            4 => self.touch()?,
            _ => self.choose()?,
        }
        Ok(())
    }
}

pub fn drill_policy<P: Policy + Drop>(
    heap: Global,
    policy: P,
    model: PolicyModel,
    seed: u64,
) -> Result<PolicyTally, AllocError> {
    let mut drill = PolicyDrill {
        heap,
        policy,
        model,
        chance: Chance::new(seed),
        tally: PolicyTally::default(),
    };
    for _ in 0..4000u32 {
        drill.one_call()?;
    }
    Ok(drill.tally)
}
