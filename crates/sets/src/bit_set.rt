ghost use Rattle.std.specs.Prelude.{◌≡◌, ℕ, ◌<◌, ◌≤◌, true, false, Decides, MatchBool, MatchOption, ◌≢◌};
ghost use Rattle.sets.specs.BitSets.{members};
ghost use Rattle.sets.specs.Lowest.{LowestFree, LowestFrom};
ghost use Rattle.sets.specs.Positions.{alike};
ghost use Rattle.sets.specs.Members.{none, below, plus, except, less, either, shared, Meet, tally};

use std::marker::PhantomData;

// A place of the memory.
pub enum Place {}

// A position of a pattern.
pub enum Position {}

// A set of numbers 0 to 63 that are of one kind. A number above 63 is never a member.
#[derive_where(Clone, Copy, Default, PartialEq, Eq)]
pub struct BitSet<K> {
    bits: u64,
    kind: PhantomData<K>,
}

pub type PlaceSet = BitSet<Place>;

pub type PositionSet = BitSet<Position>;

impl<K> BitSet<K> {
    pub fn empty() -> BitSet<K>
        ensures { members result ≡ none }
    {
        BitSet {
            bits: 0,
            kind: PhantomData,
        }
    }

    pub fn all() -> BitSet<K>
        ensures { members result ≡ below 64 }
    {
        BitSet {
            bits: u64::MAX,
            kind: PhantomData,
        }
    }

    pub fn single(p: u8) -> BitSet<K>
        ensures { members result ≡ plus 64 none p }
    {
        BitSet::empty().with(p)
    }

    pub fn has(self, p: u8) -> bool
        ensures { result ≡ members self p }
    {
        p < 64 && (self.bits >> p) & 1 == 1
    }

    pub fn with(self, p: u8) -> BitSet<K>
        ensures { members result ≡ plus 64 (members self) p }
    {
        if p < 64 {
            BitSet {
                bits: self.bits | (1 << p),
                ..self
            }
        } else {
            self
        }
    }

    pub fn without(self, p: u8) -> BitSet<K>
        ensures { members result ≡ except (members self) p }
    {
        self.minus(BitSet::single(p))
    }

    pub fn minus(self, other: BitSet<K>) -> BitSet<K>
        ensures { members result ≡ less (members self) (members other) }
    {
        BitSet {
            bits: self.bits & !other.bits,
            ..self
        }
    }

    pub fn union(self, other: BitSet<K>) -> BitSet<K>
        ensures { members result ≡ either (members self) (members other) }
    {
        BitSet {
            bits: self.bits | other.bits,
            ..self
        }
    }

    pub fn intersection(self, other: BitSet<K>) -> BitSet<K>
        ensures { members result ≡ shared (members self) (members other) }
    {
        BitSet {
            bits: self.bits & other.bits,
            ..self
        }
    }

    pub fn is_empty(self) -> bool
        ensures { MatchBool result (members self ≡ none) ((k : ℕ) × (members self k ≡ true)) }
    {
        self.bits == 0
    }

    // Have the two a member in common?
    pub fn meets(self, other: BitSet<K>) -> bool
        ensures { Decides result (Meet (members self) (members other)) }
    {
        !self.intersection(other).is_empty()
    }

    pub fn count(self) -> u8
        ensures { result ≡ tally (members self) 64 }
    {
        self.bits.count_ones() as u8
    }

    // The lowest number that is not in the set; none if the set has every one.
    pub fn lowest_free(self) -> Option<u8>
        ensures { MatchOption result (members self ≡ below 64) (LowestFree (members self)) }
    {
        let p = (!self.bits).trailing_zeros() as u8;
        if p < 64 { Some(p) } else { None }
    }

    // The lowest member that is not below `from`.
    pub fn lowest_from(self, from: u8) -> Option<u8>
        ensures { MatchOption result ((k : ℕ) → from ≤ k → members self k ≡ false) (LowestFrom (members self) from) }
    {
        if from >= 64 {
            return None;
        }
        let p = (self.bits >> from).trailing_zeros() as u8;
        if p < 64 { Some(from + p) } else { None }
    }

    // The member of a set that has exactly one.
    pub fn sole(self) -> Option<u8>
        ensures { MatchOption result ((p : ℕ) → p < 64 → members self ≢ plus 64 none p) (λ p. (p < 64) × (members self ≡ plus 64 none p)) }
    {
        let p = self.bits.trailing_zeros() as u8;
        if p < 64 && self.bits == 1 << p {
            Some(p)
        } else {
            None
        }
    }
}

// Two sets are equal exactly if they have the same members.
pub fn equality_stands<K>(_one: BitSet<K>, _other: BitSet<K>)
    ensures value { ⟦<BitSet<K> as PartialEq>⟧.eq _one _other ≡ alike _one _other }
    ensures members { Decides (⟦<BitSet<K> as PartialEq>⟧.eq _one _other) (members _one ≡ members _other) }
{}
