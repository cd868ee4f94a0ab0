ghost use Rattle.std.specs.Prelude.{◌≡◌, ◌+◌, ◌-◌, ℕ, ◌≤◌, false, MatchOption};
ghost use Rattle.std.specs.Iterator.{at_most};
ghost use Rattle.sets.specs.BitSets.{members};
ghost use Rattle.sets.specs.Lowest.{LowestFrom};

use crate::bit_set::BitSet;

// The members of a set from `from` on, the lowest first.
#[derive_where(Clone, Copy)]
pub struct Iter<K> {
    set: BitSet<K>,
    from: u8,
}

impl<K> Iterator for Iter<K> {
    type Item = u8;

    ghost remaining = { λ s. at_most (64 - s.from) };

    ghost next_gives = { λ a r b. MatchOption r ((k : ℕ) → a.from ≤ k → members a.set k ≡ false) (λ p. LowestFrom (members a.set) a.from p × (b.set ≡ a.set) × (b.from ≡ p + 1)) };

    fn next(&mut self) -> Option<u8> {
        let p = self.set.lowest_from(self.from)?;
        self.from = p + 1;
        Some(p)
    }
}

impl<K> IntoIterator for BitSet<K> {
    type Item = u8;

    type IntoIter = Iter<K>;

    ghost into_iter_gives = { λ s i. (i.set ≡ s) × (i.from ≡ 0) };

    fn into_iter(self) -> Iter<K> {
        Iter { set: self, from: 0 }
    }
}
