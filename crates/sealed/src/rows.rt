// Tables of which positions follow which.
ghost use Rattle.std.specs.Prelude.{◌≡◌, ℕ, ◌&&◌};
ghost use Rattle.sets.specs.Positions.{holds, width};
ghost use Rattle.theory.specs.Masks.{some};
ghost use Rattle.theory.specs.Seal.{link};
ghost use Rattle.sealed.specs.Tables.{entry, column};

use alphabet::set_at;
use sets::PositionSet;
use std::array;

// Each position of `last` is followed by each of `first` too.
pub fn link_rows(rows: &mut [PositionSet; 64], last: PositionSet, first: PositionSet)
    ensures { entry rows.new ≡ link (holds last) (holds first) (entry rows.old) }
{
    for p in last {
        rows[p as usize] = rows[p as usize].union(first);
    }
}

// Row p; one that is not there is empty.
pub fn row(rows: &[PositionSet; 64], p: u8) -> PositionSet
    ensures { holds result ≡ entry rows.now p }
{
    set_at(rows, p as usize)
}

// The rows that have q.
fn column(rows: &[PositionSet; 64], q: u8) -> PositionSet
    ensures { holds result ≡ column rows.now q }
{
    let mut set = PositionSet::empty();
    for p in 0..64u8 {
        if rows[p as usize].has(q) {
            set = set.with(p);
        }
    }
    set
}

pub fn transposed(rows: &[PositionSet; 64]) -> [PositionSet; 64]
    ensures { (p q : ℕ) → entry result q p ≡ entry rows.now p q }
{
    array::from_fn(|q| column(rows, q as u8))
}

// The rows of the members, united.
pub fn united(rows: &[PositionSet; 64], members: PositionSet) -> PositionSet
    ensures { (q : ℕ) → holds result q ≡ some width (λ p. holds members p && entry rows.now p q) }
{
    let mut all = PositionSet::empty();
    for p in members {
        all = all.union(rows[p as usize]);
    }
    all
}
