// The count of atoms.
ghost use Rattle.std.specs.Prelude.{◌≡◌};
ghost use Rattle.reader.specs.Rows.{surplus};

use super::limits::MOST_ATOMS;
use items::{Item, Placed};

// The place of the first atom past the 63 that a draft can hold.
pub fn surplus_atom(items: &[Placed]) -> Option<usize>
    ensures { result ≡ surplus 63 items.now }
{
    items
        .iter()
        .filter(|placed| matches!(placed.item, Item::Atom))
        .nth(MOST_ATOMS)
        .map(|placed| placed.place)
}
