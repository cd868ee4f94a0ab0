// A pattern's positions, put together code by code.
ghost use Rattle.std.specs.Prelude.{◌≤◌, length};

mod steps;

use crate::part::Part;
use arrayvec::ArrayVec;
use sets::PositionSet;

// The parts wait for their operators; row p of `next` has what follows p in any of them.
#[derive(Drop)]
pub struct Assembly {
    pub atoms: u8,
    pub parts: ArrayVec<Part, 63>,
    pub next: [PositionSet; 64],
    ghost bounded: { (length parts.items ≤ atoms) × (atoms ≤ 63) },
}
