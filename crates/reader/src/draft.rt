// The draft of a pattern: the tests of its atoms, in text order, and its codes in postfix order.
ghost use Rattle.std.specs.Prelude.{◌≡◌, ◌≤◌, length};

use super::limits::{MOST_ATOMS, MOST_CODES};
use pattern::Code;

mod contents;
mod lexing;
mod reading;

#[derive(Drop)]
pub struct Draft<T> {
    tests: [T; MOST_ATOMS],
    atoms: usize,
    codes: [Code; MOST_CODES],
    used: usize,
    ghost counts: { (atoms ≤ 63) × (used ≤ 1023) },
    ghost tables: { (length tests ≡ 63) × (length codes ≡ 1023) },
}
