// The table of classes, made from the tests.
ghost use Rattle.std.specs.Prelude.{◌≡◌, ℕ, ◌<◌, slice_index};
ghost use Rattle.byte_classes.specs.Tables.{Tabled, Told, row, FirstLike};

use alphabet::passed;
use arrayvec::ArrayVec;
use sets::PositionSet;
use std::array;
use symbols::ByteTest;

// The class of each byte, and the tests that each class passes.
#[derive(Drop)]
pub struct ByteTable {
    pub class: [u8; 256],
    pub passing: ArrayVec<PositionSet, 256>,
}

// The answers of the tests to a byte, as the digits of a number to the base 2.
fn row(tests: &ArrayVec<ByteTest, 63>, byte: u8) -> u64
    ensures { result ≡ row tests.now.items byte }
{
    let mut digits = 0;
    for test in tests.iter() {
        digits = digits * 2 + u64::from(test.passes(byte));
    }
    digits
}

fn rows(tests: &ArrayVec<ByteTest, 63>) -> [u64; 256]
    ensures { (b : ℕ) → b < 256 → slice_index result b ≡ row tests.now.items b }
{
    array::from_fn(|byte| row(tests, byte as u8))
}

// The smallest byte with the row that `byte` has.
fn first_like(rows: &[u64; 256], byte: usize) -> usize
    requires { byte < 256 }
    ensures { FirstLike rows.now byte result }
{
    rows.iter()
        .position(|row| *row == rows[byte])
        .unwrap_or(byte)
}

pub fn tabulate(tests: &ArrayVec<ByteTest, 63>) -> ByteTable
    ensures classes { Tabled tests.now.items result }
    ensures passing { Told tests.now.items result }
{
    let rows = rows(tests);
    let mut class = [0; 256];
    let mut passing = ArrayVec::new();
    for byte in 0..256 {
        let like = first_like(&rows, byte);
        if like == byte {
            class[byte] = passing.len() as u8;
            passing.push(passed(tests, |test| test.passes(byte as u8)));
        } else {
            class[byte] = class[like];
        }
    }
    ByteTable { class, passing }
}
