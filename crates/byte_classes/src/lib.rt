// Bytes as symbols. Two bytes share a class exactly when every test treats them alike,
// and the classes are numbered by their smallest bytes.
#![tactic(auto)]

ghost use Rattle.std.specs.Prelude.{◌≤◌, length};
ghost use Rattle.byte_classes.specs.Tables.{Tabled, Told};

mod answers;
mod table;

use arrayvec::ArrayVec;
use symbols::ByteTest;
use table::ByteTable;

#[derive(Drop)]
pub struct ByteClasses {
    tests: ArrayVec<ByteTest, 63>,
    table: ByteTable,
    ghost few: { length tests.items ≤ 63 },
    ghost right: { Tabled tests.items table },
    ghost told: { Told tests.items table },
}
