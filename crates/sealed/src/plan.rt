// The positions of a pattern, and its codes, which say what pattern it is.
ghost use Rattle.std.specs.Prelude.{◌≤◌, take};
ghost use Rattle.pattern.specs.Codes.{tree};
ghost use Rattle.theory.specs.Positions.{positions, atoms};
ghost use Rattle.sealed.specs.Shown.{Shows};

mod answers;
mod making;

use crate::tables::Tables;
use pattern::Code;

#[derive(Clone, Copy)]
pub struct Plan {
    codes: [Code; 1023],
    used: usize,
    tables: Tables,
    ghost few: { atoms (tree (take used codes)) ≤ 63 },
    ghost right: { Shows (positions (tree (take used codes))) tables },
}
