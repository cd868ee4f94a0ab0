// What the step rule needs to know of a pattern's positions.
ghost use Rattle.std.specs.Prelude.{◌≡◌, ◌≤◌, None, MatchOption};
ghost use Rattle.theory.specs.Positions.{positions};
ghost use Rattle.pattern.specs.Codes.{tree};
ghost use Rattle.sealed.specs.Parts.{part_of};
ghost use Rattle.sealed.specs.Tables.{entry};
ghost use Rattle.sealed.specs.Shown.{Shows, whole};
ghost use Rattle.sealed.specs.Assembling.{atom_codes};

use crate::assembly::Assembly;
use crate::part::Part;
use crate::rows::transposed;
use pattern::Code;
use sets::PositionSet;

// Row p of `next` has the positions that follow p, and row q of `prior` those that q follows. The row 0 of `next` has the
// first positions, and that of `prior` the last.
#[derive(Clone, Copy)]
pub struct Tables {
    pub nullable: bool,
    pub next: [PositionSet; 64],
    pub prior: [PositionSet; 64],
}

impl Tables {
    // The tables of a pattern without words.
    pub fn none() -> Tables
        ensures { Shows (positions None) result }
    {
        let none = PositionSet::empty();
        Tables {
            nullable: false,
            next: [none; 64],
            prior: [none; 64],
        }
    }

    // The tables of a pattern that is one part.
    fn finished(part: Part, follow: &[PositionSet; 64]) -> Tables
        ensures { Shows (whole (part_of part) (entry follow.now)) result }
    {
        let mut next = *follow;
        let mut prior = transposed(follow);
        next[0] = part.first;
        prior[0] = part.last;
        Tables {
            nullable: part.nullable,
            next,
            prior,
        }
    }

    // The tables of the codes' pattern, unless they are of none.
    fn assembled(codes: &[Code]) -> Option<Tables>
        requires { atom_codes codes.now ≤ 63 }
        ensures { MatchOption result (positions (tree codes.now) ≡ positions None) (Shows (positions (tree codes.now))) }
    {
        let mut assembly = Assembly::new();
        for code in codes {
            assembly.step(*code)?;
        }
        match assembly.parts.as_slice() {
            [part] => Some(Tables::finished(*part, &assembly.next)),
            _ => None,
        }
    }

    pub fn of(codes: &[Code]) -> Tables
        requires { atom_codes codes.now ≤ 63 }
        ensures { Shows (positions (tree codes.now)) result }
    {
        Tables::assembled(codes).unwrap_or_else(Tables::none)
    }
}
