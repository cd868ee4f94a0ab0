// What sealing knows of a part of a pattern.
ghost use Rattle.std.specs.Prelude.{◌≡◌, ◌<◌, ◌&&◌, ◌||◌};
ghost use Rattle.sets.specs.Positions.{holds};
ghost use Rattle.theory.specs.Seal.{single as atom, joined, chosen, optional};
ghost use Rattle.sealed.specs.Parts.{part_of};

use sets::PositionSet;

// Whether the part is nullable, its first positions and its last ones. The default has no words, and no code makes it.
#[derive(Clone, Copy, Default)]
pub struct Part {
    pub nullable: bool,
    pub first: PositionSet,
    pub last: PositionSet,
}

impl Part {
    pub fn atom(position: u8) -> Part
        requires { position < 64 }
        ensures { part_of result ≡ atom position }
    {
        let own = PositionSet::single(position);
        Part {
            nullable: false,
            first: own,
            last: own,
        }
    }

    pub fn join(self, right: Part) -> Part
        ensures { part_of result ≡ joined (part_of self) (part_of right) }
    {
        Part {
            nullable: self.nullable && right.nullable,
            first: with_if(self.first, self.nullable, right.first),
            last: with_if(right.last, right.nullable, self.last),
        }
    }

    pub fn choice(self, right: Part) -> Part
        ensures { part_of result ≡ chosen (part_of self) (part_of right) }
    {
        Part {
            nullable: self.nullable || right.nullable,
            first: self.first.union(right.first),
            last: self.last.union(right.last),
        }
    }

    pub fn or_empty(self) -> Part
        ensures { part_of result ≡ optional (part_of self) }
    {
        Part {
            nullable: true,
            ..self
        }
    }
}

// `set`, and those of `more` if `both`.
fn with_if(set: PositionSet, both: bool, more: PositionSet) -> PositionSet
    ensures { holds result ≡ (λ p. holds set p || both && holds more p) }
{
    if both { set.union(more) } else { set }
}
