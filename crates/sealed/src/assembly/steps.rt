// The steps of sealing: what each code does to the parts. A code that lacks an operand is of no pattern.
ghost use Rattle.std.specs.Prelude.{◌≡◌, ◌+◌, ◌<◌, ◌≤◌, List, [], ◌∷◌, Some};
ghost use Rattle.pattern.specs.declared.Code.{Code as Codes};
ghost use Rattle.pattern.specs.declared.Code.TheVariants.{Atom, Join, Choice, Plus, Maybe};
ghost use Rattle.theory.specs.Seal.{sealed, or_none};
ghost use Rattle.sealed.specs.Assembling.{Taken, rest, atom_codes};

use crate::assembly::Assembly;
use crate::part::Part;
use crate::rows::link_rows;
use arrayvec::ArrayVec;
use pattern::Code;
use sets::PositionSet;

impl Assembly {
    pub fn new() -> Assembly
        ensures atoms { result.atoms ≡ 0 }
        ensures rest { (codes : List Codes) → or_none (rest result codes) ≡ sealed codes }
    {
        Assembly {
            atoms: 0,
            parts: ArrayVec::new(),
            next: [PositionSet::empty(); 64],
        }
    }

    fn atom(&mut self)
        requires { self.old.atoms < 63 }
        ensures atoms { self.new.atoms ≡ self.old.atoms + 1 }
        ensures taken { Taken Atom self.old self.new (Some tt) }
    {
        self.atoms += 1;
        self.parts.push(Part::atom(self.atoms));
    }

    fn join(&mut self) -> Option<()>
        ensures atoms { self.new.atoms ≡ self.old.atoms }
        ensures taken { Taken Join self.old self.new result }
    {
        let right = self.parts.pop()?;
        let left = self.parts.pop()?;
        link_rows(&mut self.next, left.last, right.first);
        self.parts.push(left.join(right));
        Some(())
    }

    fn choice(&mut self) -> Option<()>
        ensures atoms { self.new.atoms ≡ self.old.atoms }
        ensures taken { Taken Choice self.old self.new result }
    {
        let right = self.parts.pop()?;
        let left = self.parts.pop()?;
        self.parts.push(left.choice(right));
        Some(())
    }

    fn plus(&mut self) -> Option<()>
        ensures atoms { self.new.atoms ≡ self.old.atoms }
        ensures taken { Taken Plus self.old self.new result }
    {
        let part = *self.parts.as_slice().last()?;
        link_rows(&mut self.next, part.last, part.first);
        Some(())
    }

    fn maybe(&mut self) -> Option<()>
        ensures atoms { self.new.atoms ≡ self.old.atoms }
        ensures taken { Taken Maybe self.old self.new result }
    {
        let part = self.parts.pop()?;
        self.parts.push(part.or_empty());
        Some(())
    }

    // Takes one code in, unless it lacks an operand.
    pub fn step(&mut self, code: Code) -> Option<()>
        requires { self.old.atoms + atom_codes (code ∷ []) ≤ 63 }
        ensures atoms { self.new.atoms ≡ self.old.atoms + atom_codes (code ∷ []) }
        ensures taken { Taken code self.old self.new result }
    {
        match code {
            Code::Atom => {
                self.atom();
                Some(())
            }
            Code::Join => self.join(),
            Code::Choice => self.choice(),
            Code::Star => {
                self.plus()?;
                self.maybe()
            }
            Code::Plus => self.plus(),
            Code::Maybe => self.maybe(),
        }
    }
}
