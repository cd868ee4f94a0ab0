// Sealing uses a draft up, and fixes its classes. No text can be read into what it gives.
ghost use Rattle.std.specs.Prelude.{◌≡◌, true};
ghost use Rattle.sets.specs.Positions.{holds, width};
ghost use Rattle.theory.specs.Masks.{ahead_set, back_set, common};
ghost use Rattle.sealed.specs.Tables.{following};
ghost use Rattle.reader.specs.Drafts.{tests_of, codes_of as draft_codes};
ghost use Rattle.sealed.specs.Plans.{codes_of, tree_of, positions_of, sealable, by_class, SealedOf};

use crate::plan::Plan;
use alphabet::{Alphabet, FromTests};
use pattern::Code;
use reader::Draft;
use sets::PositionSet;

#[derive(Drop)]
pub struct Sealed<A> {
    alphabet: A,
    plan: Plan,
}

impl<A: Alphabet> Sealed<A> {
    // A pattern by its codes over an alphabet. Codes past a draft's limits give a pattern without words.
    pub fn of(alphabet: A, codes: &[Code]) -> Sealed<A>
        ensures alphabet { result.alphabet ≡ alphabet }
        ensures codes { codes_of result.plan ≡ sealable codes.now }
    {
        Sealed {
            alphabet,
            plan: Plan::of(codes),
        }
    }

    pub fn alphabet(&self) -> &A
        ensures { result.now ≡ self.now.alphabet }
    {
        &self.alphabet
    }

    pub fn class_count(&self) -> u16
        ensures { result ≡ A.Alphabet.classes self.now.alphabet }
    {
        self.alphabet.class_count()
    }

    pub fn class_of(&self, symbol: A::Symbol) -> u16
        ensures fits { A.Alphabet.fit symbol ≡ true }
        ensures is { result ≡ A.Alphabet.class_of self.now.alphabet symbol }
    {
        self.alphabet.class_of(symbol)
    }

    pub fn class_passes(&self, class: u16, test: u8) -> bool
        ensures { result ≡ A.Alphabet.accepts self.now.alphabet class test }
    {
        self.alphabet.class_passes(class, test)
    }

    pub fn nullable(&self) -> bool
        ensures { result ≡ (positions_of self.now.plan).nullable }
    {
        self.plan.nullable()
    }

    pub fn first(&self) -> PositionSet
        ensures { holds result ≡ (positions_of self.now.plan).first }
    {
        self.plan.followers(0)
    }

    pub fn last(&self) -> PositionSet
        ensures { holds result ≡ (positions_of self.now.plan).last }
    {
        self.plan.leaders(0)
    }

    // The positions that follow p; the first positions follow 0.
    pub fn followers(&self, p: u8) -> PositionSet
        ensures { holds result ≡ following (positions_of self.now.plan) p }
    {
        self.plan.followers(p)
    }

    // Whether the set holds a first position.
    pub fn begins(&self, set: PositionSet) -> bool
        ensures { result ≡ common width (holds set) (positions_of self.now.plan).first }
    {
        set.meets(self.first())
    }

    // Whether the set holds a last position.
    pub fn ends(&self, set: PositionSet) -> bool
        ensures { result ≡ common width (holds set) (positions_of self.now.plan).last }
    {
        set.meets(self.last())
    }

    // One step ahead by the class, which is the step by every symbol of the class.
    pub fn ahead(&self, set: PositionSet, class: u16) -> PositionSet
        ensures class { holds result ≡ ahead_set width (by_class (A.Alphabet.accepts self.now.alphabet)) (positions_of self.now.plan) (holds set) class }
        ensures symbol { (t : A.Symbol) → A.Alphabet.fit t ≡ true → A.Alphabet.class_of self.now.alphabet t ≡ class → holds result ≡ ahead_set width (A.Alphabet.passes self.now.alphabet) (positions_of self.now.plan) (holds set) t }
    {
        self.plan.ahead(set, self.alphabet.passing(class))
    }

    // One step back.
    pub fn back(&self, set: PositionSet, class: u16) -> PositionSet
        ensures class { holds result ≡ back_set width (by_class (A.Alphabet.accepts self.now.alphabet)) (positions_of self.now.plan) (holds set) class }
        ensures symbol { (t : A.Symbol) → A.Alphabet.fit t ≡ true → A.Alphabet.class_of self.now.alphabet t ≡ class → holds result ≡ back_set width (A.Alphabet.passes self.now.alphabet) (positions_of self.now.plan) (holds set) t }
    {
        self.plan.back(set, self.alphabet.passing(class))
    }
}

pub fn seal<A: FromTests>(draft: Draft<A::Test>) -> Sealed<A>
    ensures tests { A.FromTests.own result.alphabet ≡ tests_of draft }
    ensures codes { codes_of result.plan ≡ sealable (draft_codes draft) }
    ensures pattern { SealedOf (draft_codes draft) (tree_of result.plan) }
{
    Sealed::of(A::of(draft.tests()), draft.codes())
}
