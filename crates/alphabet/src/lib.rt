// An alphabet puts the symbols of a record into at most 256 classes, so that symbols of one class pass the same tests.
// A search looks at classes alone, and is right over every alphabet by the law below.
#![tactic(auto)]

ghost use Rattle.std.specs.Prelude.{◌≡◌, ℕ, ◌<◌, ◌≤◌, Bool, true, false, ◌⊎◌, List, take};
ghost use Rattle.sets.specs.Members.{shared, below};
ghost use Rattle.sets.specs.Positions.{holds, width};

mod kept;

pub use kept::{keep, kept_tests, passed, set_at};
use sets::PositionSet;

pub trait Alphabet {
    type Symbol: Copy;

    // The values that a symbol of this type can have.
    ghost fit: { Self.Symbol → Bool };

    // The meaning: how many tests there are, numbered from 1, and which symbols pass them.
    ghost tests: { Self → ℕ };

    ghost passes: { Self → ℕ → Self.Symbol → Bool };

    // The answers: the number of classes, the class of a symbol, and whether a class passes a test.
    ghost classes: { Self → ℕ };

    ghost class_of: { Self → Self.Symbol → ℕ };

    ghost accepts: { Self → ℕ → ℕ → Bool };

    fn class_count(&self) -> u16
        ensures { result ≡ classes self.now };

    fn class_of(&self, symbol: Self::Symbol) -> u16
        ensures fits { fit symbol ≡ true }
        ensures is { result ≡ class_of self.now symbol };

    fn class_passes(&self, class: u16, test: u8) -> bool
        ensures { result ≡ accepts self.now class test };

    // The tests that a class passes, as the positions of their atoms. An alphabet may keep them at hand.
    fn passing(&self, class: u16) -> PositionSet
        ensures { holds result ≡ shared (below width) (accepts self.now class) }
    {
        let mut tests = PositionSet::empty();
        for test in 0..64u8 {
            if self.class_passes(class, test) {
                tests = tests.with(test);
            }
        }
        tests
    }

    ghost few: { (a : Self) → (1 ≤ classes a) × (classes a ≤ 256) };

    ghost within: { (a : Self) (t : Self.Symbol) → fit t ≡ true → class_of a t < classes a };

    // A symbol's class passes a test exactly when the symbol does.
    ghost agree: { (a : Self) (k : ℕ) (t : Self.Symbol) → fit t ≡ true → accepts a (class_of a t) k ≡ passes a k t };

    ghost nameless: { (a : Self) (k : ℕ) (t : Self.Symbol) → (k ≡ 0) ⊎ (tests a < k) → passes a k t ≡ false };

    ghost untested: { (a : Self) (c k : ℕ) → (k ≡ 0) ⊎ (tests a < k) → accepts a c k ≡ false };

    ghost unclassed: { (a : Self) (c k : ℕ) → classes a ≤ c → accepts a c k ≡ false };
}

// An alphabet that tests make.
pub trait FromTests: Alphabet {
    type Test: Copy;

    // The tests that count, in the order of their numbers.
    ghost own: { Self → List Self.Test };

    // The alphabet of the tests, of which the first 63 count.
    fn of(tests: &[Self::Test]) -> Self
        ensures { own result ≡ take 63 tests.now };
}

// Whether a symbol passes a test, asked of its class alone.
pub fn symbol_passes<A: Alphabet>(alphabet: &A, symbol: A::Symbol, test: u8) -> bool
    ensures { result ≡ A.Alphabet.passes alphabet.now test symbol }
{
    alphabet.class_passes(alphabet.class_of(symbol), test)
}
