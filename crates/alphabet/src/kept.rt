// What an alphabet keeps of the tests that it is made from, and which of them pass.
ghost use Rattle.std.specs.Prelude.{◌≡◌, ◌≤◌, Bool, length, take, slice_index_or};
ghost use Rattle.std.specs.Fn.{FnReturnsAt};
ghost use Rattle.sets.specs.Members.{shared, below};
ghost use Rattle.sets.specs.Positions.{holds, width};
ghost use Rattle.alphabet.specs.Asked.{asked};
ghost use Rattle.alphabet.specs.Sets.{blank};

use arrayvec::ArrayVec;
use sets::PositionSet;

// Copies as many of the tests as there is room for, and says how many they are.
pub fn keep<T: Copy>(own: &mut [T], tests: &[T]) -> usize
    ensures few { result ≤ length own.old }
    ensures same { take result own.new ≡ take (length own.old) tests.now }
{
    let used = tests.len().min(own.len());
    for i in 0..used {
        own[i] = tests[i];
    }
    used
}

// The first 63 tests, one for each number that a set of positions can hold beside 0.
pub fn kept_tests<T: Copy + Default>(tests: &[T]) -> ArrayVec<T, 63>
    ensures { result.items ≡ take 63 tests.now }
{
    let mut kept = ArrayVec::new();
    for test in &tests[..tests.len().min(63)] {
        kept.push(*test);
    }
    kept
}

// The numbers of the tests that pass.
pub fn passed<T, F: Fn(&T) -> bool>(tests: &ArrayVec<T, 63>, passes: F) -> PositionSet
    requires { F.IsAlwaysCallable passes }
    ensures { (test : T → Bool) → ((t : T) (b : Bool) → FnReturnsAt F.Fn passes t b → b ≡ test t) → holds result ≡ shared (below width) (asked test tests.now.items) }
{
    let mut passed = PositionSet::empty();
    for (i, test) in tests.iter().enumerate() {
        if passes(test) {
            passed = passed.with(i as u8 + 1);
        }
    }
    passed
}

// The set with the number i; one that is not there is empty.
pub fn set_at(sets: &[PositionSet], i: usize) -> PositionSet
    ensures { holds result ≡ holds (slice_index_or sets.now i blank) }
{
    sets.get(i).copied().unwrap_or(PositionSet::empty())
}
