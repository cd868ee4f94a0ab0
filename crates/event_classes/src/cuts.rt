// The cuts in ascending order, made from the tests.
ghost use Rattle.std.specs.Prelude.{◌≡◌, ◌<◌, ◌≤◌, length};
ghost use Rattle.event_classes.specs.Cuts.{cut, cuts, at_or_below};

use arrayvec::ArrayVec;
use std::marker::Model;
use symbols::EventTest;

// How many codes there are: a kind has 8 bits and a value 16.
const CODES: u32 = 1 << 24;

// The codes at which a class begins, but for the first class, which begins at 0.
#[derive(Drop)]
pub struct Cuts {
    codes: ArrayVec<u32, 126>,
}

impl Model for Cuts {
    ghost use Rattle.std.specs.Prelude.{ℕ, List};
    ghost use Rattle.event_classes.specs.Cuts.{Ascending};

    ghost Value = { List ℕ };

    ghost view = { λ s. s.codes.items };

    ghost invariant = { λ s. Ascending s.codes.items };
}

impl Cuts {
    // The cuts at the lowest code of each test and behind the highest.
    pub fn of(tests: &ArrayVec<EventTest, 63>) -> Cuts
        ensures { result ≡ cuts tests.now.items }
    {
        let mut cuts = Cuts {
            codes: ArrayVec::new(),
        };
        for test in tests.iter() {
            cuts.cut_at(test.low);
            cuts.cut_at(test.high.saturating_add(1));
        }
        cuts
    }

    // Cuts at the code, unless nothing would be cut off.
    fn cut_at(&mut self, code: u32)
        requires { length self.old < 126 }
        ensures { self.new ≡ cut code self.old }
    {
        if code == 0 || code >= CODES {
            return;
        }
        if let Err(place) = self.codes.binary_search(&code) {
            self.codes.insert(place, code);
        }
    }

    pub fn codes(&self) -> &[u32]
        ensures is { result.now ≡ self.now }
        ensures few { length result.now ≤ 126 }
    {
        self.codes.as_slice()
    }

    // How many of the cuts are at or below the code.
    pub fn rank(&self, code: u32) -> usize
        ensures is { result ≡ at_or_below code self.now }
        ensures few { result ≤ 126 }
    {
        self.rank_between(code, 0, self.codes.len())
    }

    // The same, where it is a number between `low` and `high`. A search asks this of each event, and most kinds lie in one
    // class or two; so it halves by a loop of its own, which is at its end at once where the two are the same.
    pub fn rank_between(&self, code: u32, low: usize, high: usize) -> usize
        requires above { low ≤ at_or_below code self.now }
        requires below { at_or_below code self.now ≤ high }
        requires within { high ≤ length self.now }
        ensures is { result ≡ at_or_below code self.now }
        ensures few { result ≤ 126 }
    {
        let cuts = self.codes.as_slice();
        let mut low = low;
        let mut high = high;
        while low < high {
            let middle = (low + high) / 2;
            if cuts[middle] <= code {
                low = middle + 1;
            } else {
                high = middle;
            }
        }
        low
    }
}
