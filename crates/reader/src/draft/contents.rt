// What a draft holds.
ghost use Rattle.std.specs.Prelude.{◌≡◌, ◌≤◌, [], ◌∷◌, ◌++◌, length, take};
ghost use Rattle.reader.specs.Drafts.{tests_of, codes_of, numbered};

use super::Draft;
use crate::limits::{MOST_ATOMS, MOST_CODES};
use pattern::Code;

impl<T: Copy> Draft<T> {
    // An empty draft; `blank` fills the entries that no test has taken.
    pub fn new(blank: T) -> Draft<T>
        ensures tests { tests_of result ≡ [] }
        ensures codes { codes_of result ≡ [] }
    {
        Draft {
            tests: [blank; MOST_ATOMS],
            atoms: 0,
            codes: [Code::Atom; MOST_CODES],
            used: 0,
        }
    }

    // How many atoms the pattern has.
    pub fn atoms(&self) -> usize
        ensures { result ≡ length (tests_of self.now) }
    {
        self.tests().len()
    }

    // The test of atom k; atoms are numbered from 1.
    pub fn test(&self, k: usize) -> Option<T>
        ensures { result ≡ numbered (tests_of self.now) k }
    {
        self.tests().get(k.checked_sub(1)?).copied()
    }

    pub fn tests(&self) -> &[T]
        ensures all { result.now ≡ tests_of self.now }
        ensures few { length result.now ≤ 63 }
    {
        &self.tests[..self.atoms]
    }

    pub fn codes(&self) -> &[Code]
        ensures { result.now ≡ codes_of self.now }
    {
        &self.codes[..self.used]
    }

    pub(super) fn clear(&mut self)
        ensures tests { tests_of self.new ≡ [] }
        ensures codes { codes_of self.new ≡ [] }
    {
        self.atoms = 0;
        self.used = 0;
    }

    // Keeps one test more; one past the last entry is let go.
    pub(super) fn keep(&mut self, test: T)
        ensures { tests_of self.new ≡ take 63 (tests_of self.old ++ test ∷ []) }
    {
        if self.atoms < MOST_ATOMS {
            self.tests[self.atoms] = test;
            self.atoms += 1;
        }
    }
}

impl<T: Copy + Default> Default for Draft<T> {
    ghost is_default = { λ d. (tests_of d ≡ []) × (codes_of d ≡ []) };

    fn default() -> Draft<T> {
        Draft::new(T::default())
    }
}
