// The bytes' answers as an alphabet.
ghost use Rattle.std.specs.Prelude.{◌≡◌, ◌<◌, length, take, nat_lt};
ghost use Rattle.byte_classes.specs.Classes.{byte_passes, byte_classes, byte_class, byte_accepts, Classified, alike};
ghost use Rattle.byte_classes.specs.Own.{byte_tests};
ghost use Rattle.byte_classes.specs.Bytewise.{bytes_few, alike_equivalence, bytes_agree, bytes_untested, bytes_unclassed};
ghost use Rattle.std.proofs.lemmas.Bool.{ltb-true};
ghost use Rattle.byte_classes.specs.NumberingLemmas.{class_within};
ghost use Rattle.symbols.specs.Tests.{passes_byte};
ghost use Rattle.alphabet.proofs.Asking.{asked_none};

use crate::{ByteClasses, table};
use alphabet::{Alphabet, FromTests, kept_tests, set_at};
use sets::PositionSet;
use symbols::ByteTest;

impl Alphabet for ByteClasses {
    type Symbol = u8;

    ghost fit = { λ b. nat_lt b 256 };

    ghost tests = { λ a. length (byte_tests a) };

    ghost passes = { λ a k b. byte_passes (byte_tests a) k b };

    ghost classes = { λ a. byte_classes (byte_tests a) };

    ghost class_of = { λ a b. byte_class (byte_tests a) b };

    ghost accepts = { λ a c k. byte_accepts (byte_tests a) c k };

    ghost few = { λ a. bytes_few (byte_tests a) };

    ghost within = { λ a b h. class_within (alike (byte_tests a)) (alike_equivalence (byte_tests a)) 256 b (ltb-true b 256 h) };

    ghost agree = { λ a k b h. bytes_agree (byte_tests a) k b (ltb-true b 256 h) };

    ghost nameless = { λ a k b h. asked_none (λ t. passes_byte t b) (byte_tests a) k h };

    ghost untested = { λ a c k h. bytes_untested (byte_tests a) c k h };

    ghost unclassed = { λ a c k h. bytes_unclassed (byte_tests a) c k h };

    fn class_count(&self) -> u16 {
        self.table.passing.len() as u16
    }

    fn class_of(&self, symbol: u8) -> u16 {
        self.table.class[symbol as usize] as u16
    }

    fn class_passes(&self, class: u16, test: u8) -> bool {
        self.passing(class).has(test)
    }

    fn passing(&self, class: u16) -> PositionSet {
        set_at(&self.table.passing, class as usize)
    }
}

impl FromTests for ByteClasses {
    type Test = ByteTest;

    ghost own = { λ a. byte_tests a };

    fn of(tests: &[ByteTest]) -> ByteClasses
        ensures tests { byte_tests result ≡ take 63 tests.now }
        ensures law { Classified (byte_tests result) }
    {
        let tests = kept_tests(tests);
        let table = table::tabulate(&tests);
        ByteClasses { tests, table }
    }
}
