// The events' answers as an alphabet.
ghost use Rattle.std.specs.Prelude.{◌≡◌, ◌<◌, ◌&&◌, length, take, nat_lt};
ghost use Rattle.symbols.specs.Tests.{code_of, passes_code};
ghost use Rattle.event_classes.specs.Cuts.{event_passes, event_classes, event_class, event_accepts, Cut};
ghost use Rattle.event_classes.specs.Own.{event_tests};
ghost use Rattle.event_classes.specs.Eventwise.{events_few, code_fits, events_within, events_agree, events_untested, events_unclassed};
ghost use Rattle.alphabet.proofs.Asking.{asked_none};

use crate::{EventCuts, table};
use alphabet::{Alphabet, FromTests, kept_tests, set_at};
use sets::PositionSet;
use symbols::{Event, EventTest};

impl Alphabet for EventCuts {
    type Symbol = Event;

    ghost fit = { λ e. nat_lt e.kind 256 && nat_lt e.value 65536 };

    ghost tests = { λ a. length (event_tests a) };

    ghost passes = { λ a k e. event_passes (event_tests a) k (code_of e) };

    ghost classes = { λ a. event_classes (event_tests a) };

    ghost class_of = { λ a e. event_class (event_tests a) (code_of e) };

    ghost accepts = { λ a c k. event_accepts (event_tests a) c k };

    ghost few = { λ a. events_few (event_tests a) a.few };

    ghost within = { λ a e h. events_within (event_tests a) (code_of e) };

    ghost agree = { λ a k e h. events_agree (event_tests a) k (code_of e) (code_fits e h) };

    ghost nameless = { λ a k e h. asked_none (λ t. passes_code t (code_of e)) (event_tests a) k h };

    ghost untested = { λ a c k h. events_untested (event_tests a) c k h };

    ghost unclassed = { λ a c k h. events_unclassed (event_tests a) c k h };

    fn class_count(&self) -> u16 {
        self.table.passing.len() as u16
    }

    fn class_of(&self, symbol: Event) -> u16 {
        let kind = &self.table.kinds[symbol.kind as usize];
        let rank = self
            .table
            .cuts
            .rank_between(symbol.code(), kind.lowest as usize, kind.highest as usize);
        rank as u16
    }

    fn class_passes(&self, class: u16, test: u8) -> bool {
        self.passing(class).has(test)
    }

    fn passing(&self, class: u16) -> PositionSet {
        set_at(&self.table.passing, class as usize)
    }
}

impl FromTests for EventCuts {
    type Test = EventTest;

    ghost own = { λ a. event_tests a };

    fn of(tests: &[EventTest]) -> EventCuts
        ensures tests { event_tests result ≡ take 63 tests.now }
        ensures law { Cut (event_tests result) }
    {
        let tests = kept_tests(tests);
        let table = table::tabulate(&tests);
        EventCuts { tests, table }
    }
}
