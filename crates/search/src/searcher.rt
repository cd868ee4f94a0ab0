// A searcher as its callers see it: a scanner whose fields fit together, from its opening on and after every call.
use crate::answer::{Found, Listed, Whole};
use crate::scanner::Scanner;
use automaton::Automaton;
use memory::policy::Policy;
use memory::shelf::Shelf;
use refusal::Refusal;
use std::marker::Model;
use theory::Span;

#[derive(Drop)]
pub struct Searcher<'p, M: Automaton, S: Shelf, P: Policy> {
    scanner: Scanner<'p, M, S, P>,
}

impl<'p, M: Automaton, S: Shelf, P: Policy> Model for Searcher<'p, M, S, P> {
    ghost use Rattle.search.specs.declared.scanner.Scanner.{Scanner};
    ghost use Rattle.search.specs.Remembered.{Ready};

    ghost Value = { Scanner M S P };

    ghost view = { λ s. s.scanner };

    ghost invariant = { λ s. Ready M.Automaton S.Shelf P.Policy s.scanner };
}

impl<'p, M: Automaton, S: Shelf, P: Policy> Searcher<'p, M, S, P> {
    ghost use Rattle.std.specs.Prelude.{◌≡◌, ◌<◌, length, drop, Some};
    ghost use Rattle.refusal.specs.declared.Refusal.{Refusal as Refusing};
    ghost use Rattle.law.specs.Calls.{refusal, Search, Find as FindQuery, Lists as ListQuery, Whole as WholeQuery, Limit as LimitRequest, Clear as ClearRequest, Dropped as Drops};
    ghost use Rattle.law.specs.Law.{ByWords};
    ghost use Rattle.law.specs.Memory.{allowance, opened, sets_live, steps_known};
    ghost use Rattle.search.specs.Remembered.{memory, subject};
    ghost use Rattle.search.specs.Calling.{Called, reply, found, listed, told, written};

    // Opens a searcher: everything is dropped on shelf and policy.
    pub fn open(automaton: &'p M, shelf: S, policy: P) -> Searcher<'p, M, S, P>
        ensures opened { memory S.Shelf P.Policy result ≡ opened (S.Shelf.room shelf) (S.Shelf.most shelf) }
        ensures automaton { result.automaton ≡ automaton.entry }
    {
        Searcher {
            scanner: Scanner::open(automaton, shelf, policy),
        }
    }

    // How many sets are live.
    pub fn live_sets(&self) -> u8
        ensures { result ≡ sets_live (memory S.Shelf P.Policy self.now) }
    {
        self.scanner.live_sets()
    }

    // How many steps are known.
    pub fn known_steps(&self) -> usize
        ensures { result ≡ steps_known (memory S.Shelf P.Policy self.now) }
    {
        self.scanner.known_steps()
    }

    // How many sets may be live.
    pub fn allowance(&self) -> u8
        ensures { result ≡ allowance (memory S.Shelf P.Policy self.now) }
    {
        self.scanner.allowance()
    }

    // The leftmost, then longest, word that is not empty, from `from` on.
    pub fn find(&mut self, row: &[M::Symbol], from: usize) -> Result<Found, Refusal>
        ensures called { Called M.Automaton S.Shelf P.Policy self.old (Search (FindQuery row.now from)) self.new (reply found result) }
        ensures words { ByWords (subject M.Automaton self.old) (Search (FindQuery row.now from)) (reply found result) }
        ensures idle { (q : Refusing) → refusal (Search (FindQuery row.now from)) ≡ Some q → self.new ≡ self.old }
        ensures automaton { self.new.automaton ≡ self.old.automaton }
    {
        self.scanner.find(row, from)
    }

    // Writes a span for each find, each from the end of the one before, and says where to go on.
    pub fn list(
        &mut self,
        row: &[M::Symbol],
        from: usize,
        entries: &mut [Span],
    ) -> Result<Listed, Refusal>
        ensures called { Called M.Automaton S.Shelf P.Policy self.old (Search (ListQuery row.now from (length entries.old))) self.new (reply (listed entries.new) result) }
        ensures words { ByWords (subject M.Automaton self.old) (Search (ListQuery row.now from (length entries.old))) (reply (listed entries.new) result) }
        ensures idle { (q : Refusing) → refusal (Search (ListQuery row.now from (length entries.old))) ≡ Some q → self.new ≡ self.old }
        ensures behind { drop (written result) entries.new ≡ drop (written result) entries.old }
        ensures automaton { self.new.automaton ≡ self.old.automaton }
    {
        self.scanner.list(row, from, entries)
    }

    // Whether the record is a word.
    pub fn whole(&mut self, row: &[M::Symbol]) -> Result<Whole, Refusal>
        ensures called { Called M.Automaton S.Shelf P.Policy self.old (Search (WholeQuery row.now)) self.new (reply told result) }
        ensures words { ByWords (subject M.Automaton self.old) (Search (WholeQuery row.now)) (reply told result) }
        ensures idle { (q : Refusing) → refusal (Search (WholeQuery row.now)) ≡ Some q → self.new ≡ self.old }
        ensures automaton { self.new.automaton ≡ self.old.automaton }
    {
        self.scanner.whole(row)
    }

    // Sets the limit; if more sets are live than the new allowance, all are dropped. Says how many steps were.
    pub fn limit(&mut self, limit: usize) -> Result<usize, Refusal>
        ensures called { Called M.Automaton S.Shelf P.Policy self.old (LimitRequest limit) self.new (reply Drops result) }
        ensures idle { 64 < limit → self.new ≡ self.old }
        ensures automaton { self.new.automaton ≡ self.old.automaton }
    {
        self.scanner.limit(limit)
    }

    // Drops everything, and says how many steps that were.
    pub fn clear(&mut self) -> usize
        ensures called { Called M.Automaton S.Shelf P.Policy self.old ClearRequest self.new (Drops result) }
        ensures automaton { self.new.automaton ≡ self.old.automaton }
    {
        self.scanner.clear()
    }
}
