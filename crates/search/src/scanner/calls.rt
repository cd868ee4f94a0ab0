// The calls on a searcher.
ghost use Rattle.std.specs.Prelude.{◌≡◌, ◌<◌, ◌≤◌, ltb, length, drop, IfSome, if◌then◌else◌, Some, None};
ghost use Rattle.refusal.specs.declared.Refusal.{Refusal as Refusing};
ghost use Rattle.law.specs.Calls.{refusal, Search, Find as FindQuery, Lists as ListQuery, Whole as WholeQuery, Limit as LimitRequest, Clear as ClearRequest, Dropped as Drops};
ghost use Rattle.search.specs.Counted.{Bounded};
ghost use Rattle.law.specs.Law.{ByWords};
ghost use Rattle.search.specs.Remembered.{memory, subject, Ready};
ghost use Rattle.collector.specs.Pushing.{held, size};
ghost use Rattle.search.specs.Scanning.{Located, Collected, Filled};
ghost use Rattle.search.specs.Calling.{reply, found, listed, told, written, Did};

use crate::answer::{Found, Listed, Whole};
use crate::counts::Counts;
use crate::row::{Row, refused};
use crate::scanner::Scanner;
use automaton::Automaton;
use collector::Collector;
use memory::policy::Policy;
use memory::shelf::Shelf;
use refusal::{Cause, Refusal};
use sets::PlaceSet;
use theory::Span;

// A span, unless it is empty: a find answers no empty one.
fn span_of(start: usize, end: usize) -> Option<Span>
    ensures { result ≡ (if ltb start end then Some (record { start = start; end = end }) else None) }
{
    if start < end {
        Some(Span { start, end })
    } else {
        None
    }
}

impl<'p, M: Automaton, S: Shelf, P: Policy> Scanner<'p, M, S, P> {
    // The leftmost, then longest, word that is not empty, from `from` on.
    fn locate(&mut self, row: &Row<'_, M::Symbol>, from: usize) -> Found
        requires from { from ≤ length row.now.symbols.now }
        ensures located { Ready M.Automaton S.Shelf P.Policy self.old → Located M.Automaton S.Shelf P.Policy (memory S.Shelf P.Policy self.old) row.now.symbols.now from result self.new }
        ensures inside { IfSome result.span (λ x. (from < x.end) × (x.end ≤ length row.now.symbols.now)) }
        ensures small { Bounded 2097152 result.counts }
        ensures automaton { self.new.automaton ≡ self.old.automaton }
    {
        let back = self.scan_back(row, from);
        match back.mark {
            None => Found {
                span: None,
                counts: back.counts,
            },
            Some(start) => {
                let ahead = self.scan_ahead(row, start);
                Found {
                    span: span_of(start, ahead.mark),
                    counts: back.counts.plus(ahead.counts),
                }
            }
        }
    }

    pub(crate) fn find(&mut self, row: &[M::Symbol], from: usize) -> Result<Found, Refusal>
        ensures did { Ready M.Automaton S.Shelf P.Policy self.old → Did M.Automaton S.Shelf P.Policy self.old (Search (FindQuery row.now from)) self.new (reply found result) }
        ensures words { Ready M.Automaton S.Shelf P.Policy self.old → ByWords (subject M.Automaton self.old) (Search (FindQuery row.now from)) (reply found result) }
        ensures idle { (q : Refusing) → refusal (Search (FindQuery row.now from)) ≡ Some q → self.new ≡ self.old }
        ensures automaton { self.new.automaton ≡ self.old.automaton }
    {
        let row = Row::new(row)?;
        row.check_from(from)?;
        Ok(self.locate(&row, from))
    }

    // Lists into the collector until none is found, or one is found with no entry free.
    fn collect(
        &mut self,
        row: &Row<'_, M::Symbol>,
        from: usize,
        spans: &mut Collector<'_, Span>,
    ) -> Listed
        requires from { from ≤ length row.now.symbols.now }
        requires fresh { spans.old.used ≡ 0 }
        ensures listed { Ready M.Automaton S.Shelf P.Policy self.old → Collected M.Automaton S.Shelf P.Policy (memory S.Shelf P.Policy self.old) row.now.symbols.now (size spans.old) from (held spans.new) result self.new }
        ensures written { result.written ≡ spans.new.used }
        ensures filled { Filled spans.old spans.new }
        ensures automaton { self.new.automaton ≡ self.old.automaton }
    {
        let mut at = from;
        let mut counts = Counts::default();
        loop {
            let found = self.locate(row, at);
            counts = counts.plus(found.counts);
            let Some(span) = found.span else {
                return Listed {
                    written: spans.used(),
                    rest: None,
                    counts,
                };
            };
            let Ok(()) = spans.push(span) else {
                return Listed {
                    written: spans.used(),
                    rest: Some(at),
                    counts,
                };
            };
            at = span.end;
        }
    }

    // Writes a span for each find, each from the end of the one before, and says where to go on.
    pub(crate) fn list(
        &mut self,
        row: &[M::Symbol],
        from: usize,
        entries: &mut [Span],
    ) -> Result<Listed, Refusal>
        ensures did { Ready M.Automaton S.Shelf P.Policy self.old → Did M.Automaton S.Shelf P.Policy self.old (Search (ListQuery row.now from (length entries.old))) self.new (reply (listed entries.new) result) }
        ensures words { Ready M.Automaton S.Shelf P.Policy self.old → ByWords (subject M.Automaton self.old) (Search (ListQuery row.now from (length entries.old))) (reply (listed entries.new) result) }
        ensures idle { (q : Refusing) → refusal (Search (ListQuery row.now from (length entries.old))) ≡ Some q → self.new ≡ self.old }
        ensures behind { drop (written result) entries.new ≡ drop (written result) entries.old }
        ensures automaton { self.new.automaton ≡ self.old.automaton }
    {
        let row = Row::new(row)?;
        row.check_from(from)?;
        let mut spans = Collector::over(entries);
        Ok(self.collect(&row, from, &mut spans))
    }

    // Whether the record is a word.
    pub(crate) fn whole(&mut self, row: &[M::Symbol]) -> Result<Whole, Refusal>
        ensures did { Ready M.Automaton S.Shelf P.Policy self.old → Did M.Automaton S.Shelf P.Policy self.old (Search (WholeQuery row.now)) self.new (reply told result) }
        ensures words { Ready M.Automaton S.Shelf P.Policy self.old → ByWords (subject M.Automaton self.old) (Search (WholeQuery row.now)) (reply told result) }
        ensures idle { (q : Refusing) → refusal (Search (WholeQuery row.now)) ≡ Some q → self.new ≡ self.old }
        ensures automaton { self.new.automaton ≡ self.old.automaton }
    {
        let row = Row::new(row)?;
        let ahead = self.scan_ahead(&row, 0);
        let is_word = if row.symbols.is_empty() {
            self.automaton.nullable()
        } else {
            ahead.mark == row.symbols.len()
        };
        Ok(Whole {
            is_word,
            counts: ahead.counts,
        })
    }

    // Sets the limit; if more sets are live than the new allowance, all are dropped. Says how many steps were.
    pub(crate) fn limit(&mut self, limit: usize) -> Result<usize, Refusal>
        ensures did { Ready M.Automaton S.Shelf P.Policy self.old → Did M.Automaton S.Shelf P.Policy self.old (LimitRequest limit) self.new (reply Drops result) }
        ensures idle { 64 < limit → self.new ≡ self.old }
        ensures automaton { self.new.automaton ≡ self.old.automaton }
    {
        if limit > 64 {
            return refused(Cause::LimitTooLarge);
        }
        self.limit = limit as u8;
        if self.live.count() <= self.allowance() {
            return Ok(0);
        }
        Ok(self.drop_these(PlaceSet::all()))
    }

    // Drops everything, and says how many steps that were.
    pub(crate) fn clear(&mut self) -> usize
        ensures did { Ready M.Automaton S.Shelf P.Policy self.old → Did M.Automaton S.Shelf P.Policy self.old ClearRequest self.new (Drops result) }
        ensures automaton { self.new.automaton ≡ self.old.automaton }
    {
        self.drop_these(PlaceSet::all())
    }
}
