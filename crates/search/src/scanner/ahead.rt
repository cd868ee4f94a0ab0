// The scan ahead, from a place where a word begins: where the longest one ends.
ghost use Rattle.std.specs.Prelude.{◌≡◌, ℕ, ◌+◌, ◌-◌, ◌<◌, ◌≤◌, false, not, ◌&&◌, length, nat_lt};
ghost use Rattle.law.specs.Memory.{Memory};
ghost use Rattle.sets.specs.Positions.{PositionSet};
ghost use Rattle.search.specs.Remembered.{memory, subject, Ready};
ghost use Rattle.sets.specs.Places.{member};
ghost use Rattle.law.specs.Reading.{Counts as Tallies};
ghost use Rattle.search.specs.Counted.{known_more};
ghost use Rattle.theory.specs.declared.Direction.TheVariants.{Ahead};
ghost use Rattle.search.specs.Heard.{Passed, RideHeard};
ghost use Rattle.search.specs.Scanning.{Aheaded, AheadWithin, RidingAhead, Reached};

use crate::counts::Counts;
use crate::row::Row;
use crate::scanner::{Cursor, Run, Scan, Scanner, marked};
use automaton::Automaton;
use memory::policy::Policy;
use memory::shelf::Shelf;
use sets::PlaceSet;
use theory::Direction;

impl<'p, M: Automaton, S: Shelf, P: Policy> Scanner<'p, M, S, P> {
    // Reads one symbol more.
    fn read_ahead(&mut self, row: &Row<'_, M::Symbol>, scan: Scan<usize>) -> Scan<usize>
        requires more { scan.at < length row.now.symbols.now }
        requires within { AheadWithin (length row.now.symbols.now) scan }
        ensures aheaded { (m : Memory PositionSet) (from : ℕ) → (subject M.Automaton self.old).machine.empty scan.cursor.set ≡ false → Aheaded M.Automaton S.Shelf P.Policy m row.now.symbols.now from scan self.old → Aheaded M.Automaton S.Shelf P.Policy m row.now.symbols.now from result self.new }
        ensures at { result.at ≡ scan.at + 1 }
        ensures within { AheadWithin (length row.now.symbols.now) result }
        ensures automaton { self.new.automaton ≡ self.old.automaton }
    {
        let symbols = row.symbols;
        let at = scan.at;
        let step = self.advance(Direction::Ahead, scan.cursor, symbols[at]);
        let ends = self.automaton.has_last(step.cursor.set);
        Scan {
            at: at + 1,
            cursor: step.cursor,
            mark: marked(ends, at + 1, scan.mark),
            counts: scan.counts.plus(step.counts),
        }
    }

    // Reads on while steps are known. Nothing is written here, and a symbol costs one class and one look-up.
    fn run_ahead(&self, row: &Row<'_, M::Symbol>, run: Run<usize>) -> Run<usize>
        requires within { run.at ≤ length row.now.symbols.now }
        ensures riding { (m : Memory PositionSet) (from : ℕ) (k : Tallies) → RidingAhead M.Automaton S.Shelf P.Policy m row.now.symbols.now from run k self.now → RidingAhead M.Automaton S.Shelf P.Policy m row.now.symbols.now from result (known_more k (result.at - run.at)) self.now }
        ensures ahead { run.at ≤ result.at }
        ensures within { result.at ≤ length row.now.symbols.now }
        ensures low { run.at < result.at → result.place < 64 }
        ensures passed { Passed (S.Shelf.steps self.now.shelf) (subject M.Automaton self.now).class_of row.now.symbols.now Ahead run.at run.place (member run.met) result.at result.place (member result.met) }
        ensures end { run.mark ≤ length row.now.symbols.now → result.mark ≤ length row.now.symbols.now }
    {
        let symbols = row.symbols;
        let mut at = run.at;
        let mut place = run.place;
        let mut mark = run.mark;
        let mut met = run.met;
        for i in run.at..symbols.len() {
            if self.empties.has(place) {
                break;
            }
            let class = self.automaton.class_of(symbols[i]);
            let Some(next) = self.shelf.know(place, class) else {
                break;
            };
            at = i + 1;
            place = next;
            met = met.with(next);
            mark = marked(self.ends.has(next), at, mark);
        }
        Run {
            at,
            place,
            mark,
            met,
        }
    }

    // Reads on from a set that has a place while steps are known.
    fn ride_ahead(&mut self, row: &Row<'_, M::Symbol>, scan: Scan<usize>) -> Scan<usize>
        requires within { AheadWithin (length row.now.symbols.now) scan }
        ensures aheaded { (m : Memory PositionSet) (from : ℕ) → Aheaded M.Automaton S.Shelf P.Policy m row.now.symbols.now from scan self.old → Aheaded M.Automaton S.Shelf P.Policy m row.now.symbols.now from result self.new }
        ensures ahead { scan.at ≤ result.at }
        ensures heard { RideHeard M.Automaton S.Shelf P.Policy self.old row.now.symbols.now Ahead scan.at scan.cursor self.new result.at result.cursor }
        ensures within { AheadWithin (length row.now.symbols.now) result }
        ensures automaton { self.new.automaton ≡ self.old.automaton }
    {
        let Some(place) = scan.cursor.place else {
            return scan;
        };
        let run = Run {
            at: scan.at,
            place,
            mark: scan.mark,
            met: PlaceSet::single(place),
        };
        let last = self.run_ahead(row, run);
        if last.at <= scan.at {
            return scan;
        }
        self.policy.touch(last.met);
        Scan {
            at: last.at,
            cursor: Cursor {
                set: self.sets[last.place as usize],
                place: Some(last.place),
            },
            mark: last.mark,
            counts: scan.counts.more_known(last.at - scan.at),
        }
    }

    // Is there a symbol to read, and a word that could go on?
    fn goes_on(&self, row: &Row<'_, M::Symbol>, scan: Scan<usize>) -> bool
        ensures { result ≡ (nat_lt scan.at (length row.now.symbols.now) && not ((subject M.Automaton self.now).machine.empty scan.cursor.set)) }
    {
        scan.at < row.symbols.len() && !self.automaton.is_empty(scan.cursor.set)
    }

    // Scans ahead from `start`, until the set is empty or the record ends.
    pub(in crate::scanner) fn scan_ahead(
        &mut self,
        row: &Row<'_, M::Symbol>,
        start: usize,
    ) -> Scan<usize>
        requires from { start ≤ length row.now.symbols.now }
        ensures reached { Ready M.Automaton S.Shelf P.Policy self.old → Reached M.Automaton S.Shelf P.Policy (memory S.Shelf P.Policy self.old) row.now.symbols.now start result self.new }
        ensures within { AheadWithin (length row.now.symbols.now) result }
        ensures automaton { self.new.automaton ≡ self.old.automaton }
    {
        let mut scan = Scan {
            at: start,
            cursor: Cursor {
                set: self.automaton.begin(),
                place: None,
            },
            mark: start,
            counts: Counts::default(),
        };
        while self.goes_on(row, scan) {
            scan = self.read_ahead(row, scan);
            scan = self.ride_ahead(row, scan);
        }
        scan
    }
}
