// The scan back, from the record's end: where words begin.
ghost use Rattle.std.specs.Prelude.{◌≡◌, ℕ, ◌-◌, ◌<◌, ◌≤◌, length, IfSome};
ghost use Rattle.law.specs.Memory.{Memory};
ghost use Rattle.sets.specs.Positions.{PositionSet};
ghost use Rattle.search.specs.Remembered.{memory, subject, Ready};
ghost use Rattle.law.specs.Reading.{Counts as Tallies};
ghost use Rattle.search.specs.Counted.{known_more};
ghost use Rattle.sets.specs.Places.{member};
ghost use Rattle.theory.specs.declared.Direction.TheVariants.{Back};
ghost use Rattle.search.specs.Heard.{Passed, RideHeard};
ghost use Rattle.search.specs.Scanning.{Backed, BackWithin, RidingBack};

use crate::counts::Counts;
use crate::row::Row;
use crate::scanner::{Cursor, Run, Scan, Scanner, marked};
use automaton::Automaton;
use memory::policy::Policy;
use memory::shelf::Shelf;
use sets::PlaceSet;
use theory::Direction;

impl<'p, M: Automaton, S: Shelf, P: Policy> Scanner<'p, M, S, P> {
    // Reads one symbol more.
    fn read_back(
        &mut self,
        row: &Row<'_, M::Symbol>,
        scan: Scan<Option<usize>>,
    ) -> Scan<Option<usize>>
        requires more { 0 < scan.at }
        requires within { BackWithin (length row.now.symbols.now) scan }
        ensures backed { (m : Memory PositionSet) → Backed M.Automaton S.Shelf P.Policy m row.now.symbols.now scan self.old → Backed M.Automaton S.Shelf P.Policy m row.now.symbols.now result self.new }
        ensures at { result.at ≡ scan.at - 1 }
        ensures within { BackWithin (length row.now.symbols.now) result }
        ensures automaton { self.new.automaton ≡ self.old.automaton }
    {
        let symbols = row.symbols;
        let at = scan.at - 1;
        let step = self.advance(Direction::Back, scan.cursor, symbols[at]);
        let begins = self.automaton.has_first(step.cursor.set);
        Scan {
            at,
            cursor: step.cursor,
            mark: marked(begins, Some(at), scan.mark),
            counts: scan.counts.plus(step.counts),
        }
    }

    // Reads on while steps are known. Nothing is written here, and a symbol costs one class and one look-up.
    fn run_back(
        &self,
        row: &Row<'_, M::Symbol>,
        from: usize,
        run: Run<Option<usize>>,
    ) -> Run<Option<usize>>
        requires from { from ≤ run.at }
        requires within { run.at ≤ length row.now.symbols.now }
        ensures riding { (m : Memory PositionSet) (k : Tallies) → RidingBack M.Automaton S.Shelf P.Policy m row.now.symbols.now run k self.now → RidingBack M.Automaton S.Shelf P.Policy m row.now.symbols.now result (known_more k (run.at - result.at)) self.now }
        ensures from { from ≤ result.at }
        ensures ahead { result.at ≤ run.at }
        ensures low { result.at < run.at → result.place < 64 }
        ensures passed { Passed (S.Shelf.steps self.now.shelf) (subject M.Automaton self.now).class_of row.now.symbols.now Back run.at run.place (member run.met) result.at result.place (member result.met) }
        ensures start { (n : ℕ) → run.at ≤ n → IfSome run.mark (λ s. (run.at ≤ s) × (s ≤ n)) → IfSome result.mark (λ s. (result.at ≤ s) × (s ≤ n)) }
    {
        let symbols = row.symbols;
        let mut at = run.at;
        let mut place = run.place;
        let mut mark = run.mark;
        let mut met = run.met;
        for i in (from..run.at).rev() {
            let class = self.automaton.class_of(symbols[i]);
            let Some(next) = self.shelf.know(place, class) else {
                break;
            };
            at = i;
            place = next;
            met = met.with(next);
            mark = marked(self.begins.has(next), Some(at), mark);
        }
        Run {
            at,
            place,
            mark,
            met,
        }
    }

    // Reads on from a set that has a place while steps are known.
    fn ride_back(
        &mut self,
        row: &Row<'_, M::Symbol>,
        from: usize,
        scan: Scan<Option<usize>>,
    ) -> Scan<Option<usize>>
        requires from { from ≤ scan.at }
        requires within { BackWithin (length row.now.symbols.now) scan }
        ensures backed { (m : Memory PositionSet) → Backed M.Automaton S.Shelf P.Policy m row.now.symbols.now scan self.old → Backed M.Automaton S.Shelf P.Policy m row.now.symbols.now result self.new }
        ensures from { from ≤ result.at }
        ensures back { result.at ≤ scan.at }
        ensures heard { RideHeard M.Automaton S.Shelf P.Policy self.old row.now.symbols.now Back scan.at scan.cursor self.new result.at result.cursor }
        ensures within { BackWithin (length row.now.symbols.now) result }
        ensures automaton { self.new.automaton ≡ self.old.automaton }
    {
        let Some(place) = scan.cursor.place else {
            return scan;
        };
        let run = Run {
            at: scan.at,
            place,
            mark: scan.mark,
            met: PlaceSet::single(place),
        };
        let end = self.run_back(row, from, run);
        if end.at >= scan.at {
            return scan;
        }
        self.policy.touch(end.met);
        Scan {
            at: end.at,
            cursor: Cursor {
                set: self.sets[end.place as usize],
                place: Some(end.place),
            },
            mark: end.mark,
            counts: scan.counts.more_known(scan.at - end.at),
        }
    }

    // Scans back from the record's end to `from`.
    pub(in crate::scanner) fn scan_back(
        &mut self,
        row: &Row<'_, M::Symbol>,
        from: usize,
    ) -> Scan<Option<usize>>
        requires from { from ≤ length row.now.symbols.now }
        ensures backed { Ready M.Automaton S.Shelf P.Policy self.old → Backed M.Automaton S.Shelf P.Policy (memory S.Shelf P.Policy self.old) row.now.symbols.now result self.new }
        ensures at { result.at ≡ from }
        ensures within { BackWithin (length row.now.symbols.now) result }
        ensures automaton { self.new.automaton ≡ self.old.automaton }
    {
        let mut scan = Scan {
            at: row.symbols.len(),
            cursor: Cursor {
                set: self.automaton.begin(),
                place: None,
            },
            mark: None,
            counts: Counts::default(),
        };
        while scan.at > from {
            scan = self.read_back(row, scan);
            scan = self.ride_back(row, from, scan);
        }
        scan
    }
}
