// What a search means. The definitions stand in specs/ and their proofs in proofs/;
// each function here names a theorem by its contract.
#![tactic(auto)]

ghost use Rattle.std.specs.Prelude.{ℕ, Bool};
ghost use Rattle.theory.specs.Machine.{Machine};
ghost use Rattle.theory.specs.Theorems.{Telling, Answering, Searches, WithoutWords, Reading, Masking, Sealing, Alike};
ghost use Rattle.theory.specs.Trials.{Trials};

// The symbols `start` to `end - 1` of a record.
#[derive(Clone, Copy, Debug, Default, PartialEq, Eq)]
pub struct Span {
    pub start: usize,
    pub end: usize,
}

// Which way a scan reads.
#[derive(Clone, Copy, Debug, PartialEq, Eq)]
pub enum Direction {
    Ahead,
    Back,
}

// The step rule tells which rows are words, ahead and back, whatever the symbols.
pub fn words_stand<S>()
    ensures { Telling S }
{}

// A find and a list have one answer each: the leftmost, then longest.
pub fn answers_stand<S>()
    ensures { Answering S }
{}

// The scans give these answers, however sets of positions are held.
pub fn searches_stand<S, Q>()
    ensures { Searches S Q }
{}

// A pattern without words, as an empty draft gives one, can be searched with too.
pub fn wordless_stands<S, Q>()
    ensures { WithoutWords S Q }
{}

// What the searches read.
pub fn reads_stand<S, Q>()
    ensures { (m : Machine S Q) → Reading S Q m }
{}

// Sets of positions may be held as numbers of any width that suffices.
pub fn masks_stand<S>()
    ensures { (passes : ℕ → S → Bool) → Masking S passes }
{}

// The positions can be made straight from the codes.
pub fn sealing_stands()
    ensures { Sealing }
{}

// Symbols that every test treats alike may share a class.
pub fn classes_stand<S, Q>()
    ensures { Alike S Q }
{}

pub fn trials_stand()
    ensures { Trials }
{}
