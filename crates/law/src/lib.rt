// The law over every series of calls on one searcher, over models of its memory. The statements stand in specs/,
// their proofs in proofs/; each function here names a theorem by its contract.
#![tactic(auto)]

ghost use Rattle.law.specs.Subject.{Subject, Proper};
ghost use Rattle.law.specs.Law.{Law};
ghost use Rattle.law.specs.Alphabets.{FromAlphabet, FromMasks};
ghost use Rattle.law.specs.Trials.{Trials};

// Every series keeps the law, whatever the symbols and however sets of positions are held.
pub fn law_stands<S, Q>()
    ensures { (M : Subject S Q) → Proper M → Law M }
{}

// An alphabet that keeps its own law serves.
pub fn alphabets_stand<S, Q>()
    ensures { FromAlphabet S Q }
{}

// Sets of positions may be numbers.
pub fn masks_stand<S>()
    ensures { FromMasks S }
{}

// The definitions at small patterns.
pub fn trials_stand()
    ensures { Trials }
{}
