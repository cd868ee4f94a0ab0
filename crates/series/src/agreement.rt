// Two series of calls for one pattern agree.
ghost use Rattle.std.specs.Prelude.{◌≡◌, min, length, take};
ghost use Rattle.law.specs.Law.{Lawful};
ghost use Rattle.search.specs.Remembered.{memory};
ghost use Rattle.series.specs.Performed.{requests, replies, Same, Spared};

use crate::answer::Answer;
use crate::series::{Call, Session, run};
use automaton::Automaton;
use memory::policy::Policy;
use memory::shelf::Shelf;
use refusal::Refusal;
use theory::Span;

// One of two series: the calls, what is lent for their entries and answers, and the shelf and the policy that its
// searcher is opened on. What is lent comes first: a clause names what is left there by places, `exit.0` and `exit.1.0`.
#[derive(Drop)]
pub struct Side<'c, 'r, 'e, T, S, P> {
    pub entries: &'e mut [Span],
    pub answers: &'e mut [Result<Answer, Refusal>],
    pub calls: &'c [Call<'r, T>],
    pub shelf: S,
    pub policy: P,
}

// Two series of calls for one pattern, each with its searcher.
#[derive(Drop)]
pub struct Agreement<'p, M: Automaton, S: Shelf, P: Policy, T: Shelf, Q: Policy> {
    pub first: Session<'p, M, S, P>,
    pub second: Session<'p, M, T, Q>,
}

// Makes two series of calls for one pattern, each on a searcher that is opened for it, and with entries and answers of
// its own. With it a program compares two ways to remember: whatever shelves, policies, limits and clears the two
// have, the same searches in order come to the same findings, refusals and reads.
pub fn agree<'p, M: Automaton, S: Shelf, P: Policy, T: Shelf, Q: Policy>(
    automaton: &'p M,
    first: Side<'_, '_, '_, M::Symbol, S, P>,
    second: Side<'_, '_, '_, M::Symbol, T, Q>,
) -> Agreement<'p, M, S, P, T, Q>
    ensures counts { (result.first.made ≡ min (length first.entry.calls.now) (length first.entry.answers.now)) × (result.second.made ≡ min (length second.entry.calls.now) (length second.entry.answers.now)) }
    ensures first { Lawful (M.Automaton.subject automaton.now) (S.Shelf.room first.entry.shelf) (S.Shelf.most first.entry.shelf) (requests (length first.entry.entries.now) (take result.first.made first.entry.calls.now)) (replies first.exit.0.now (take result.first.made first.entry.calls.now) (take result.first.made first.exit.1.0.now)) (memory S.Shelf P.Policy result.first.searcher) }
    ensures second { Lawful (M.Automaton.subject automaton.now) (T.Shelf.room second.entry.shelf) (T.Shelf.most second.entry.shelf) (requests (length second.entry.entries.now) (take result.second.made second.entry.calls.now)) (replies second.exit.0.now (take result.second.made second.entry.calls.now) (take result.second.made second.exit.1.0.now)) (memory T.Shelf Q.Policy result.second.searcher) }
    ensures same { Same (requests (length first.entry.entries.now) (take result.first.made first.entry.calls.now)) (replies first.exit.0.now (take result.first.made first.entry.calls.now) (take result.first.made first.exit.1.0.now)) (requests (length second.entry.entries.now) (take result.second.made second.entry.calls.now)) (replies second.exit.0.now (take result.second.made second.entry.calls.now) (take result.second.made second.exit.1.0.now)) }
    ensures automaton { (result.first.searcher.automaton ≡ automaton.entry) × (result.second.searcher.automaton ≡ automaton.entry) }
    ensures spared { Spared result.first.made first.entry.calls.now first.entry.entries.now first.exit.0.now first.entry.answers.now first.exit.1.0.now × Spared result.second.made second.entry.calls.now second.entry.entries.now second.exit.0.now second.entry.answers.now second.exit.1.0.now }
{
    let Side {
        entries,
        answers,
        calls,
        shelf,
        policy,
    } = first;
    let one = run(automaton, shelf, policy, calls, entries, answers);
    let Side {
        entries,
        answers,
        calls,
        shelf,
        policy,
    } = second;
    let two = run(automaton, shelf, policy, calls, entries, answers);
    Agreement {
        first: one,
        second: two,
    }
}
