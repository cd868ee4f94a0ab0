// A series of calls on one searcher, and the law that it keeps.
ghost use Rattle.std.specs.Prelude.{◌≡◌, ℕ, ◌+◌, ◌≤◌, min, length, take, drop};
ghost use Rattle.law.specs.Calls.{Series};
ghost use Rattle.law.specs.Law.{Lawful};
ghost use Rattle.search.specs.Remembered.{memory, subject};
ghost use Rattle.search.specs.Calling.{Called};
ghost use Rattle.series.specs.Answers.{reply, written};
ghost use Rattle.series.specs.Performed.{portion, request, requests, replies, behind, taken, Agrees, Continues};

use crate::answer::Answer;
use automaton::Automaton;
use memory::policy::Policy;
use memory::shelf::Shelf;
use refusal::Refusal;
use search::Searcher;
use theory::Span;

// One call on a searcher: a search, which borrows its record, or a change of what is remembered.
// A list says how many entries it wants.
pub enum Call<'r, T> {
    Find(&'r [T], usize),
    List(&'r [T], usize, usize),
    Whole(&'r [T]),
    Limit(usize),
    Clear,
}

// How many of the entries that are left the call takes.
fn share<T>(call: &Call<'_, T>, left: usize) -> usize
    ensures { result ≡ portion call.now left }
{
    match call {
        Call::List(_, _, entries) => (*entries).min(left),
        _ => 0,
    }
}

// Makes one call.
fn make<M: Automaton, S: Shelf, P: Policy>(
    s: &mut Searcher<'_, M, S, P>,
    call: &Call<'_, M::Symbol>,
    entries: &mut [Span],
) -> Result<Answer, Refusal>
    ensures called { Called M.Automaton S.Shelf P.Policy s.old (request (length entries.old) call.now) s.new (reply entries.new result) }
    ensures behind { drop (written result) entries.new ≡ drop (written result) entries.old }
    ensures automaton { s.new.automaton ≡ s.old.automaton }
{
    match call {
        Call::Find(row, from) => s.find(row, *from).map(Answer::Found),
        Call::List(row, from, _) => s.list(row, *from, entries).map(Answer::Listed),
        Call::Whole(row) => s.whole(row).map(Answer::Whole),
        Call::Limit(limit) => s.limit(*limit).map(Answer::Dropped),
        Call::Clear => Ok(Answer::Dropped(s.clear())),
    }
}

// Makes each call in turn, as far as there are places for the answers, and says how many it made.
// Lists take their entries from the front of what is left of `entries`.
// Whatever calls were made on the searcher before, all together keep the law.
pub fn perform<M: Automaton, S: Shelf, P: Policy>(
    s: &mut Searcher<'_, M, S, P>,
    calls: &[Call<'_, M::Symbol>],
    entries: &mut [Span],
    answers: &mut [Result<Answer, Refusal>],
) -> usize
    ensures count { result ≡ min (length calls.now) (length answers.old) }
    ensures series { Series (subject M.Automaton s.old) (memory S.Shelf P.Policy s.old) (requests (length entries.old) (take result calls.now)) (replies entries.new (take result calls.now) (take result answers.new)) (memory S.Shelf P.Policy s.new) }
    ensures law { Continues (subject M.Automaton s.old) (memory S.Shelf P.Policy s.old) (requests (length entries.old) (take result calls.now)) (replies entries.new (take result calls.now) (take result answers.new)) (memory S.Shelf P.Policy s.new) }
    ensures unanswered { drop result answers.new ≡ drop result answers.old }
    ensures behind { behind entries.new (take result calls.now) (take result answers.new) ≡ behind entries.old (take result calls.now) (take result answers.new) }
    ensures untaken { drop (taken (length entries.old) (take result calls.now)) entries.new ≡ drop (taken (length entries.old) (take result calls.now)) entries.old }
    ensures automaton { s.new.automaton ≡ s.old.automaton }
{
    let count = calls.len().min(answers.len());
    let mut used = 0;
    for (i, call) in calls[..count].iter().enumerate() {
        let n = share(call, entries.len() - used);
        answers[i] = make(s, call, &mut entries[used..used + n]);
        used += n;
    }
    count
}

// A series of calls on a searcher that was opened for it: how many calls were made, and the searcher.
#[derive(Drop)]
pub struct Session<'p, M: Automaton, S: Shelf, P: Policy> {
    pub made: usize,
    pub searcher: Searcher<'p, M, S, P>,
}

// Opens a searcher and makes a series of calls on it. The law holds of it, whatever the calls, the shelf and the policy are.
pub fn run<'p, M: Automaton, S: Shelf, P: Policy>(
    automaton: &'p M,
    shelf: S,
    policy: P,
    calls: &[Call<'_, M::Symbol>],
    entries: &mut [Span],
    answers: &mut [Result<Answer, Refusal>],
) -> Session<'p, M, S, P>
    ensures count { result.made ≡ min (length calls.now) (length answers.old) }
    ensures law { Lawful (M.Automaton.subject automaton.now) (S.Shelf.room shelf) (S.Shelf.most shelf) (requests (length entries.old) (take result.made calls.now)) (replies entries.new (take result.made calls.now) (take result.made answers.new)) (memory S.Shelf P.Policy result.searcher) }
    ensures agrees { Agrees (M.Automaton.subject automaton.now) (requests (length entries.old) (take result.made calls.now)) (replies entries.new (take result.made calls.now) (take result.made answers.new)) }
    ensures automaton { result.searcher.automaton ≡ automaton.entry }
    ensures unanswered { drop result.made answers.new ≡ drop result.made answers.old }
    ensures behind { behind entries.new (take result.made calls.now) (take result.made answers.new) ≡ behind entries.old (take result.made calls.now) (take result.made answers.new) }
    ensures untaken { drop (taken (length entries.old) (take result.made calls.now)) entries.new ≡ drop (taken (length entries.old) (take result.made calls.now)) entries.old }
{
    let mut searcher = Searcher::open(automaton, shelf, policy);
    let made = perform(&mut searcher, calls, entries, answers);
    Session { made, searcher }
}
