// A run, as its words name it.
use crate::input;
use crate::search_work::{Work, time};
use anyhow::anyhow;
use automaton::Automaton;
use byte_classes::ByteClasses;
use byte_notation::Bytes;
use dense_shelf::DenseShelf;
use event_classes::EventCuts;
use event_notation::Events;
use memory::policy::Policy;
use memory::shelf::Shelf;
use pair_shelf::PairShelf;
use policies::{Clock, FlushAll};
use reader::Draft;
use search::Searcher;
use std::str::FromStr;

#[derive(Clone, Copy)]
enum Symbols {
    Bytes,
    Events,
}

#[derive(Clone, Copy)]
enum Shelves {
    Dense,
    Pairs,
}

#[derive(Clone, Copy)]
enum Policies {
    Clock,
    Flush,
}

#[derive(Clone, Copy)]
pub struct Job<'a> {
    work: Work,
    symbols: Symbols,
    shelf: Shelves,
    policy: Policies,
    limit: usize,
    rounds: u32,
    pattern: &'a str,
    record: &'a str,
}

impl FromStr for Symbols {
    type Err = anyhow::Error;

    fn from_str(word: &str) -> anyhow::Result<Symbols> {
        match word {
            "bytes" => Ok(Symbols::Bytes),
            "events" => Ok(Symbols::Events),
            _ => Err(anyhow!("the symbols are bytes or events")),
        }
    }
}

impl FromStr for Shelves {
    type Err = anyhow::Error;

    fn from_str(word: &str) -> anyhow::Result<Shelves> {
        match word {
            "dense" => Ok(Shelves::Dense),
            "pairs" => Ok(Shelves::Pairs),
            _ => Err(anyhow!("a shelf is dense or pairs")),
        }
    }
}

impl FromStr for Policies {
    type Err = anyhow::Error;

    fn from_str(word: &str) -> anyhow::Result<Policies> {
        match word {
            "clock" => Ok(Policies::Clock),
            "flush" => Ok(Policies::Flush),
            _ => Err(anyhow!("a policy is clock or flush")),
        }
    }
}

impl<'a> TryFrom<&'a [String]> for Job<'a> {
    type Error = anyhow::Error;

    fn try_from(words: &'a [String]) -> anyhow::Result<Job<'a>> {
        let [work, symbols, shelf, policy, limit, rounds, pattern, record] = words else {
            return Err(anyhow!("a run has eight words"));
        };
        Ok(Job {
            work: work.as_str().parse()?,
            symbols: symbols.as_str().parse()?,
            shelf: shelf.as_str().parse()?,
            policy: policy.as_str().parse()?,
            limit: limit.as_str().parse()?,
            rounds: rounds.as_str().parse()?,
            pattern: pattern.as_str(),
            record: record.as_str(),
        })
    }
}

impl<'a> Job<'a> {
    pub fn work(self, rt: &HostRuntime) -> anyhow::Result<()> {
        match self.symbols {
            Symbols::Bytes => {
                let pattern = input::pattern::<Bytes, ByteClasses>(
                    rt,
                    self.pattern,
                    Draft::default(),
                )?;
                let record = input::bytes(rt, self.record)?;
                self.search(rt, &pattern, record.as_slice())
            }
            Symbols::Events => {
                let pattern = input::pattern::<Events, EventCuts>(
                    rt,
                    self.pattern,
                    Draft::default(),
                )?;
                let record = input::events(rt, self.record)?;
                self.search(rt, &pattern, record.as_slice())
            }
        }
    }

    fn search<M: Automaton>(
        self,
        rt: &HostRuntime,
        pattern: &M,
        record: &[M::Symbol],
    ) -> anyhow::Result<()> {
        let mut bytes = [0u8; 16384];
        let dense = DenseShelf::new(&mut bytes);
        match (self.shelf, self.policy) {
            (Shelves::Dense, Policies::Clock) => {
                self.time(rt, pattern, dense, Clock::new(), record)
            }
            (Shelves::Dense, Policies::Flush) => {
                self.time(rt, pattern, dense, FlushAll::new(), record)
            }
            (Shelves::Pairs, Policies::Clock) => {
                self.time(rt, pattern, PairShelf::new(), Clock::new(), record)
            }
            (Shelves::Pairs, Policies::Flush) => {
                self.time(rt, pattern, PairShelf::new(), FlushAll::new(), record)
            }
        }
    }

    fn time<M: Automaton, S: Shelf + Drop, P: Policy + Drop>(
        self,
        rt: &HostRuntime,
        pattern: &M,
        shelf: S,
        policy: P,
        record: &[M::Symbol],
    ) -> anyhow::Result<()> {
        let mut searcher = Searcher::open(pattern, shelf, policy);
        let _ = searcher.limit(self.limit);
        time(rt, &mut searcher, self.work, self.rounds, record)
    }
}
