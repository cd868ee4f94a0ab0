// What a round does, and the fastest of some rounds.
use anyhow::anyhow;
use automaton::Automaton;
use memory::policy::Policy;
use memory::shelf::Shelf;
use search::{Counts, Found, Listed, Searcher};
use std::fmt;
use std::str::FromStr;
use std::time::Instant;
use theory::Span;

#[derive(Clone, Copy)]
pub enum Work {
    Find,
    List,
    Records,
}

// How many symbols a record of `Records` has.
const WIDTH: usize = 20;

// How many spans, their ends added up in some order that tells them apart, and what the reads came to.
#[derive(Clone, Copy, Default)]
struct Outcome {
    spans: u64,
    sum: u64,
    reads: u64,
    known: u64,
    built: u64,
    dropped: u64,
}

impl FromStr for Work {
    type Err = anyhow::Error;

    fn from_str(word: &str) -> anyhow::Result<Work> {
        match word {
            "find" => Ok(Work::Find),
            "list" => Ok(Work::List),
            "records" => Ok(Work::Records),
            _ => Err(anyhow!("the work is find, list or records")),
        }
    }
}

impl fmt::Display for Work {
    fn fmt<W: fmt::Write>(&self, f: &mut fmt::Formatter<W>) -> fmt::Result {
        match self {
            Work::Find => write!(f, "find"),
            Work::List => write!(f, "list"),
            Work::Records => write!(f, "records"),
        }
    }
}

impl Outcome {
    fn add_span(&mut self, span: Span) {
        self.spans = self.spans.wrapping_add(1);
        let ends = (span.start as u64)
            .wrapping_mul(31)
            .wrapping_add(span.end as u64);
        self.sum = self.sum.wrapping_add(ends);
    }

    fn add_counts(&mut self, counts: Counts) {
        self.reads = self.reads.wrapping_add(counts.reads as u64);
        self.known = self.known.wrapping_add(counts.known as u64);
        self.built = self.built.wrapping_add(counts.built as u64);
        self.dropped = self.dropped.wrapping_add(counts.dropped as u64);
    }

    fn add_found(&mut self, found: Found) {
        if let Some(span) = found.span {
            self.add_span(span);
        }
        self.add_counts(found.counts);
    }

    fn add_listed(&mut self, listed: Listed, entries: &[Span]) {
        for span in entries.iter().take(listed.written) {
            self.add_span(*span);
        }
        self.add_counts(listed.counts);
    }
}

fn round<M: Automaton, S: Shelf, P: Policy>(
    searcher: &mut Searcher<'_, M, S, P>,
    work: Work,
    record: &[M::Symbol],
    entries: &mut [Span],
) -> Outcome {
    let mut outcome = Outcome::default();
    match work {
        Work::Find => {
            if let Ok(found) = searcher.find(record, 0) {
                outcome.add_found(found);
            }
        }
        Work::List => {
            if let Ok(listed) = searcher.list(record, 0, entries) {
                outcome.add_listed(listed, entries);
            }
        }
        Work::Records => {
            for part in record.chunks(WIDTH) {
                if let Ok(found) = searcher.find(part, 0) {
                    outcome.add_found(found);
                }
            }
        }
    }
    outcome
}

pub fn time<M: Automaton, S: Shelf, P: Policy>(
    rt: &HostRuntime,
    searcher: &mut Searcher<'_, M, S, P>,
    work: Work,
    rounds: u32,
    record: &[M::Symbol],
) -> anyhow::Result<()> {
    let mut entries = vec![in rt.alloc(); Span { start: 0, end: 0 }; 4096]?;
    let mut outcome = Outcome::default();
    let mut fastest = u128::MAX;
    for _ in 0..rounds {
        let start = Instant::now(rt)?;
        outcome = round(searcher, work, record, entries.as_mut_slice());
        fastest = fastest.min(start.elapsed(rt)?.as_nanos());
    }
    let Outcome {
        spans,
        sum,
        reads,
        known,
        built,
        dropped,
    } = outcome;
    println!(rt;
        "{work} spans {spans} sum {sum} reads {reads} known {known} built {built} dropped {dropped}"
    )?;
    eprintln!(rt; "ns {fastest}")?;
    Ok(())
}
