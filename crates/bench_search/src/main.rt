// Times searches, for the benchmark. Each eight arguments are a run:
//
//   find|list|records  bytes|events  dense|pairs  clock|flush  LIMIT  ROUNDS  PATTERN  RECORD
//
// PATTERN and RECORD are files. `records` searches each 20 symbols for themselves. What was found goes to standard output,
// and the time of the fastest round to standard error.
#![tactic(auto)]

mod input;
mod job;
mod search_work;

use job::Job;
use std::env;

fn run(rt: &HostRuntime) -> anyhow::Result<()> {
    let words: Vec<String> = env::args(rt)?.skip(1).collect(rt.alloc())?;
    for run in words.as_slice().chunks(8) {
        Job::try_from(run)?.work(rt)?;
    }
    Ok(())
}

fn main(rt: HostRuntime) -> anyhow::Result<()> {
    run(&rt)
}
