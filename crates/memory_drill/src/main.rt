// Drives each shelf and each policy through some thousand scripted calls, beside a plain model in maps
// and sets of the standard library, and prints how many calls there were and how many answers differed.
#![tactic(auto)]

mod chance;
mod policy_drill;
mod policy_model;
mod shelf_drill;
mod shelf_model;

use policies::{Clock, FlushAll};
use policy_drill::drill_policy;
use policy_model::{PolicyModel, Rule};
use shelf_drill::drill_shelf;
use shelf_model::ShelfModel;
use shelves::{DenseShelf, PairShelf};

// A dense shelf on so many bytes, which are anything at first.
fn dense(rt: &HostRuntime, len: usize, places: u8, seed: u64) -> anyhow::Result<()> {
    let mut bytes = vec![in rt.alloc(); 7u8; len]?;
    let model = ShelfModel::new(rt.alloc(), places, 256 * places as usize);
    let tally = drill_shelf(
        rt.alloc(),
        DenseShelf::new(bytes.as_mut_slice()),
        model,
        seed,
    )?;
    println!(rt; "dense shelf on {len} bytes: {tally}")?;
    Ok(())
}

fn pairs(rt: &HostRuntime, seed: u64) -> anyhow::Result<()> {
    let model = ShelfModel::new(rt.alloc(), 64, 512);
    let tally = drill_shelf(rt.alloc(), PairShelf::new(), model, seed)?;
    println!(rt; "pair shelf: {tally}")?;
    Ok(())
}

fn policies_of_both_kinds(rt: &HostRuntime) -> anyhow::Result<()> {
    let model = PolicyModel::new(rt.alloc(), Rule::FlushAll);
    let tally = drill_policy(rt.alloc(), FlushAll::new(), model, 41)?;
    println!(rt; "flush-all: {tally}")?;
    let model = PolicyModel::new(rt.alloc(), Rule::Clock);
    let tally = drill_policy(rt.alloc(), Clock::new(), model, 43)?;
    println!(rt; "clock: {tally}")?;
    Ok(())
}

fn run(rt: &HostRuntime) -> anyhow::Result<()> {
    dense(rt, 16384, 64, 11)?;
    dense(rt, 20000, 64, 13)?;
    dense(rt, 1500, 5, 17)?;
    dense(rt, 256, 1, 19)?;
    dense(rt, 255, 0, 23)?;
    pairs(rt, 29)?;
    pairs(rt, 31)?;
    policies_of_both_kinds(rt)
}

fn main(rt: HostRuntime) -> anyhow::Result<()> {
    run(&rt)
}
