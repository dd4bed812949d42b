//! How long the calls of the buffer take: a program that measures them, each by a workload of its own.
#![tactic(auto)]

use bench::measure_wanted;
use std::env;

mod bench;
mod item;
mod lists;
mod measuring;
mod pass;
mod ranges;
mod shaper_passes;
mod shaper_tables;
mod tags;
mod texts;
mod walks;
mod workload;

/// What is printed where no workload is named.
const USAGE: &str = "\
shaping_bench all: measures every workload.
shaping_bench PART ..: measures the workloads whose names have one of the parts in them.
A line for each has its name, how many glyphs the list has, and the least time of many runs,
in picoseconds a glyph (of the last three workloads, a text or a pair).";

fn main(rt: HostRuntime) -> anyhow::Result<()> {
    let mut parts = env::args(&rt)?.skip(1).peekable();
    if parts.peek().is_none() {
        println!(rt; "{USAGE}")?;
        return Ok(());
    }
    let mut wanted = Vec::new(rt.alloc());
    for part in parts {
        wanted.push(part)?;
    }
    measure_wanted(&rt, rt.alloc(), &wanted)
}
