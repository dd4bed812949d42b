//! The least time of many runs.

use std::alloc::Global;
use std::time::{Clock, Duration, Instant};

/// A thing on which work is timed, again and again.
pub trait Item {
    /// Puts the thing into the state in which the work finds it. This is not timed.
    fn prepare(&mut self) -> anyhow::Result<()>;

    /// The work that is timed. It gives a number that its result decides, so that no work can be left out.
    fn run(&mut self) -> anyhow::Result<u32>;
}

/// The runs that come first and don't count.
const WARM_RUNS: usize = 3;

/// The fewest runs that are made, and the most.
const FEWEST_RUNS: usize = 18;

const MOST_RUNS: usize = 5000;

/// The time in milliseconds after which no further run is made, once there are the fewest, and that after which none
/// is.
const BUDGET: u128 = 400;

const LONGEST: u128 = 10_000;

/// The size of a block behind what the first run took. It keeps the allocator from giving memory back to the system
/// between runs, only to ask for fresh pages again.
const BLOCK_BEHIND: usize = 65_536;

/// The least time and what the work gave.
#[derive(Clone, Copy)]
pub struct Measured {
    pub nanos: u64,
    pub seen: u32,
}

/// Runs the work on each item, many times over.
pub fn measure<R: Clock, I: Item>(
    rt: &R,
    alloc: Global,
    items: &mut [I],
) -> anyhow::Result<Measured> {
    let mut behind: Vec<u8> = Vec::new(alloc);
    let begin = Instant::now(rt)?;
    let mut least = u64::MAX;
    let mut seen = 0;
    for done in 0..MOST_RUNS {
        if is_enough(done, begin.elapsed(rt)?) {
            break;
        }
        prepare_all(items)?;
        let start = Instant::now(rt)?;
        seen = run_all(items)?;
        let nanos = nanos_of(start.elapsed(rt)?);
        behind.reserve(BLOCK_BEHIND)?;
        if done >= WARM_RUNS {
            least = least.min(nanos);
        }
    }
    Ok(Measured { nanos: least, seen })
}

/// Whether no further run is to be made.
fn is_enough(done: usize, elapsed: Duration) -> bool {
    let millis = elapsed.as_millis();
    done > WARM_RUNS && (millis > LONGEST || done >= FEWEST_RUNS && millis > BUDGET)
}

/// A time in nanoseconds, as far as the type goes.
fn nanos_of(time: Duration) -> u64 {
    u64::try_from(time.as_nanos()).unwrap_or(u64::MAX)
}

fn prepare_all<I: Item>(items: &mut [I]) -> anyhow::Result<()> {
    for item in items.iter_mut() {
        item.prepare()?;
    }
    Ok(())
}

fn run_all<I: Item>(items: &mut [I]) -> anyhow::Result<u32> {
    let mut seen = 0u32;
    for item in items.iter_mut() {
        seen = seen.wrapping_add(item.run()?);
    }
    Ok(seen)
}
