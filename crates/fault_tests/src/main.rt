//! A program that watches the library where memory is refused to it: scenario by scenario it makes calls, and after
//! each that runs out of memory it compares all that can be seen with what stood before the call, and makes it again.
//! It prints a line for each scenario, and the same lines whichever allocation was refused. `tools/faults` refuses
//! each.
#![tactic(auto)]

use growth::GROWTHS;
use program::Program;
use rendered::RENDERED;
use run::Run;
use runs::in_place::IN_PLACE;
use runs::separate::{BECOMING, SEPARATE_RUNS};
use runs::whole::WHOLE;
use runs::within_room::WITHIN_ROOM;
use said::{Made, Tags, Told};
use scenario::{Scenario, tell};
use std::alloc::Global;
use std::io;
use written::Written;

mod beginning;
mod growth;
mod program;
mod rendered;
mod run;
mod runs;
mod said;
mod scenario;
mod seen;
mod written;

/// Tells of one scenario after the other.
fn tell_all<S: Scenario>(rt: &impl Print, alloc: Global, scenarios: &[S]) -> io::Result<()> {
    for scenario in scenarios {
        tell(rt, alloc, scenario)?;
    }
    Ok(())
}

fn main(rt: HostRuntime) -> io::Result<()> {
    tell_all(&rt, rt.alloc(), &GROWTHS)?;
    let runs: [&[Run<'_>]; 5] = [&IN_PLACE, &BECOMING, &SEPARATE_RUNS, &WITHIN_ROOM, &WHOLE];
    for runs in runs {
        tell_all(&rt, rt.alloc(), runs)?;
    }
    tell_all(&rt, rt.alloc(), &RENDERED)?;
    tell(&rt, rt.alloc(), &Written)?;
    tell(&rt, rt.alloc(), &Made)?;
    tell(&rt, rt.alloc(), &Told)?;
    tell(&rt, rt.alloc(), &Tags)?;
    tell(&rt, rt.alloc(), &Program)
}
