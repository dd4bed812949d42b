//! Shapes the lines of a text with a font, and prints their glyphs as HarfBuzz's hb-shape does.
#![tactic(auto)]

use shape_command::ending::run_to_end;
use std::process::ExitCode;

fn main(rt: HostRuntime) -> ExitCode {
    run_to_end(&rt)
}
