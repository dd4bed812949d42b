//! A program that edits a shaping buffer: one command a line, one answer a line.
#![tactic(auto)]

use shaping_session::ending::run_to_end;
use std::process::ExitCode;

fn main(rt: HostRuntime) -> ExitCode {
    let mut reader = rt.reader();
    let mut writer = std::io::writer(&rt);
    run_to_end(rt.alloc(), &mut reader, &mut writer, &rt)
}
