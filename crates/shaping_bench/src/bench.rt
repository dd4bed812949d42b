//! Measures the workloads that are asked for, and prints a line for each.

use crate::item::{PassItem, TextItem};
use crate::measuring::{Item, Measured, measure};
use crate::pass::Pass;
use crate::shaper_passes::{ShaperItem, ShaperPass};
use crate::shaper_tables::Tables;
use crate::tags::{TagsItem, long_keys, pairs, rows};
use crate::texts::{FEATURES, FeaturesItem, NewTextItem, ReusedTextItem, mixed_text};
use crate::workload::{WORKLOADS, Workload};
use rb_text::Tag;
use std::alloc::{AllocError, Global};
use std::io::Print;
use std::time::Clock;
use unicode_tables::UnicodeRows;

/// How many glyphs the lists have.
const SIZES: [usize; 3] = [100, 10_000, 1_000_000];

/// As many glyphs as a run has at least: small lists run in a batch, so that the clock's own cost does not show.
const BATCH_GLYPHS: usize = 6400;

/// The longest a run on a larger list may be foreseen to take, in nanoseconds.
const LONGEST_RUN: u64 = 5_000_000_000;

/// The one row of a short table.
const ONE_ROW: [(&str, Tag); 1] = [("ml", Tag(0x4D41_4C20))];

/// Measures the workloads whose names have one of these parts in them, or with the part `all` every one.
pub fn measure_wanted<R: Clock + Print>(
    rt: &R,
    alloc: Global,
    parts: &[String],
) -> anyhow::Result<()> {
    let mut seen = 0u32;
    for (name, workload) in &WORKLOADS {
        if is_wanted(name, parts) {
            seen = seen.wrapping_add(measure_sizes(rt, alloc, name, *workload)?);
        }
    }
    println!(rt; "seen {seen}")?;
    Ok(())
}

fn is_wanted(name: &str, parts: &[String]) -> bool {
    parts.iter().any(|part| part.as_str() == "all" || name.contains(part.as_str()))
}

/// Measures one workload at each size, until a size would take too long.
fn measure_sizes<R: Clock + Print>(
    rt: &R,
    alloc: Global,
    name: &str,
    workload: Workload,
) -> anyhow::Result<u32> {
    let mut seen = 0u32;
    let mut picos = 0;
    for size in SIZES {
        let size_in_thousands = (size / 1000) as u64;
        if size_in_thousands.saturating_mul(picos) > LONGEST_RUN {
            break;
        }
        let measured = measure_workload(rt, alloc, workload, size)?;
        let glyphs = size
            .saturating_mul(batch(size))
            .saturating_mul(workload.times());
        picos = picos_of(measured.nanos, glyphs);
        println!(rt; "{name} {size} {picos}")?;
        seen = seen.wrapping_add(measured.seen);
    }
    Ok(seen)
}

/// A time in picoseconds a glyph.
fn picos_of(nanos: u64, glyphs: usize) -> u64 {
    nanos.saturating_mul(1000) / (glyphs as u64).max(1)
}

/// How many lists of a size make a run.
fn batch(size: usize) -> usize {
    (BATCH_GLYPHS / size.max(1)).max(1)
}

fn measure_workload<R: Clock>(
    rt: &R,
    alloc: Global,
    workload: Workload,
    size: usize,
) -> anyhow::Result<Measured> {
    match workload {
        Workload::NewText => measure_new_text(rt, alloc, size),
        Workload::ReusedText => measure_reused_text(rt, alloc, size),
        Workload::Calls(pass) => measure_pass(rt, alloc, pass, size),
        Workload::Serialized { positions } => measure_text(rt, alloc, positions, size),
        Workload::Shaping(pass) => measure_shaper_pass(rt, alloc, pass, size),
        Workload::Features => measure_features(rt, alloc, size),
        Workload::Tags { is_long: false } => measure_tags(rt, alloc, &ONE_ROW, size),
        Workload::Tags { is_long: true } => measure_long_table(rt, alloc, size),
    }
}

fn measure_new_text<R: Clock>(rt: &R, alloc: Global, size: usize) -> anyhow::Result<Measured> {
    let text = mixed_text(alloc, size)?;
    let mut items = Vec::new(alloc);
    for _ in 0..batch(size) {
        items.push(NewTextItem::new(alloc, &text))?;
    }
    measure(rt, alloc, &mut items)
}

fn measure_reused_text<R: Clock>(rt: &R, alloc: Global, size: usize) -> anyhow::Result<Measured> {
    let text = mixed_text(alloc, size)?;
    let mut items = Vec::new(alloc);
    for _ in 0..batch(size) {
        items.push(ReusedTextItem::new(alloc, &text))?;
    }
    measure(rt, alloc, &mut items)
}

fn measure_pass<R: Clock>(
    rt: &R,
    alloc: Global,
    pass: Pass,
    size: usize,
) -> anyhow::Result<Measured> {
    let mut items = Vec::new(alloc);
    for _ in 0..batch(size) {
        items.push(PassItem::new(alloc, pass, size))?;
    }
    measure(rt, alloc, &mut items)
}

fn measure_text<R: Clock>(
    rt: &R,
    alloc: Global,
    has_positions: bool,
    size: usize,
) -> anyhow::Result<Measured> {
    let mut items = Vec::new(alloc);
    for _ in 0..batch(size) {
        items.push(TextItem::new(alloc, size, has_positions)?)?;
    }
    measure(rt, alloc, &mut items)
}

fn measure_shaper_pass<R: Clock>(
    rt: &R,
    alloc: Global,
    pass: ShaperPass,
    size: usize,
) -> anyhow::Result<Measured> {
    let rows = UnicodeRows::new(alloc)?;
    let tables = Tables::new(&rows);
    let mut items = Vec::new(alloc);
    for _ in 0..batch(size) {
        items.push(ShaperItem::new(alloc, pass, &tables, size))?;
    }
    measure(rt, alloc, &mut items)
}

fn measure_features<R: Clock>(rt: &R, alloc: Global, size: usize) -> anyhow::Result<Measured> {
    let mut items = Vec::new(alloc);
    for _ in 0..batch(size) {
        items.push(FeaturesItem::new(&FEATURES, size))?;
    }
    measure(rt, alloc, &mut items)
}

fn measure_long_table<R: Clock>(rt: &R, alloc: Global, size: usize) -> anyhow::Result<Measured> {
    let keys = long_keys(alloc)?;
    let rows = rows(alloc, &keys)?;
    measure_tags(rt, alloc, &rows, size)
}

fn measure_tags<R: Clock>(
    rt: &R,
    alloc: Global,
    rows: &[(&str, Tag)],
    size: usize,
) -> anyhow::Result<Measured> {
    let pairs = pairs(alloc)?;
    let mut items = Vec::new(alloc);
    for _ in 0..batch(size) {
        items.push(TagsItem::new(&pairs, rows, size)?)?;
    }
    measure(rt, alloc, &mut items)
}
