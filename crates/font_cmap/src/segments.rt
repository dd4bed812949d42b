//! Segments of codes (OpenType specification, `cmap`, "Format 4").

ghost use Rattle.std.specs.Prelude.{◌≡◌, ◌<◌, ◌≤◌, ◌^◌, ℕ, slice_index};
ghost use Rattle.font_cmap.specs.Subtables.{glyph_behind_range_offset, with_delta, glyph_in_segment};
ghost use Rattle.font_cmap.specs.Subtables.{segment_glyph, segments_glyph, some_glyph};
ghost use Rattle.font_cmap.specs.Runs.{glyph_of_segment, IsSegmentRun};

use crate::arrays::some_glyph;
use crate::runs::{FIRST_COUNT, row_run};
use crate::segment_lists::Segments;

/// The glyph that stands so many places behind the range offset of a row: behind all of the range offsets.
#[tactic(auto, unfolding(crate::specs::Subtables::glyph_behind_range_offset))]
fn glyph_behind_range_offset(segments: &Segments<'_>, row: u32, distance: usize) -> Option<u16>
    requires { distance < 2 ^ 36 }
    ensures { result ≡ glyph_behind_range_offset segments.now.table.now row distance }
{
    let place = row as usize + distance;
    if place < segments.count as usize {
        None
    } else {
        segments.id_range_offset(place)
    }
}

/// The glyph of a number with the delta added: what passes 65,535 goes on from 0.
fn with_delta(delta: u16, number: u32) -> Option<u16>
    ensures { result ≡ with_delta delta number }
{
    some_glyph((u64::from(number) + u64::from(delta)) % 65536)
}

/// A segment: its number, its start, its delta and its range offset.
#[derive(Clone, Copy)]
struct Segment {
    row: u32,
    start: u32,
    delta: u16,
    range_offset: u16,
}

/// The glyph that a segment gives to a code that it reaches.
#[tactic(auto, unfolding(crate::specs::Subtables::glyph_in_segment))]
fn glyph_in_segment(segments: &Segments<'_>, code: u32, segment: &Segment) -> Option<u16>
    ensures { result ≡ glyph_in_segment segments.now.table.now code segment.now.row segment.now.start
        segment.now.delta segment.now.range_offset }
{
    if code < segment.start {
        return None;
    }
    if segment.range_offset == 0 {
        return with_delta(segment.delta, code);
    }
    let distance = usize::from(segment.range_offset / 2) + (code - segment.start) as usize;
    let number = glyph_behind_range_offset(segments, segment.row, distance)?;
    let glyph = some_glyph(u64::from(number))?;
    with_delta(segment.delta, u32::from(glyph))
}

/// The number of that glyph; 0 where there is none.
#[tactic(auto, using(crate::proofs::Numbers::some_glyph_in_segment))]
fn number_in_segment(segments: &Segments<'_>, code: u32, segment: &Segment) -> u16
    ensures { some_glyph result ≡ glyph_in_segment segments.now.table.now code segment.now.row segment.now.start
        segment.now.delta segment.now.range_offset }
{
    glyph_in_segment(segments, code, segment).unwrap_or(0)
}

/// The segment of a row.
#[tactic(auto, unfolding(crate::specs::Subtables::segment_glyph))]
fn segment_of(segments: &Segments<'_>, row: u32) -> Option<Segment>
    ensures { (code : ℕ) → glyph_of_segment segments.now.table.now code result ≡ segment_glyph segments.now.table.now code row }
{
    let start = u32::from(segments.start_code(row)?);
    let delta = segments.id_delta(row)?;
    let range_offset = segments.id_range_offset(row as usize)?;
    Some(Segment {
        row,
        start,
        delta,
        range_offset,
    })
}

/// The segment that codes have, from one on up to `last`.
#[derive(Clone, Copy)]
struct SegmentRun {
    segment: Option<Segment>,
    last: u32,
}

impl SegmentRun {
    /// Puts the numbers of the glyphs of codes from one to before another in their places.
    #[inline]
    fn put(
        &self,
        glyphs: &mut [u16; FIRST_COUNT],
        start: usize,
        end: usize,
        segments: &Segments<'_>,
    )
        requires { end ≤ 128 }
        ensures before { (code : ℕ) → code < start → slice_index glyphs.new code ≡ slice_index glyphs.old code }
        ensures put { (code : ℕ) → start ≤ code → code < end
            → some_glyph (slice_index glyphs.new code) ≡ glyph_of_segment segments.now.table.now code self.now.segment }
    {
        for code in start..end {
            glyphs[code] = match &self.segment {
                Some(segment) => number_in_segment(segments, code as u32, segment),
                None => 0,
            };
        }
    }
}

/// The segment of a code and of those behind it.
#[inline]
#[tactic(auto, unfolding(crate::specs::Subtables::segments_glyph))]
fn segment_run(segments: &Segments<'_>, code: u32) -> SegmentRun
    ensures goes { code ≤ result.last }
    ensures glyphs { IsSegmentRun segments.now.table.now result code }
{
    let run = row_run(segments, segments.count, code);
    let segment = match run.row {
        Some(row) => segment_of(segments, row),
        None => None,
    };
    SegmentRun {
        segment,
        last: run.last,
    }
}

/// The glyph of a code by format 4.
pub(crate) fn segments_glyph(segments: &Segments<'_>, code: u32) -> Option<u16>
    ensures { result ≡ segments_glyph segments.now.table.now code }
{
    let run = segment_run(segments, code);
    let segment = run.segment?;
    glyph_in_segment(segments, code, &segment)
}

/// The numbers of the glyphs of the first codes by format 4; 0 where a code has none.
pub(crate) fn first_segments_glyphs(segments: &Segments<'_>) -> [u16; FIRST_COUNT]
    ensures { (code : ℕ) → code < 128 → some_glyph (slice_index result code) ≡ segments_glyph segments.now.table.now code }
{
    let mut glyphs = [0; FIRST_COUNT];
    let mut code = 0;
    while code < FIRST_COUNT {
        let run = segment_run(segments, code as u32);
        let end = FIRST_COUNT.min((run.last as usize).saturating_add(1));
        run.put(&mut glyphs, code, end, segments);
        code = end;
    }
    glyphs
}
