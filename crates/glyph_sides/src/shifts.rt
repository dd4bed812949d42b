//! Glyphs that are moved in a list.

ghost use Rattle.std.specs.Prelude.{◌≡◌, ◌+◌, ◌^◌, ◌-◌, ◌<◌, ◌≤◌, ◌++◌, length, take, drop, vec_len, vec_capacity, slice_range, IfOk, OnOk, OnErr};

use rb_glyph::hb_glyph_info_t;
use std::alloc::AllocError;

const BLANK: hb_glyph_info_t = hb_glyph_info_t {
    glyph_id: 0,
    mask: 0,
    cluster: 0,
    var1: 0,
    var2: 0,
};

/// Moves `count` glyphs down, over those in between.
#[inline(always)]
#[tactic(auto, using(crate::proofs::ShiftLemmas::down))]
pub(crate) fn put_down(info: &mut Vec<hb_glyph_info_t>, to: usize, from: usize, count: usize)
    requires down { to ≤ from }
    requires within { from + count ≤ vec_len info.old }
    ensures len { vec_len info.new ≡ vec_len info.old }
    ensures put { take (to + count) info.new.items
        ≡ take to info.old.items ++ take count (drop from info.old.items) }
    ensures behind { drop (from + count) info.new.items ≡ drop (from + count) info.old.items }
    ensures capacity { vec_capacity info.new ≡ vec_capacity info.old }
{
    info.copy_within(from..from + count, to);
}

/// Puts the glyphs that were put out in place behind a separate output, with room for `more` behind them.
pub(crate) fn leave(
    out: &mut Vec<hb_glyph_info_t>,
    placed: &[hb_glyph_info_t],
    more: usize,
) -> Result<(), AllocError>
    requires fits { length placed.now + more < 2 ^ 64 }
    ensures is { OnOk result (out.new.items ≡ out.old.items ++ placed.now) }
    ensures room { OnOk result (length out.new.items + more ≤ vec_capacity out.new) }
    ensures capacity { vec_capacity out.old ≤ vec_capacity out.new }
    ensures same { OnErr result (out.new.items ≡ out.old.items) }
    ensures wants { OnErr result
        (vec_capacity out.old < length out.old.items + length placed.now + more) }
{
    out.reserve(placed.len() + more)?;
    out.extend_from_slice(placed).unwrap();
    Ok(())
}

/// Moves the glyphs from a place on down, over those in between.
#[inline(never)]
pub(crate) fn close_gap(info: &mut Vec<hb_glyph_info_t>, to: usize, from: usize)
    requires down { to ≤ from }
    requires within { from ≤ vec_len info.old }
    ensures is { info.new.items ≡ take to info.old.items ++ drop from info.old.items }
    ensures capacity { vec_capacity info.new ≡ vec_capacity info.old }
{
    if to < from {
        let count = info.len() - from;
        put_down(info, to, from, count);
        info.truncate(to + count);
    }
}

/// Moves the glyphs from `start` to `end` up, so that they end at a place: the input then begins with them.
#[tactic(auto, using(crate::proofs::ShiftLemmas::drop_is_range))]
pub(crate) fn shift_up(info: &mut Vec<hb_glyph_info_t>, start: usize, end: usize, at: usize)
    requires order { start ≤ end }
    requires up { end ≤ at }
    requires within { at ≤ vec_len info.old }
    ensures len { vec_len info.new ≡ vec_len info.old }
    ensures out { take start info.new.items ≡ take start (take end info.old.items) }
    ensures input { drop (at - (end - start)) info.new.items
        ≡ drop start (take end info.old.items) ++ drop at info.old.items }
    ensures capacity { vec_capacity info.new ≡ vec_capacity info.old }
{
    shift_range(info, start, end, at);
}

/// Moves a range as `shift_up` does. Its clauses speak of the range, as those of `copy_within` do.
fn shift_range(info: &mut Vec<hb_glyph_info_t>, start: usize, end: usize, at: usize)
    requires order { start ≤ end }
    requires up { end ≤ at }
    requires within { at ≤ vec_len info.old }
    ensures len { vec_len info.new ≡ vec_len info.old }
    ensures front { take start info.new.items ≡ take start info.old.items }
    ensures put { drop (at - (end - start)) info.new.items
        ≡ slice_range info.old.items start end ++ drop at info.old.items }
    ensures capacity { vec_capacity info.new ≡ vec_capacity info.old }
{
    info.as_mut_slice()
        .copy_within(start..end, at - (end - start));
}

/// Makes room for more glyphs, from `least` to `ample` of them, and answers for how many. Where there is room for
/// `least`, it takes what there is and asks for no memory. Else it asks for memory for `ample`, or where there is none
/// for so many, for `least`.
pub(crate) fn reserve_ample(
    info: &mut Vec<hb_glyph_info_t>,
    least: usize,
    ample: usize,
) -> Result<usize, AllocError>
    requires { least ≤ ample }
    ensures items { info.new.items ≡ info.old.items }
    ensures capacity { vec_capacity info.old ≤ vec_capacity info.new }
    ensures least { IfOk result (λ more. least ≤ more) }
    ensures room { IfOk result (λ more. vec_len info.new + more ≤ vec_capacity info.new) }
    ensures asks_for_none { vec_len info.old + least ≤ vec_capacity info.old
        → vec_capacity info.new ≡ vec_capacity info.old }
    ensures wants { OnErr result (vec_capacity info.old < vec_len info.old + least) }
{
    let spare = info.capacity() - info.len();
    if least <= spare {
        return Ok(ample.min(spare));
    }
    if info.reserve(ample).is_ok() {
        return Ok(ample);
    }
    info.reserve(least)?;
    Ok(least)
}

/// Moves the glyphs from a place on up by `more`, where there is room.
pub(crate) fn open_gap(info: &mut Vec<hb_glyph_info_t>, at: usize, more: usize)
    requires within { at ≤ vec_len info.old }
    requires room { vec_len info.old + more ≤ vec_capacity info.old }
    ensures len { vec_len info.new ≡ vec_len info.old + more }
    ensures moved { drop (at + more) info.new.items ≡ drop at info.old.items }
    ensures capacity { vec_capacity info.old ≤ vec_capacity info.new }
{
    let len = info.len();
    info.resize(len + more, BLANK).unwrap();
    info.as_mut_slice().copy_within(at..len, at + more);
}

/// Writes glyphs in front of a place.
pub(crate) fn write_before(info: &mut Vec<hb_glyph_info_t>, at: usize, glyphs: &[hb_glyph_info_t])
    requires within { at ≤ vec_len info.old }
    requires fits { length glyphs.now ≤ at }
    ensures len { vec_len info.new ≡ vec_len info.old }
    ensures put { drop (at - length glyphs.now) info.new.items
        ≡ glyphs.now ++ drop at info.old.items }
    ensures capacity { vec_capacity info.new ≡ vec_capacity info.old }
{
    info.as_mut_slice()[at - glyphs.len()..at].copy_from_slice(glyphs);
}
