//! Glyphs as a text.

ghost use Rattle.std.specs.Prelude.{◌≡◌, ◌++◌, ◌∷◌, [], length, IfOk, OnOk, OnErr, ◌<◌};
ghost use Rattle.std.specs.Prelude.{codes, string_bytes, unwrap_or};
ghost use Rattle.std.specs.Fmt.{decimal, signed_decimal};
ghost use Rattle.std.specs.List.{zip};
ghost use Rattle.glyph_text.specs.Text as texts;
ghost use Rattle.glyph_text.specs.Text.{said_of, bar_before, name_text, cluster_text, offset_text};
ghost use Rattle.glyph_text.specs.Text.{advance_text, position_text, flags_text, extents_text, box_text};
ghost use Rattle.glyph_text.specs.Pen.{IsNear};

use crate::number_text::NumberText;
use crate::parts::{Pen, extents_of, name_of};
use bitflags::Flags;
use itoa::{Buffer, Integer};
use rb_glyph::{
    GlyphExtents, GlyphNames, GlyphPosition, SerializeFlags, glyph_flag, hb_glyph_info_t,
};
use std::alloc::{AllocError, Global};

/// The room that is made for each glyph's text at first. Where the texts are longer, they make more.
const LIKELY_LENGTH: usize = 16;

/// The texts of the glyphs, joined by `|`. The text of a glyph is, in this order:
///
/// - its name, or `gid` and its number where the font has no name for it; under `NO_GLYPH_NAMES` the number alone;
/// - `=` and the cluster, except under `NO_CLUSTERS`;
/// - `@x,y`, the offsets, unless both are 0, and except under `NO_POSITIONS`;
/// - `+x`, the advance, and `,y` unless that is 0, except under `NO_POSITIONS` and `NO_ADVANCES`;
/// - under `GLYPH_FLAGS` `#` and the glyph flags as a digit, unless they are 0;
/// - under `GLYPH_EXTENTS` `<x_bearing,y_bearing,width,height>`, zeros where the font has none.
///
/// Under `NO_ADVANCES` the sums of all earlier advances are added to the offsets.
///
/// Requires as many positions as glyphs. A number past 65535 is no glyph's: the font is not asked for it.
/// `Err(AllocError)` where memory ran out: then there is no text. With no glyph it never does.
pub fn glyphs_text<F: GlyphNames>(
    alloc: Global,
    font: &F,
    flags: SerializeFlags,
    infos: &[hb_glyph_info_t],
    positions: &[GlyphPosition],
) -> Result<String, AllocError>
    requires { length positions.now ≡ length infos.now }
    ensures is { IfOk result (λ text. string_bytes text ≡ texts.glyphs_text
        (record { name = F.name_of font.now; extents = F.extents_of font.now }) flags
        (zip infos.now positions.now)) }
    ensures wants { OnErr result (0 < length infos.now) }
{
    let mut text = String::with_capacity(alloc, infos.len().saturating_mul(LIKELY_LENGTH))?;
    write_glyphs(&mut text, font, flags, infos, positions)?;
    Ok(text)
}

/// Each glyph's text, with bars between them.
#[tactic(auto, using(crate::proofs::TextLemmas::glyphs_text_all))]
fn write_glyphs<F: GlyphNames>(
    text: &mut String,
    font: &F,
    flags: SerializeFlags,
    infos: &[hb_glyph_info_t],
    positions: &[GlyphPosition],
) -> Result<(), AllocError>
    requires as_many { length positions.now ≡ length infos.now }
    requires empty { string_bytes text.old ≡ [] }
    ensures is { OnOk result (string_bytes text.new ≡ texts.glyphs_text
        (record { name = F.name_of font.now; extents = F.extents_of font.now }) flags
        (zip infos.now positions.now)) }
    ensures wants { OnErr result (0 < length infos.now) }
{
    let mut pen = Pen { x: 0, y: 0 };
    for (i, info) in infos.iter().enumerate() {
        let position = &positions[i];
        write_head(text, font, flags, i, info)?;
        write_position(text, flags, pen, position)?;
        write_flags(text, flags, info)?;
        write_extents(text, font, flags, info)?;
        pen = pen.behind(flags, position);
    }
    Ok(())
}

/// The name of a glyph and its cluster, and what stands before them.
fn write_head<F: GlyphNames>(
    text: &mut String,
    font: &F,
    flags: SerializeFlags,
    i: usize,
    info: &hb_glyph_info_t,
) -> Result<(), AllocError>
    ensures { OnOk result (string_bytes text.new ≡ string_bytes text.old ++ bar_before i
        ++ name_text flags (said_of (F.name_of font.now) info.now.glyph_id) info.now.glyph_id
        ++ cluster_text flags info.now.cluster) }
{
    if flags.contains(SerializeFlags::NO_GLYPH_NAMES) {
        return write_numbers(text, flags, i, info);
    }
    write_bar(text, i)?;
    write_name(text, font, info)?;
    write_cluster(text, flags, info)
}

/// The number of a glyph and its cluster, and what stands before them, by one copy.
fn write_numbers(
    text: &mut String,
    flags: SerializeFlags,
    i: usize,
    info: &hb_glyph_info_t,
) -> Result<(), AllocError>
    ensures { OnOk result (string_bytes text.new ≡ string_bytes text.old ++ bar_before i
        ++ decimal info.now.glyph_id ++ cluster_text flags info.now.cluster) }
{
    let mut numbers = NumberText::new();
    if !flags.contains(SerializeFlags::NO_CLUSTERS) {
        numbers.put_number(info.cluster);
        numbers.put_sign(b'=');
    }
    numbers.put_number(info.glyph_id);
    if i > 0 {
        numbers.put_sign(b'|');
    }
    text.push_str(numbers.as_str())
}

/// The bar before each glyph except the first.
fn write_bar(text: &mut String, i: usize) -> Result<(), AllocError>
    ensures { OnOk result (string_bytes text.new ≡ string_bytes text.old ++ bar_before i) }
{
    if i > 0 {
        text.push('|')?;
    }
    Ok(())
}

/// A character, and then a number.
#[inline]
fn write_behind<I: Integer>(text: &mut String, before: char, number: I) -> Result<(), AllocError>
    requires { before < 128 }
    ensures { OnOk result (string_bytes text.new
        ≡ string_bytes text.old ++ before ∷ I.text number) }
{
    text.push(before)?;
    write_number(text, number)
}

#[inline]
fn write_number<I: Integer>(text: &mut String, number: I) -> Result<(), AllocError>
    ensures { OnOk result (string_bytes text.new ≡ string_bytes text.old ++ I.text number) }
{
    let mut digits = Buffer::new();
    text.push_str(digits.format(number))
}

/// The name of a glyph, or its number where the font has none.
fn write_name<F: GlyphNames>(
    text: &mut String,
    font: &F,
    info: &hb_glyph_info_t,
) -> Result<(), AllocError>
    ensures { OnOk result (string_bytes text.new ≡ string_bytes text.old
        ++ unwrap_or (said_of (F.name_of font.now) info.now.glyph_id)
        (codes "gid" ++ decimal info.now.glyph_id)) }
{
    match name_of(font, info) {
        Some(name) => text.push_str(name),
        None => {
            text.push_str("gid")?;
            write_number(text, info.glyph_id)
        }
    }
}

fn write_cluster(
    text: &mut String,
    flags: SerializeFlags,
    info: &hb_glyph_info_t,
) -> Result<(), AllocError>
    ensures { OnOk result (string_bytes text.new
        ≡ string_bytes text.old ++ cluster_text flags info.now.cluster) }
{
    if flags.contains(SerializeFlags::NO_CLUSTERS) {
        return Ok(());
    }
    write_behind(text, '=', info.cluster)
}

fn write_position(
    text: &mut String,
    flags: SerializeFlags,
    pen: Pen,
    position: &GlyphPosition,
) -> Result<(), AllocError>
    requires { IsNear pen }
    ensures { OnOk result (string_bytes text.new
        ≡ string_bytes text.old ++ position_text flags pen.x pen.y position.now) }
{
    if flags.contains(SerializeFlags::NO_POSITIONS) {
        return Ok(());
    }
    if flags.contains(SerializeFlags::NO_ADVANCES) {
        return write_offset(text, pen.plus_offset(position));
    }
    write_offset(text, offset_of(position))?;
    write_advance(text, position)
}

/// The offsets of a glyph.
fn offset_of(position: &GlyphPosition) -> Pen
    ensures x { result.x ≡ position.now.x_offset }
    ensures y { result.y ≡ position.now.y_offset }
{
    Pen {
        x: i128::from(position.x_offset),
        y: i128::from(position.y_offset),
    }
}

fn write_offset(text: &mut String, offset: Pen) -> Result<(), AllocError>
    ensures { OnOk result (string_bytes text.new
        ≡ string_bytes text.old ++ offset_text offset.x offset.y) }
{
    if offset.x == 0 && offset.y == 0 {
        return Ok(());
    }
    write_behind(text, '@', offset.x)?;
    write_behind(text, ',', offset.y)
}

fn write_advance(text: &mut String, position: &GlyphPosition) -> Result<(), AllocError>
    ensures { OnOk result (string_bytes text.new
        ≡ string_bytes text.old ++ advance_text position.now.x_advance position.now.y_advance) }
{
    write_behind(text, '+', position.x_advance)?;
    if position.y_advance == 0 {
        return Ok(());
    }
    write_behind(text, ',', position.y_advance)
}

fn write_flags(
    text: &mut String,
    flags: SerializeFlags,
    info: &hb_glyph_info_t,
) -> Result<(), AllocError>
    ensures { OnOk result (string_bytes text.new
        ≡ string_bytes text.old ++ flags_text flags info.now.mask) }
{
    let defined = info.mask & glyph_flag::DEFINED;
    if !flags.contains(SerializeFlags::GLYPH_FLAGS) || defined == 0 {
        return Ok(());
    }
    write_behind(text, '#', defined)
}

fn write_extents<F: GlyphNames>(
    text: &mut String,
    font: &F,
    flags: SerializeFlags,
    info: &hb_glyph_info_t,
) -> Result<(), AllocError>
    ensures { OnOk result (string_bytes text.new
        ≡ string_bytes text.old ++ extents_text flags (said_of (F.extents_of font.now) info.now.glyph_id)) }
{
    if !flags.contains(SerializeFlags::GLYPH_EXTENTS) {
        return Ok(());
    }
    write_box(text, extents_of(font, info))
}

fn write_box(text: &mut String, extents: GlyphExtents) -> Result<(), AllocError>
    ensures { OnOk result (string_bytes text.new ≡ string_bytes text.old ++ box_text extents) }
{
    write_pair(text, '<', extents.x_bearing, extents.y_bearing)?;
    write_pair(text, ',', extents.width, extents.height)?;
    text.push('>')
}

fn write_pair(text: &mut String, before: char, first: i32, second: i32) -> Result<(), AllocError>
    requires { before < 128 }
    ensures { OnOk result (string_bytes text.new ≡ string_bytes text.old ++ before
        ∷ signed_decimal first ++ 44 ∷ signed_decimal second) }
{
    write_behind(text, before, first)?;
    write_behind(text, ',', second)
}
