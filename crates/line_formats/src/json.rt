//! Glyphs as JSON.

ghost use Rattle.std.specs.Prelude.{◌≡◌, ◌++◌, ◌∷◌, [], length, IfOk, OnOk, codes};
ghost use Rattle.std.specs.Fmt.{decimal, signed_decimal};
ghost use Rattle.std.specs.List.{zip};
ghost use Rattle.glyph_text.specs.Text.{said_of};
ghost use Rattle.line_formats.specs.Json as objects;
ghost use Rattle.line_formats.specs.Json.{escaped, escaped_byte, name_member, cluster_member, place_members, advance_members};
ghost use Rattle.line_formats.specs.Json.{flags_member, extents_members, comma_before, box_members, quoted_name, two};
ghost use Rattle.glyph_text.specs.Pen.{IsNear};

use crate::writing::{write_bytes, write_member, write_number, write_two};
use bitflags::Flags;
use glyph_text::parts::{Pen, extents_of, name_of};
use rb_glyph::{
    GlyphExtents, GlyphNames, GlyphPosition, SerializeFlags, glyph_flag, hb_glyph_info_t,
};
use std::alloc::{AllocError, Global};

/// The glyphs as objects of JSON, joined by `,`, as HarfBuzz's `hb_buffer_serialize_glyphs` writes them between brackets. The members of
/// an object are, in this order:
///
/// - `"g"`, the name in quotes, in which `"` and `\` have a `\` before them, or `gid` and the number where the font has no name; under
///   `NO_GLYPH_NAMES` the number alone;
/// - `"cl"`, the cluster, except under `NO_CLUSTERS`;
/// - `"dx"` and `"dy"`, the offsets, to which under `NO_ADVANCES` the sums of all earlier advances are added, and except under that `"ax"`
///   and `"ay"`, the advances; under `NO_POSITIONS` none of these;
/// - under `GLYPH_FLAGS` `"fl"`, the glyph flags, unless they are 0;
/// - under `GLYPH_EXTENTS` `"xb"`, `"yb"`, `"w"` and `"h"`, zeros where the font knows no extents.
///
/// Requires as many positions as glyphs. `Err(AllocError)` where memory ran out: then there is no text.
pub fn glyphs_json<F: GlyphNames>(
    alloc: Global,
    font: &F,
    flags: SerializeFlags,
    infos: &[hb_glyph_info_t],
    positions: &[GlyphPosition],
) -> Result<Vec<u8>, AllocError>
    requires { length positions.now ≡ length infos.now }
    ensures { IfOk result (λ text. text.items ≡ objects.glyphs_json
        (record { name = F.name_of font.now; extents = F.extents_of font.now }) flags
        (zip infos.now positions.now)) }
{
    let mut text = Vec::new(alloc);
    let mut pen = Pen { x: 0, y: 0 };
    for (i, info) in infos.iter().enumerate() {
        let position = &positions[i];
        write_head(&mut text, font, flags, i, info)?;
        write_position(&mut text, flags, pen, position)?;
        write_tail(&mut text, font, flags, info)?;
        pen = pen.behind(flags, position);
    }
    Ok(text)
}

/// What an object begins with: the name of the glyph, and its cluster.
fn write_head<F: GlyphNames>(
    text: &mut Vec<u8>,
    font: &F,
    flags: SerializeFlags,
    i: usize,
    info: &hb_glyph_info_t,
) -> Result<(), AllocError>
    ensures { OnOk result (text.new.items ≡ text.old.items ++ comma_before i
        ++ name_member flags (said_of (F.name_of font.now) info.now.glyph_id) info.now.glyph_id
        ++ cluster_member flags info.now.cluster) }
{
    write_comma(text, i)?;
    write_name(text, font, flags, info)?;
    write_cluster(text, flags, info)
}

/// The comma before each object except the first.
fn write_comma(text: &mut Vec<u8>, i: usize) -> Result<(), AllocError>
    ensures { OnOk result (text.new.items ≡ text.old.items ++ comma_before i) }
{
    if i > 0 {
        text.push(b',')?;
    }
    Ok(())
}

/// The name of a glyph in quotes, or its number alone.
fn write_name<F: GlyphNames>(
    text: &mut Vec<u8>,
    font: &F,
    flags: SerializeFlags,
    info: &hb_glyph_info_t,
) -> Result<(), AllocError>
    ensures { OnOk result (text.new.items ≡ text.old.items
        ++ name_member flags (said_of (F.name_of font.now) info.now.glyph_id) info.now.glyph_id) }
{
    write_bytes(text, b"{\"g\":")?;
    if flags.contains(SerializeFlags::NO_GLYPH_NAMES) {
        write_number(text, info.glyph_id)
    } else {
        write_quoted_name(text, font, info)
    }
}

/// The name of a glyph in quotes.
fn write_quoted_name<F: GlyphNames>(
    text: &mut Vec<u8>,
    font: &F,
    info: &hb_glyph_info_t,
) -> Result<(), AllocError>
    ensures { OnOk result (text.new.items ≡ text.old.items
        ++ quoted_name (said_of (F.name_of font.now) info.now.glyph_id) info.now.glyph_id) }
{
    write_bytes(text, b"\"")?;
    match name_of(font, info) {
        Some(name) => write_escaped(text, name.as_bytes())?,
        None => write_member(text, b"gid", info.glyph_id)?,
    }
    write_bytes(text, b"\"")
}

/// The bytes of a name, `"` and `\` with a `\` before them.
fn write_escaped(text: &mut Vec<u8>, name: &[u8]) -> Result<(), AllocError>
    ensures { OnOk result (text.new.items ≡ text.old.items ++ escaped name.now) }
{
    for byte in name {
        write_escaped_byte(text, *byte)?;
    }
    Ok(())
}

fn write_escaped_byte(text: &mut Vec<u8>, byte: u8) -> Result<(), AllocError>
    ensures { OnOk result (text.new.items ≡ text.old.items ++ escaped_byte byte) }
{
    if byte == b'"' || byte == b'\\' {
        write_bytes(text, &[b'\\', byte])
    } else {
        write_bytes(text, &[byte])
    }
}

fn write_cluster(
    text: &mut Vec<u8>,
    flags: SerializeFlags,
    info: &hb_glyph_info_t,
) -> Result<(), AllocError>
    ensures { OnOk result (text.new.items ≡ text.old.items ++ cluster_member flags info.now.cluster) }
{
    if flags.contains(SerializeFlags::NO_CLUSTERS) {
        return Ok(());
    }
    write_member(text, b",\"cl\":", info.cluster)
}

/// The place of a glyph, and its advance.
fn write_position(
    text: &mut Vec<u8>,
    flags: SerializeFlags,
    pen: Pen,
    position: &GlyphPosition,
) -> Result<(), AllocError>
    requires { IsNear pen }
    ensures { OnOk result (text.new.items ≡ text.old.items
        ++ place_members flags pen.x pen.y position.now ++ advance_members flags position.now) }
{
    if flags.contains(SerializeFlags::NO_POSITIONS) {
        return Ok(());
    }
    write_place(text, pen, position)?;
    write_advance(text, flags, position)
}

/// The place of a glyph, from the start of the line or from where it is drawn.
fn write_place(text: &mut Vec<u8>, pen: Pen, position: &GlyphPosition) -> Result<(), AllocError>
    requires { IsNear pen }
    ensures { OnOk result (text.new.items ≡ text.old.items ++ objects.place pen.x pen.y position.now) }
{
    write_point(text, pen.plus_offset(position))
}

fn write_point(text: &mut Vec<u8>, point: Pen) -> Result<(), AllocError>
    ensures { OnOk result (text.new.items
        ≡ text.old.items ++ two (codes ",\"dx\":") point.x (codes ",\"dy\":") point.y) }
{
    write_two(text, b",\"dx\":", point.x, b",\"dy\":", point.y)
}

fn write_advance(
    text: &mut Vec<u8>,
    flags: SerializeFlags,
    position: &GlyphPosition,
) -> Result<(), AllocError>
    ensures { OnOk result (text.new.items ≡ text.old.items ++ objects.advance flags position.now) }
{
    if flags.contains(SerializeFlags::NO_ADVANCES) {
        return Ok(());
    }
    write_two(
        text,
        b",\"ax\":",
        position.x_advance,
        b",\"ay\":",
        position.y_advance,
    )
}

/// What an object ends with: the flags of the glyph, and its extents.
fn write_tail<F: GlyphNames>(
    text: &mut Vec<u8>,
    font: &F,
    flags: SerializeFlags,
    info: &hb_glyph_info_t,
) -> Result<(), AllocError>
    ensures { OnOk result (text.new.items ≡ text.old.items ++ flags_member flags info.now.mask
        ++ extents_members flags (said_of (F.extents_of font.now) info.now.glyph_id) ++ 125 ∷ []) }
{
    write_flags(text, flags, info)?;
    write_extents(text, font, flags, info)?;
    write_bytes(text, b"}")
}

fn write_flags(
    text: &mut Vec<u8>,
    flags: SerializeFlags,
    info: &hb_glyph_info_t,
) -> Result<(), AllocError>
    ensures { OnOk result (text.new.items ≡ text.old.items ++ flags_member flags info.now.mask) }
{
    let defined = info.mask & glyph_flag::DEFINED;
    if !flags.contains(SerializeFlags::GLYPH_FLAGS) || defined == 0 {
        return Ok(());
    }
    write_member(text, b",\"fl\":", defined)
}

fn write_extents<F: GlyphNames>(
    text: &mut Vec<u8>,
    font: &F,
    flags: SerializeFlags,
    info: &hb_glyph_info_t,
) -> Result<(), AllocError>
    ensures { OnOk result (text.new.items
        ≡ text.old.items ++ extents_members flags (said_of (F.extents_of font.now) info.now.glyph_id)) }
{
    if !flags.contains(SerializeFlags::GLYPH_EXTENTS) {
        return Ok(());
    }
    write_box(text, extents_of(font, info))
}

fn write_box(text: &mut Vec<u8>, extents: GlyphExtents) -> Result<(), AllocError>
    ensures { OnOk result (text.new.items ≡ text.old.items ++ box_members extents) }
{
    write_two(
        text,
        b",\"xb\":",
        extents.x_bearing,
        b",\"yb\":",
        extents.y_bearing,
    )?;
    write_two(text, b",\"w\":", extents.width, b",\"h\":", extents.height)
}
