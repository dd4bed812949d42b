//! Lines that write glyphs, as `[f_i=0+900|a=2@-5,0+410]`.

ghost use Rattle.std.specs.Prelude.{◌≡◌, length, IfOk};

use font_face::Face;
use font_functions::FontFunctions;
use shaping_buffer::{Direction, GlyphId, GlyphNames, GlyphPosition, hb_glyph_info_t};
use std::alloc::{AllocError, Global};

/// Glyphs that are read, and where each is drawn.
#[derive(Drop)]
pub struct ReadGlyphs {
    /// The glyphs.
    pub infos: Vec<hb_glyph_info_t>,
    /// Their positions, as many.
    pub positions: Vec<GlyphPosition>,
}

/// The glyphs that a line writes, up to the first item that is none, as HarfBuzz's `hb-shape --glyphs` reads them: the text of shaped
/// glyphs, with brackets or without. Positions are in font units, and are brought to the size of the font; where the line has no
/// advances, they are the font's.
pub fn read_glyphs<F: FontFunctions, N: GlyphNames>(
    alloc: Global,
    face: &Face<'_>,
    font: &F,
    names: &N,
    direction: Direction,
    line: &str,
) -> Result<ReadGlyphs, AllocError>
    ensures { IfOk result (λ read. length read.positions.items ≡ length read.infos.items) }
{
    let mut read = ReadGlyphs {
        infos: Vec::new(alloc),
        positions: Vec::new(alloc),
    };
    let has_advances = line.split_once('+').is_some();
    let items: Vec<&str> = items_of(line).split('|').collect(alloc)?;
    for item in items.as_slice() {
        let Some((info, written)) = read_item(face, names, item) else {
            break;
        };
        let mut position = at_size(face, written);
        if !has_advances {
            advance(font, &info, direction, &mut position);
        }
        push(&mut read, info, position)?;
    }
    Ok(read)
}

/// Adds a glyph.
fn push(
    read: &mut ReadGlyphs,
    info: hb_glyph_info_t,
    position: GlyphPosition,
) -> Result<(), AllocError>
    requires { length read.old.positions.items ≡ length read.old.infos.items }
    ensures { IfOk result (λ _. length read.new.positions.items ≡ length read.new.infos.items) }
{
    read.infos.push(info)?;
    read.positions.push(position)?;
    Ok(())
}

/// What stands in the brackets of a line, or before the closing one.
fn items_of(line: &str) -> &str {
    let line = line.trim_start_matches(' ');
    let line = line.strip_prefix("[").unwrap_or(line);
    match line.split_once(']') {
        Some((items, _)) => items,
        None => line,
    }
}

/// A position of font units at the size of the font.
fn at_size(face: &Face<'_>, written: GlyphPosition) -> GlyphPosition {
    let (x, y) = (face.scale.x, face.scale.y);
    let units = face.scale.units_per_em;
    GlyphPosition {
        x_advance: scaled(written.x_advance, x, units),
        y_advance: scaled(written.y_advance, y, units),
        x_offset: scaled(written.x_offset, x, units),
        y_offset: scaled(written.y_offset, y, units),
        var: 0,
    }
}

/// A number of font units where an em is so long, without its fraction.
fn scaled(number: i32, size: i32, units: u16) -> i32 {
    let product = i64::from(number).saturating_mul(i64::from(size));
    i32::try_from(product / i64::from(units.max(1))).unwrap_or(i32::MAX)
}

/// Gives a glyph the font's advance in a line of this direction.
fn advance<F: FontFunctions>(
    font: &F,
    info: &hb_glyph_info_t,
    direction: Direction,
    position: &mut GlyphPosition,
) {
    let glyph = GlyphId(u16::try_from(info.glyph_id).unwrap_or(0));
    if direction.is_horizontal() {
        position.x_advance = font.glyph_h_advance(glyph);
    } else {
        position.y_advance = font.glyph_v_advance(glyph);
    }
}

/// What an item writes, of which each part but the name may be left out.
#[derive(Clone, Copy)]
struct Item<'a> {
    /// The glyph's name, or its number.
    name: &'a str,
    /// Behind `=` its cluster.
    cluster: Option<&'a str>,
    /// Behind `@` how far it is moved, as `x,y`.
    offsets: Option<&'a str>,
    /// Behind `+` its advance, as `x` or `x,y`.
    advances: Option<&'a str>,
    /// Behind `#` its flags.
    flags: Option<&'a str>,
}

/// The glyph that an item writes, and its position. `None` where the font has no such glyph, or something else stands there.
fn read_item<N: GlyphNames>(
    face: &Face<'_>,
    names: &N,
    text: &str,
) -> Option<(hb_glyph_info_t, GlyphPosition)> {
    let item = parts_of(text)?;
    let info = hb_glyph_info_t {
        glyph_id: glyph_named(face, names, item.name)?,
        mask: whole(item.flags.unwrap_or("0"))?,
        cluster: whole(item.cluster.unwrap_or("0"))?,
        var1: 0,
        var2: 0,
    };
    Some((info, position_of(&item)?))
}

/// The parts of an item; `None` where something else stands behind them.
fn parts_of(text: &str) -> Option<Item<'_>> {
    let (name, rest) = match text.find(['=', '@', '+', '#', ',', '\\']) {
        Some(end) => text.split_at(end),
        None => (text, ""),
    };
    let (cluster, rest) = taken(rest, "=", ['@', '+', '#']);
    let (offsets, rest) = taken(rest, "@", ['+', '#', '#']);
    let (advances, rest) = taken(rest, "+", ['#', '#', '#']);
    let (flags, rest) = taken(rest, "#", ['#', '#', '#']);
    if !rest.is_empty() {
        return None;
    }
    Some(Item {
        name,
        cluster,
        offsets,
        advances,
        flags,
    })
}

/// The position that an item writes.
fn position_of(item: &Item<'_>) -> Option<GlyphPosition> {
    let (x_offset, y_offset) = two(item.offsets.unwrap_or("0,0"))?;
    let (x_advance, y_advance) = one_or_two(item.advances.unwrap_or("0"))?;
    Some(GlyphPosition {
        x_advance,
        y_advance,
        x_offset,
        y_offset,
        var: 0,
    })
}

/// What a sign at the front of a text has behind it, if it stands there, up to one of some ends, and the rest.
fn taken<'a>(text: &'a str, sign: &str, ends: [char; 3]) -> (Option<&'a str>, &'a str) {
    let Some(rest) = text.strip_prefix(sign) else {
        return (None, text);
    };
    match rest.find(ends) {
        Some(end) => {
            let (part, rest) = rest.split_at(end);
            (Some(part), rest)
        }
        None => (Some(rest), ""),
    }
}

/// Two numbers with a comma between them.
fn two(text: &str) -> Option<(i32, i32)> {
    let (x, y) = text.split_once(',')?;
    Some((signed(x)?, signed(y)?))
}

/// One number, with which the other is 0, or two with a comma between them.
fn one_or_two(text: &str) -> Option<(i32, i32)> {
    match text.split_once(',') {
        Some((x, y)) => Some((signed(x)?, signed(y)?)),
        None => Some((signed(text)?, 0)),
    }
}

/// A number without a sign.
fn whole(text: &str) -> Option<u32> {
    if begins_number(text.as_bytes()) {
        text.parse::<u32>().ok()
    } else {
        None
    }
}

/// A number that may be negative.
fn signed(text: &str) -> Option<i32> {
    if begins_number(text.strip_prefix("-").unwrap_or(text).as_bytes()) {
        text.parse::<i32>().ok()
    } else {
        None
    }
}

/// Whether a text begins as a number without a sign that is 0, or does not begin with 0.
fn begins_number(text: &[u8]) -> bool {
    match text {
        [b'0'] => true,
        [first, ..] => *first != b'0' && first.is_ascii_digit(),
        [] => false,
    }
}

/// The glyph of a name: that which the font names so, or that of a number, behind `gid` or alone, or that of a character, whose number
/// stands behind `uni`.
fn glyph_named<N: GlyphNames>(face: &Face<'_>, names: &N, name: &str) -> Option<u32> {
    for number in 0..face.glyph_count {
        if names.glyph_name(GlyphId(number)) == Some(name) {
            return Some(u32::from(number));
        }
    }
    if let Some(number) = digits(name) {
        return Some(number);
    }
    if let Some(number) = name.strip_prefix("gid") {
        return digits(number);
    }
    let character = u32::from_str_radix(name.strip_prefix("uni")?, 16).ok()?;
    let glyph = face.glyph_index(character)?;
    Some(u32::from(glyph.0))
}

/// The number that digits write.
fn digits(text: &str) -> Option<u32> {
    if text.bytes().all(|byte| byte.is_ascii_digit()) {
        text.parse::<u32>().ok()
    } else {
        None
    }
}
