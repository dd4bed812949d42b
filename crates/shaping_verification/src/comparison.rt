//! How shaped glyphs differ from others (HarfBuzz's `hb_buffer_diff`).

use shaping_buffer::{GlyphBuffer, GlyphPosition, glyph_flag, hb_glyph_info_t};

/// What differs between glyphs and those that they are compared with.
#[derive(Clone, Copy, PartialEq, Eq)]
pub struct Differences {
    /// There are more glyphs, or fewer. Then no glyph is compared with another one.
    pub length: bool,
    /// The others have a glyph that stands for a missing one. It is asked for with the dotted circle alone.
    pub not_found: bool,
    /// The others have a dotted circle.
    pub dotted_circle: bool,
    /// A glyph is another one.
    pub glyphs: bool,
    /// A glyph is in another cluster.
    pub clusters: bool,
    /// The glyph flags of a glyph are others.
    pub flags: bool,
    /// A glyph stands elsewhere, or moves the pen otherwise.
    pub positions: bool,
}

impl Differences {
    /// No difference.
    const NONE: Differences = Differences {
        length: false,
        not_found: false,
        dotted_circle: false,
        glyphs: false,
        clusters: false,
        flags: false,
        positions: false,
    };

    /// Adds what two glyphs differ in.
    fn add(&mut self, info: &hb_glyph_info_t, other: &hb_glyph_info_t) {
        self.glyphs |= info.glyph_id != other.glyph_id;
        self.clusters |= info.cluster != other.cluster;
        self.flags |= info.mask & glyph_flag::DEFINED != other.mask & glyph_flag::DEFINED;
    }
}

/// What differs between glyphs and others. Each coordinate may differ by `fuzz`. Where the number of the dotted circle's glyph
/// is given, this and missing glyphs are looked for among the others.
pub fn compare(
    glyphs: &GlyphBuffer,
    others: &GlyphBuffer,
    dotted_circle: Option<u32>,
    fuzz: u32,
) -> Differences {
    let mut found = Differences::NONE;
    if let Some(circle) = dotted_circle {
        let infos = others.glyph_infos();
        found.dotted_circle = infos.iter().any(|info| info.glyph_id == circle);
        found.not_found = infos.iter().any(|info| info.glyph_id == 0);
    }
    if glyphs.len() != others.len() {
        found.length = true;
        return found;
    }
    for (info, other) in glyphs.glyph_infos().iter().zip(others.glyph_infos()) {
        found.add(info, other);
    }
    for (position, other) in glyphs
        .glyph_positions()
        .iter()
        .zip(others.glyph_positions())
    {
        found.positions |= is_elsewhere(position, other, fuzz);
    }
    found
}

/// Whether a coordinate of two positions differs by more than `fuzz`.
pub(crate) fn is_elsewhere(one: &GlyphPosition, other: &GlyphPosition, fuzz: u32) -> bool {
    one.x_advance.abs_diff(other.x_advance) > fuzz
        || one.y_advance.abs_diff(other.y_advance) > fuzz
        || one.x_offset.abs_diff(other.x_offset) > fuzz
        || one.y_offset.abs_diff(other.y_offset) > fuzz
}
