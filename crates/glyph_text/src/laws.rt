//! What can be read back from a text.
//!
//! The function here is empty. Its contract is a fact of definitions, and holds for every list of glyphs.

ghost use Rattle.std.specs.Prelude.{◌≡◌, List, map};
ghost use Rattle.std.specs.List.{All};
ghost use Rattle.glyph_text.specs.Text.{Font, glyphs_text};
ghost use Rattle.glyph_text.specs.TextReading.{numbers_and_flags, told_of, FitsItsFields};
ghost use Rattle.rb_glyph.specs.declared.info.hb_glyph_info_t.{hb_glyph_info_t};
ghost use Rattle.rb_glyph.specs.declared.position.GlyphPosition.{GlyphPosition};

/// Under `NO_GLYPH_NAMES` and `GLYPH_FLAGS` alone a text decides its glyphs: if two texts are equal, whatever
/// the fonts are, there are as many glyphs, with equal numbers, clusters, offsets, advances and glyph flags. And where
/// these are equal, the texts are.
pub fn equal_texts_tell_of_equal_glyphs()
    ensures tell { (font other : Font) (xs ys : List (hb_glyph_info_t × GlyphPosition))
        → All FitsItsFields xs → All FitsItsFields ys
        → glyphs_text font numbers_and_flags xs ≡ glyphs_text other numbers_and_flags ys
        → map told_of xs ≡ map told_of ys }
    ensures alone { (font other : Font) (xs ys : List (hb_glyph_info_t × GlyphPosition))
        → map told_of xs ≡ map told_of ys
        → glyphs_text font numbers_and_flags xs ≡ glyphs_text other numbers_and_flags ys }
{}
