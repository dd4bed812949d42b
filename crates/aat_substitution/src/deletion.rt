//! Glyphs that subtables deleted.

ghost use Rattle.std.specs.Prelude.{◌≡◌, false};
ghost use Rattle.shaping_buffer.specs.GroupStep.{delete_glyphs_inplace};
ghost use Rattle.shaping_buffer.specs.KeepsClusters.{KeepsClusters};
ghost use Rattle.aat_substitution.specs.Deletion.{is_deleted};

use aat_tables::lookup::DELETED_GLYPH;
use rb_glyph::hb_glyph_info_t;
use shaping_buffer::hb_buffer_t;

/// Takes out the glyphs that were deleted, with their positions, and keeps their clusters where these are lower than those of their
/// neighbours.
pub fn remove_deleted_glyphs(buffer: &mut hb_buffer_t)
    requires { buffer.old.have_output ≡ false }
    ensures is { buffer.new ≡ delete_glyphs_inplace is_deleted buffer.old }
    ensures keeps { KeepsClusters buffer.old buffer.new }
{
    buffer.delete_glyphs_inplace(is_deleted);
}

/// Whether a glyph was deleted.
pub fn is_deleted(glyph: &hb_glyph_info_t) -> bool
    ensures { result ≡ is_deleted glyph.now }
{
    glyph.glyph_id == u32::from(DELETED_GLYPH)
}
