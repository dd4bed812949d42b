//! Which glyphs a text has, as far as a digest tells: it is of the glyphs as they then stand.

ghost use Rattle.std.specs.Prelude.{◌≡◌, false};
ghost use Rattle.glyph_digests.specs.Digest.{HasGlyphs};

use glyph_digests::Digest;
use ot_gsub::Progress;
use ot_map::Pause;
use shaping_buffer::hb_buffer_t;

/// The digest of the glyphs of a buffer.
#[inline]
pub(crate) fn digest_of(buffer: &hb_buffer_t) -> Digest
    ensures { HasGlyphs result buffer.now.input }
{
    Digest::of_glyphs(buffer.info())
}

/// Sees which glyphs there are after a lookup, if it changed some.
#[inline]
pub(crate) fn see_changes(buffer: &hb_buffer_t, glyphs: &mut Digest, progress: &mut Progress)
    ensures met { (progress.old.has_changed ≡ false → HasGlyphs glyphs.old buffer.now.input) → HasGlyphs glyphs.new buffer.now.input }
    ensures unchanged { progress.new.has_changed ≡ false }
    ensures same_search { progress.new.search ≡ progress.old.search }
    ensures same_random { progress.new.random_state ≡ progress.old.random_state }
{
    if !progress.has_changed {
        return;
    }
    progress.has_changed = false;
    *glyphs = digest_of(buffer);
}

/// Sees which glyphs there are after a pause, unless nothing was done there.
#[inline]
pub(crate) fn see_after(
    buffer: &hb_buffer_t,
    pause: Pause,
    glyphs: &mut Digest,
    progress: &mut Progress,
)
    ensures met { (pause ≡ Pause.Nothing → HasGlyphs glyphs.old buffer.now.input) → HasGlyphs glyphs.new buffer.now.input }
    ensures unchanged { (pause ≡ Pause.Nothing → progress.old.has_changed ≡ false) → progress.new.has_changed ≡ false }
    ensures same_search { progress.new.search ≡ progress.old.search }
    ensures same_random { progress.new.random_state ≡ progress.old.random_state }
{
    match pause {
        Pause::Nothing => {}
        _ => {
            progress.has_changed = false;
            *glyphs = digest_of(buffer);
        }
    }
}
