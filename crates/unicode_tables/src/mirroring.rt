//! The table of mirror images.

ghost use Rattle.std.specs.Prelude.{◌≡◌, Some};
ghost use Rattle.unicode_tables.specs.Mirrors.{mirror_images};

use crate::mirror_rows::MIRRORS;
use rb_glyph::Mirrors;

/// The mirror images of characters in text that runs from right to left (Unicode, `BidiMirroring.txt`).
#[tactic(auto, unfolding(crate::specs::Mirrors::mirror_images))]
pub fn mirrors() -> Option<Mirrors<'static>>
    ensures { result ≡ Some mirror_images }
{
    Mirrors::new(&MIRRORS)
}
