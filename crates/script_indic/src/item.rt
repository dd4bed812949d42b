//! What an item of an Indic syllable is, by its category and by what became of its glyph.

ghost use Rattle.std.specs.Prelude.{◌≡◌, ◌||◌, ◌&&◌, not};
ghost use Rattle.script_syllables.specs.Item as items;
ghost use Rattle.script_syllables.specs.declared.category.Category.TheVariants as own;
ghost use Rattle.script_indic.specs.Base as bases;

use rb_glyph::hb_glyph_info_t;
use script_syllables::item::{category, is_ligated, is_one};
use script_syllables::{Category, item};

/// Whether the item is a consonant, a medial one too, or what takes signs as one. What became a ligature is none.
pub(crate) fn is_consonant(info: &hb_glyph_info_t) -> bool
    ensures { result ≡ bases.is_consonant info.now }
{
    item::is_consonant(info) || is_one(info, Category::ConsonantMedial)
}

/// Whether the item is a vowel sign.
pub(crate) fn is_matra(info: &hb_glyph_info_t) -> bool
    ensures { result ≡ (items.is_of own.Matra info.now || items.is_of own.MatraPost info.now) }
{
    category(info).is(Category::Matra) || category(info).is(Category::MatraPost)
}

/// Whether the item is a vowel sign or a halant, and no ligature.
pub(crate) fn is_matra_or_halant(info: &hb_glyph_info_t) -> bool
    ensures { result ≡ (not (items.is_ligated info.now)
        && (items.is_of own.Matra info.now || (items.is_of own.MatraPost info.now || items.is_of own.Halant info.now))) }
{
    !is_ligated(info) && (is_matra(info) || category(info).is(Category::Halant))
}
