//! The map from characters to glyphs.

ghost use Rattle.std.specs.Prelude.{◌≡◌, ◌<◌, ℕ, slice_index, option_map, option_and_then};
ghost use Rattle.font_cmap.specs.Choice.{chosen_subtable, chosen_encoding, variation_subtable};
ghost use Rattle.font_cmap.specs.Codes.{glyph_index, glyph_variation_index};
ghost use Rattle.font_cmap.specs.Variations.{glyph_variant};
ghost use Rattle.font_cmap.specs.Subtables.{some_glyph, subtable_glyph};

use crate::arrays::some_glyph;
use crate::choice::{choose, variation_subtable};
use crate::codes::{Encoding, other_code, own_code};
use crate::runs::FIRST_COUNT;
use crate::subtable::{Subtable, first_subtable_glyphs, subtable_glyph};
use crate::variations::{GlyphVariant, glyph_variant};
use rb_common::GlyphId;

/// A subtable, and what its codes stand for.
#[derive(Clone, Copy)]
struct Codes<'a> {
    subtable: Subtable<'a>,
    encoding: Encoding,
}

impl Codes<'_> {
    /// The glyph of a character.
    #[tactic(auto, unfolding(crate::specs::Codes::glyph_index))]
    fn glyph_of(&self, character: u32) -> Option<u16>
        ensures { result ≡ glyph_index self.now.subtable.segments.table.now self.now.encoding character }
    {
        match self.glyph_of_code(own_code(self.encoding, character)) {
            Some(glyph) => Some(glyph),
            None => self.glyph_of_code(other_code(self.encoding, character)),
        }
    }

    /// The glyph of one of the first characters, whose own number is a code of each encoding, by the glyph of that.
    #[tactic(auto, using(crate::proofs::First::own_code_first), unfolding(crate::specs::Codes::glyph_index))]
    fn glyph_or_other(&self, own: Option<u16>, character: u32) -> Option<u16>
        requires first { character < 128 }
        requires own { own ≡ subtable_glyph self.now.subtable.segments.table.now character }
        ensures { result ≡ glyph_index self.now.subtable.segments.table.now self.now.encoding character }
    {
        match own {
            Some(glyph) => Some(glyph),
            None => self.glyph_of_code(other_code(self.encoding, character)),
        }
    }

    /// The number of that glyph, by the number of the other; 0 where there is none.
    #[tactic(auto, using(crate::proofs::Numbers::some_glyph_of_character))]
    fn number_or_other(&self, own: u16, character: u32) -> u16
        requires first { character < 128 }
        requires own { some_glyph own ≡ subtable_glyph self.now.subtable.segments.table.now character }
        ensures { some_glyph result ≡ glyph_index self.now.subtable.segments.table.now self.now.encoding character }
    {
        let own = some_glyph(u64::from(own));
        self.glyph_or_other(own, character).unwrap_or(0)
    }

    /// The glyph of a code, if there is a code.
    #[inline]
    fn glyph_of_code(&self, code: Option<u32>) -> Option<u16>
        ensures { result ≡ option_and_then (subtable_glyph self.now.subtable.segments.table.now) code }
    {
        let code = code?;
        subtable_glyph(&self.subtable, code)
    }
}

/// The numbers of the glyphs of the first characters; 0 where a character has none.
fn first_glyphs(codes: &Codes<'_>) -> [u16; FIRST_COUNT]
    ensures { (character : ℕ) → character < 128
        → some_glyph (slice_index result character) ≡ glyph_index codes.now.subtable.segments.table.now codes.now.encoding character }
{
    let own = first_subtable_glyphs(&codes.subtable);
    match codes.encoding {
        Encoding::Unicode => own,
        _ => glyphs_or_others(codes, &own),
    }
}

/// The same by the glyphs of their own numbers.
fn glyphs_or_others(codes: &Codes<'_>, own: &[u16; FIRST_COUNT]) -> [u16; FIRST_COUNT]
    requires { (character : ℕ) → character < 128
        → some_glyph (slice_index own.now character) ≡ subtable_glyph codes.now.subtable.segments.table.now character }
    ensures { (character : ℕ) → character < 128
        → some_glyph (slice_index result character) ≡ glyph_index codes.now.subtable.segments.table.now codes.now.encoding character }
{
    let mut glyphs = [0; FIRST_COUNT];
    for character in 0..FIRST_COUNT {
        glyphs[character] = codes.number_or_other(own[character], character as u32);
    }
    glyphs
}

/// The map from characters to glyphs of a font (OpenType specification, `cmap`).
#[derive(Clone, Copy)]
pub struct CharacterMap<'a> {
    /// The subtable that was chosen, from its format on; empty where the font has none that is understood.
    pub subtable: &'a [u8],
    /// What the codes of the subtable stand for.
    pub encoding: Encoding,
    /// The subtable of variation sequences, from its format on; empty where the font has none.
    pub variations: &'a [u8],
    codes: Codes<'a>,
    first_glyphs: [u16; FIRST_COUNT],
    ghost same_subtable: { codes.subtable.segments.table.now ≡ subtable.now },
    ghost same_encoding: { codes.encoding ≡ encoding },
    ghost firsts: { (character : ℕ) → character < 128
        → some_glyph (slice_index first_glyphs character) ≡ glyph_index subtable.now encoding character },
}

impl<'a> CharacterMap<'a> {
    /// The map of a font, from its table `cmap`.
    ///
    /// `font_page` says what the codes of a symbol font are: `fsSelection & 0xFF00` of a table `OS/2` of version 0, and 0
    /// for any other font.
    ///
    /// One subtable is chosen, as HarfBuzz chooses it: symbols, then all of Unicode, then its first 65,536 characters, and
    /// then the Macintosh's encodings. A subtable that does not lie whole in the table is not there.
    pub fn parse(cmap: &'a [u8], font_page: u16) -> Self
        ensures subtable { result.subtable.now ≡ chosen_subtable cmap.now }
        ensures encoding { result.encoding ≡ chosen_encoding cmap.now font_page }
        ensures variations { result.variations.now ≡ variation_subtable cmap.now }
    {
        let choice = choose(cmap, font_page);
        let codes = Codes {
            subtable: Subtable::new(choice.subtable),
            encoding: choice.encoding,
        };
        CharacterMap {
            subtable: choice.subtable,
            encoding: choice.encoding,
            variations: variation_subtable(cmap),
            first_glyphs: first_glyphs(&codes),
            codes,
        }
    }

    /// The glyph of a character; `None` where the font has none.
    pub fn glyph_index(&self, character: u32) -> Option<GlyphId>
        ensures { option_map (λ glyph. glyph.0) result
            ≡ glyph_index self.now.subtable.now self.now.encoding character }
    {
        let glyph = match self.first_glyphs.get(character as usize) {
            Some(number) => some_glyph(u64::from(*number)),
            None => self.codes.glyph_of(character),
        };
        glyph.map(GlyphId)
    }

    /// What the font says of a character before a variation selector.
    pub fn glyph_variant(&self, character: u32, selector: u32) -> GlyphVariant
        ensures { result ≡ glyph_variant self.now.variations.now character selector }
    {
        glyph_variant(self.variations, character, selector)
    }

    /// The glyph of a character before a variation selector; `None` where the font does not have that variation
    /// sequence, or no glyph for it.
    #[tactic(auto, unfolding(crate::specs::Codes::glyph_variation_index))]
    pub fn glyph_variation_index(&self, character: u32, selector: u32) -> Option<GlyphId>
        ensures { option_map (λ glyph. glyph.0) result
            ≡ glyph_variation_index self.now.subtable.now self.now.encoding self.now.variations.now character selector }
    {
        match self.glyph_variant(character, selector) {
            GlyphVariant::NotFound => None,
            GlyphVariant::Found(glyph) => Some(glyph),
            GlyphVariant::UseDefault => self.glyph_index(character),
        }
    }
}
