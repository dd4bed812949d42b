//! Which glyphs a lookup passes over by its flag (OpenType specification, "OpenType Layout Common Table Formats", "Lookup
//! table").

ghost use Rattle.std.specs.Prelude.{◌≡◌};
ghost use Rattle.glyph_digests.specs.Covered.{covered_index};
ghost use Rattle.ot_lookups.specs.LookupProps.{passes_over, passes_over_mark, props};

use font_tables::coverage::Coverage;
use rb_common::GlyphId;
use rb_glyph::hb_glyph_info_t;

/// The bits of a lookup's flag that name classes of glyphs to be passed over: those of the glyph properties.
const IGNORED_CLASSES: u16 = 0x000E;

/// The property of a mark.
const MARK: u16 = 0x0008;

/// The bit that says that all marks are passed over but those of a set.
const USE_MARK_FILTERING_SET: u16 = 0x0010;

/// The bits of an attachment class of marks; all other marks are passed over.
const MARK_ATTACHMENT_CLASS: u16 = 0xFF00;

/// The glyphs that a lookup passes over.
#[derive(Clone, Copy)]
pub struct LookupProps<'a> {
    /// The lookup's flag.
    pub flags: u16,
    /// The marks that are not passed over, where the flag asks for a set of them.
    pub marks: Coverage<'a>,
}

impl<'a> LookupProps<'a> {
    /// Whether the lookup passes over the glyph, by its properties.
    #[tactic(auto, unfolding(crate::specs::LookupProps::passes_over))]
    pub fn passes_over(&self, glyph: &hb_glyph_info_t) -> bool
        ensures { result ≡ passes_over self.now glyph.now }
    {
        let properties = glyph.glyph_props();
        if properties & self.flags & IGNORED_CLASSES != 0 {
            return true;
        }
        properties & MARK != 0 && self.passes_over_mark(properties, glyph.glyph_id)
    }

    /// Whether the lookup passes over a mark.
    #[tactic(auto, unfolding(crate::specs::LookupProps::passes_over_mark))]
    fn passes_over_mark(&self, properties: u16, glyph: u32) -> bool
        ensures { result ≡ passes_over_mark self.now properties glyph }
    {
        if self.flags & USE_MARK_FILTERING_SET != 0 {
            return covered_index(&self.marks, glyph).is_none();
        }
        let class = self.flags & MARK_ATTACHMENT_CLASS;
        class != 0 && class != properties & MARK_ATTACHMENT_CLASS
    }
}

/// The coverage index of a glyph of a buffer; `None` where it is not covered, as no number past 65,535 is.
pub fn covered_index(coverage: &Coverage, glyph: u32) -> Option<u32>
    ensures { result ≡ covered_index coverage.now.table.now glyph }
{
    if glyph > 0xFFFF {
        return None;
    }
    coverage.index(GlyphId(glyph as u16))
}
