//! What a rule asks of a glyph.

ghost use Rattle.std.specs.Prelude.{◌≡◌};
ghost use Rattle.ot_layout.specs.SkippingIterator.{class_in, fits, is_shown};

use font_tables::class_definition::ClassDefinition;
use font_tables::coverage::Coverage;
use ot_lookups::lookup_props::covered_index;
use rb_common::GlyphId;

/// What is asked of a glyph.
#[derive(Clone, Copy)]
pub enum Matcher<'a> {
    /// Nothing, and a glyph that may be passed over is passed over.
    Shown,
    /// Nothing, and a glyph that may be passed over is taken.
    Any,
    /// This glyph.
    Glyph(u16),
    /// A glyph of this class.
    Class(ClassDefinition<'a>, u16),
    /// A glyph that is covered.
    Covered(Coverage<'a>),
}

impl<'a> Matcher<'a> {
    /// Whether nothing is asked, and a glyph that may be passed over is passed over.
    pub fn is_shown(&self) -> bool
        ensures { result ≡ is_shown self.now }
    {
        matches!(*self, Matcher::Shown)
    }

    /// Whether a glyph is what is asked for. Of `Shown` this says whether one is that may be passed over: none is.
    pub fn fits(&self, glyph: u32) -> bool
        ensures { result ≡ fits self.now glyph }
    {
        match *self {
            Matcher::Shown => false,
            Matcher::Any => true,
            Matcher::Glyph(number) => u32::from(number) == glyph,
            Matcher::Class(classes, class) => class_of(&classes, glyph) == class,
            Matcher::Covered(coverage) => covered_index(&coverage, glyph).is_some(),
        }
    }
}

/// The class of a glyph of a buffer, which is 0 past 65,535.
pub fn class_of(classes: &ClassDefinition, glyph: u32) -> u16
    ensures { result ≡ class_in classes.now.table.now glyph }
{
    if glyph > 0xFFFF {
        return 0;
    }
    classes.class(GlyphId(glyph as u16))
}
