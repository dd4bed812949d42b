//! The properties that a character is given before it is shaped.
ghost use Rattle.std.specs.Prelude.{◌≡◌};
ghost use Rattle.std.specs.Char.{IsScalar};
ghost use Rattle.rb_glyph.specs.Categories.{category_of_char};
ghost use Rattle.rb_glyph.specs.Fields.{with_field};
ghost use Rattle.rb_glyph.specs.UnicodeProps.{kind_bits, ignorable_bits, ignorable_scratch, mark_bits, props_word};
ghost use Rattle.rb_glyph.specs.UnicodeProps.{props_scratch};

use crate::category::{GeneralCategoryExt, hb_unicode_general_category_t};
use crate::characters::CharExt;
use crate::flag_sets::UnicodeProps;
use crate::info::hb_glyph_info_t;
use crate::scratch::{
    HB_BUFFER_SCRATCH_FLAG_DEFAULT, HB_BUFFER_SCRATCH_FLAG_HAS_CGJ,
    HB_BUFFER_SCRATCH_FLAG_HAS_DEFAULT_IGNORABLES, HB_BUFFER_SCRATCH_FLAG_HAS_NON_ASCII,
    hb_buffer_scratch_flags_t,
};
use crate::tables::CombiningClasses;
use crate::{ranges, row_search};
use bitflags::Flags;

const GRAPHEME_JOINER: char = '\u{34f}';

impl hb_glyph_info_t {
    /// Sets the Unicode properties of an item that is not shaped yet, and adds to the scratch flags what it remembers
    /// of its character.
    ///
    /// The properties are the number of the general category, and past ASCII how an invisible character is treated,
    /// and the class that a mark is reordered by, in bits 8 to 15 (HarfBuzz, `_hb_glyph_info_set_unicode_props`).
    pub fn init_unicode_props(
        &mut self,
        scratch_flags: &mut hb_buffer_scratch_flags_t,
        classes: &CombiningClasses,
    )
        requires { IsScalar self.old.glyph_id }
        ensures word { self.new ≡ record self.old {
          var2 = with_field self.old.var2 0 16 (props_word self.old.glyph_id classes.now);
        } }
        ensures remembered { scratch_flags.new ≡ props_scratch self.old.glyph_id scratch_flags.old }
    {
        let c = self.as_char();
        let category = c.general_category();
        let mut props = category.to_rb() as u16;
        if c >= '\u{80}' {
            let (ignorable, remembered) = of_ignorable(c);
            props = props | ignorable | of_mark(c, category, classes);
            *scratch_flags = *scratch_flags | (HB_BUFFER_SCRATCH_FLAG_HAS_NON_ASCII | remembered);
        }
        self.set_unicode_props(props);
    }
}

/// The bits of an invisible character, and what is remembered of it; none of any other.
fn of_ignorable(c: char) -> (u16, hb_buffer_scratch_flags_t)
    ensures bits { result.0 ≡ ignorable_bits c }
    ensures remembered { result.1 ≡ ignorable_scratch c }
{
    if !c.is_default_ignorable() {
        return (0, HB_BUFFER_SCRATCH_FLAG_DEFAULT);
    }
    let joiner = if c == GRAPHEME_JOINER {
        HB_BUFFER_SCRATCH_FLAG_HAS_CGJ
    } else {
        HB_BUFFER_SCRATCH_FLAG_DEFAULT
    };
    (
        UnicodeProps::IGNORABLE.bits() | kind_of_ignorable(c),
        HB_BUFFER_SCRATCH_FLAG_HAS_DEFAULT_IGNORABLES | joiner,
    )
}

/// The kind of an invisible character: whether it joins its neighbours, keeps them apart or stays hidden.
fn kind_of_ignorable(c: char) -> u16
    ensures { result ≡ kind_bits c }
{
    if c == '\u{200c}' {
        UnicodeProps::CF_ZWNJ.bits()
    } else if c == '\u{200d}' {
        UnicodeProps::CF_ZWJ.bits()
    } else if row_search::holds(&ranges::HIDDEN_IGNORABLES, c) {
        UnicodeProps::HIDDEN.bits()
    } else {
        0
    }
}

/// The bits of a mark; none of any other character.
fn of_mark(c: char, category: hb_unicode_general_category_t, classes: &CombiningClasses) -> u16
    requires { category ≡ category_of_char c }
    ensures { result ≡ mark_bits c classes.now }
{
    if category.is_mark() {
        UnicodeProps::CONTINUATION.bits() | ((c.modified_combining_class(classes) as u16) << 8)
    } else {
        0
    }
}
