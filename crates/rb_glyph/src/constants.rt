//! Which number each constant of this crate has.
ghost use Rattle.std.specs.Prelude.{IsTrue};
ghost use Rattle.rb_glyph.specs.Constants.{have_their_numbers, category_constants, space_constants, class_constants};
ghost use Rattle.rb_glyph.specs.Constants.{glyph_flag_constants, scratch_constants, buffer_flag_constants};
ghost use Rattle.rb_glyph.specs.Constants.{serialize_flag_constants, unicode_props_constants, glyph_props_constants};

/// A law with no code: each of the numbered constants has its number, name by name.
pub fn constants_law()
    ensures categories { IsTrue (have_their_numbers category_constants) }
    ensures spaces { IsTrue (have_their_numbers space_constants) }
    ensures classes { IsTrue (have_their_numbers class_constants) }
    ensures glyph_flags { IsTrue (have_their_numbers glyph_flag_constants) }
    ensures scratch_flags { IsTrue (have_their_numbers scratch_constants) }
    ensures buffer_flags { IsTrue (have_their_numbers buffer_flag_constants) }
    ensures serialize_flags { IsTrue (have_their_numbers serialize_flag_constants) }
    ensures unicode_props { IsTrue (have_their_numbers unicode_props_constants) }
    ensures glyph_props { IsTrue (have_their_numbers glyph_props_constants) }
{}
