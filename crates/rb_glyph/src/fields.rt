//! Bit fields of a word of 32 bits.

ghost use Rattle.std.specs.Prelude.{◌≡◌, ◌+◌, ◌-◌, ◌^◌, ◌<◌, ◌≤◌};
ghost use Rattle.rb_glyph.specs.Fields.{field, with_field, FieldsKeep};

/// The word whose ones are its lowest `bits` bits.
fn low_ones(bits: u32) -> u32
    requires { bits < 32 }
    ensures { result ≡ 2 ^ bits - 1 }
{
    (1 << bits) - 1
}

/// The field of `bits` bits that begins at bit `from`.
pub(crate) fn read_field(word: u32, from: u32, bits: u32) -> u32
    requires start { from < 32 }
    requires size { bits < 32 }
    ensures { result ≡ field word from bits }
{
    word >> from & low_ones(bits)
}

/// Puts a value into the field of `bits` bits that begins at bit `from`.
pub(crate) fn write_field(word: &mut u32, from: u32, bits: u32, value: u32)
    requires start { from < 32 }
    requires size { bits < 32 }
    requires within { from + bits ≤ 32 }
    requires fits { value < 2 ^ bits }
    ensures { word.new ≡ with_field word.old from bits value }
{
    let mask = low_ones(bits) << from;
    *word = *word & !mask | value << from;
}

/// A law with no code: a field that is set holds its value, every other field stays, and a signed field gives back the
/// number that was put in.
pub fn field_law()
    ensures { FieldsKeep }
{}
