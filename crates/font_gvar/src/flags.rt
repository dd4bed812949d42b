//! Flags of 16 bits.

ghost use Rattle.std.specs.Prelude.{◌≡◌};
ghost use Rattle.font_gvar.specs.Components.{has_flag};

/// Whether a flag is among others.
pub(crate) fn has_flag(flags: u16, flag: u16) -> bool
    ensures { result ≡ has_flag flags flag }
{
    flags & flag != 0
}
