//! The bits of a glyph's mask, and which of them a feature has.

ghost use Rattle.std.specs.Prelude.{◌≡◌, ◌<◌, ◌≤◌, ◌+◌, ◌^◌, ℕ, min};
ghost use Rattle.ot_map.specs.Masks.{bits_needed, mask_of, value_in};

/// How many bits the value of a feature has at most, as HarfBuzz's `HB_OT_MAP_MAX_BITS`.
pub const MAX_BITS: u32 = 8;

/// The greatest value that fits into these bits.
pub const MAX_VALUE: u32 = 255;

/// The bit that every glyph has: the last one.
pub const GLOBAL_SHIFT: u32 = 31;

/// The mask of the bit that every glyph has.
pub const GLOBAL_MASK: u32 = 0x8000_0000;

/// The first bit that is free for features. Below it stand the glyph flags, and one bit that is spare.
pub const FIRST_SHIFT: u32 = 4;

/// Neighbouring bits of a mask, which hold the value of a feature.
#[derive(Clone, Copy, PartialEq, Eq)]
pub struct FeatureBits {
    /// The lowest bit.
    pub shift: u32,
    /// How many bits they are.
    pub count: u32,
    ghost inside: { shift + count ≤ 32 },
}

impl FeatureBits {
    /// The bit that every glyph has.
    pub fn global() -> FeatureBits
        ensures lowest { result.shift ≡ 31 }
        ensures one { result.count ≡ 1 }
    {
        FeatureBits {
            shift: GLOBAL_SHIFT,
            count: 1,
        }
    }

    /// The mask of the bits.
    #[tactic(auto, unfolding(crate::specs::Masks::mask_of), using(crate::proofs::MaskLemmas::power_le))]
    pub fn mask(self) -> u32
        ensures { result ≡ mask_of self.shift self.count }
    {
        let above = power(self.shift + self.count);
        let below = power(self.shift);
        (above - below) as u32
    }

    /// A value in these bits; what does not fit is cut off.
    #[tactic(auto, unfolding(crate::specs::Masks::value_in), using(crate::proofs::MaskLemmas::value_below))]
    pub fn of_value(self, value: u32) -> u32
        ensures { result ≡ value_in self.shift self.count value }
    {
        let low = u64::from(value) % power(self.count);
        (low * power(self.shift)) as u32
    }
}

/// The number in which only this bit is 1.
#[tactic(auto, using(crate::proofs::MaskLemmas::power_at_most, crate::proofs::MaskLemmas::mul_power_shifted, std::proofs::lemmas::Nat::pow_pos))]
fn power(bit: u32) -> u64
    requires { bit ≤ 32 }
    ensures is { result ≡ 2 ^ bit }
    ensures there { 0 < result }
    ensures fits { result ≤ 4294967296 }
{
    1u64 << bit
}

/// How many bits the values up to this one need, eight at most.
pub fn bits_needed(max_value: u32) -> u32
    ensures is { result ≡ bits_needed max_value }
    ensures most { result ≤ 8 }
    ensures enough { min max_value 255 < 2 ^ result }
    ensures least { (fewer : ℕ) → fewer < result → 2 ^ fewer ≤ max_value }
{
    let mut count = 0;
    for bit in 0..MAX_BITS {
        if max_value >> bit != 0 {
            count = bit + 1;
        }
    }
    count
}
