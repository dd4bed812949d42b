//! Words with named bits, after HarfBuzz's macros `FLAG`, `FLAG_RANGE` and their kin.

ghost use Rattle.std.specs.Prelude.{◌≡◌, ◌-◌, ◌+◌, ◌^◌, ◌<◌, ◌≤◌, ◌↔◌, ℕ, nat_lt, if◌then◌else◌};
ghost use Rattle.std.specs.Int.{bit_at};

/// The word whose only bit is bit `x`, which is below 32.
pub const fn rb_flag(x: u32) -> u32
    requires { x < 32 }
    ensures { result ≡ 2 ^ x }
{
    1u32 << x
}

/// The word whose only bit is bit `x`, and 0 where a word of 32 bits has no such bit.
pub fn rb_flag_unsafe(x: u32) -> u32
    ensures { result ≡ (if nat_lt x 32 then 2 ^ x else 0) }
{
    if x < 32 { rb_flag(x) } else { 0 }
}

/// The word with the bits from `x` to `y`, both included and below 32.
pub fn rb_flag_range(x: u32, y: u32) -> u32
    requires order { x ≤ y }
    requires width { y < 32 }
    ensures value { result ≡ 2 ^ (y + 1) - 2 ^ x }
    ensures bits { (k : ℕ) → (bit_at result k ≡ 1) ↔ ((x ≤ k) × (k ≤ y)) }
{
    (rb_flag64(y + 1) - rb_flag64(x)) as u32
}

/// The word of 64 bits whose only bit is bit `x`, which is below 64.
pub const fn rb_flag64(x: u32) -> u64
    requires { x < 64 }
    ensures { result ≡ 2 ^ x }
{
    1u64 << x
}

/// The word of 64 bits whose only bit is bit `x`, and 0 where it has no such bit.
pub fn rb_flag64_unsafe(x: u32) -> u64
    ensures { result ≡ (if nat_lt x 64 then 2 ^ x else 0) }
{
    if x < 64 { rb_flag64(x) } else { 0 }
}
