//! The size at which a font is used: how long an em is across and up, and how many pixels it has (HarfBuzz's
//! `hb_font_set_scale` and `hb_font_set_ppem`).

ghost use Rattle.std.specs.Prelude.{◌≡◌, pos};
ghost use Rattle.std.specs.Int.{saturate_signed, w32};
ghost use Rattle.font_tables.specs.Scale.{multiplier, multiplied, distance};

/// The size at which a font is used.
#[derive(Clone, Copy)]
pub struct Scale {
    /// How long an em is across.
    pub x: i32,
    /// How long an em is upwards.
    pub y: i32,
    /// How many font units make an em.
    pub units_per_em: u16,
    /// How many pixels an em has across; 0 where glyphs are not drawn in pixels. Device tables are for pixels.
    pub x_ppem: u16,
    /// How many pixels an em has upwards; 0 where glyphs are not drawn in pixels.
    pub y_ppem: u16,
    x_multiplier: i64,
    y_multiplier: i64,
    ghost across: { x_multiplier ≡ multiplier x units_per_em },
    ghost upwards: { y_multiplier ≡ multiplier y units_per_em },
}

impl Scale {
    ghost use Rattle.font_tables.specs.Scale.{em_scale, distance};

    /// The size at which an em is as long as it has font units: a number of font units stays as it is. There are no pixels.
    pub fn of_em(units_per_em: u16) -> Self
        ensures across { result.x ≡ pos units_per_em }
        ensures upwards { result.y ≡ pos units_per_em }
        ensures units { result.units_per_em ≡ units_per_em }
        ensures x_pixels { result.x_ppem ≡ 0 }
        ensures y_pixels { result.y_ppem ≡ 0 }
    {
        let em = i32::from(units_per_em);
        Scale::new(units_per_em, em, em)
    }

    /// The size at which an em is so long across and upwards. There are no pixels.
    pub fn new(units_per_em: u16, x: i32, y: i32) -> Self
        ensures across { result.x ≡ x }
        ensures upwards { result.y ≡ y }
        ensures units { result.units_per_em ≡ units_per_em }
        ensures x_pixels { result.x_ppem ≡ 0 }
        ensures y_pixels { result.y_ppem ≡ 0 }
    {
        Scale {
            x,
            y,
            units_per_em,
            x_ppem: 0,
            y_ppem: 0,
            x_multiplier: multiplier(x, units_per_em),
            y_multiplier: multiplier(y, units_per_em),
        }
    }

    /// A number of font units across, rounded as HarfBuzz rounds it.
    pub fn em_scale_x(&self, value: i32) -> i32
        ensures { result ≡ em_scale value self.now.x self.now.units_per_em }
    {
        multiplied(value, self.x_multiplier)
    }

    /// A number of font units upwards, rounded as HarfBuzz rounds it.
    pub fn em_scale_y(&self, value: i32) -> i32
        ensures { result ≡ em_scale value self.now.y self.now.units_per_em }
    {
        multiplied(value, self.y_multiplier)
    }

    /// How far so many font units reach across, to the nearest whole number.
    pub fn distance_x(&self, value: i32) -> i32
        ensures { result ≡ distance value self.now.x self.now.units_per_em }
    {
        distance(value, self.x, self.units_per_em)
    }

    /// How far so many font units reach upwards, to the nearest whole number.
    pub fn distance_y(&self, value: i32) -> i32
        ensures { result ≡ distance value self.now.y self.now.units_per_em }
    {
        distance(value, self.y, self.units_per_em)
    }
}

/// How far so many font units reach where an em is `size` long, to the nearest whole number.
fn distance(value: i32, size: i32, units_per_em: u16) -> i32
    ensures { result ≡ distance value size units_per_em }
{
    let units = units_per_em.max(1);
    let product = i64::from(value).saturating_mul(i64::from(size));
    saturated(i128::from(
        product
            .saturating_add(i64::from(units / 2))
            .div_euclid(i64::from(units)),
    ))
}

/// How long 2^16 font units are where an em is `size` long.
fn multiplier(size: i32, units_per_em: u16) -> i64
    ensures { result ≡ multiplier size units_per_em }
{
    i64::from(size) * 65536 / i64::from(units_per_em.max(1))
}

/// A number of font units, by the length of 2^16 of them.
fn multiplied(value: i32, multiplier: i64) -> i32
    ensures { result ≡ multiplied value multiplier }
{
    let product = i64::from(value).saturating_mul(multiplier);
    saturated(i128::from(product.saturating_add(32768) >> 16))
}

/// The nearest number of 32 bits.
#[inline]
pub fn saturated(value: i128) -> i32
    ensures { result ≡ saturate_signed w32 value }
{
    if value < i128::from(i32::MIN) {
        i32::MIN
    } else if value > i128::from(i32::MAX) {
        i32::MAX
    } else {
        value as i32
    }
}
