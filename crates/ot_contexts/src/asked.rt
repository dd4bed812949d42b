//! What a rule asks of the next glyphs after the cursor, read from its bytes without the rest of it.

ghost use Rattle.std.specs.Prelude.{◌≡◌, ◌<◌, ◌+◌, Some, IfSome};
ghost use Rattle.font_tables.specs.Bytes.{number_16};
ghost use Rattle.ot_contexts.specs.Asked.{asked_lookahead, asked_at, chained_asked, plain_asked};

use font_tables::bytes::u16_at;
use ot_lookups::subtable::MAX_CONTEXT_LENGTH;

/// The number that a rule asks for.
#[derive(Clone, Copy)]
pub enum Asked {
    /// That of a glyph of its input.
    Input(u16),
    /// That of a glyph after its input.
    Lookahead(u16),
}

/// What the rule in these bytes asks of the glyph of this number after the cursor; `None` where it asks for nothing there, its input is
/// too long for a match, or it is cut short.
#[inline(always)]
pub fn asked_at(table: &[u8], is_chained: bool, number: usize) -> Option<Asked>
    requires { number < 2 }
    ensures { result ≡ asked_at is_chained table.now number }
{
    if is_chained {
        chained_asked(table, number)
    } else {
        plain_asked(table, number)
    }
}

/// What the rule in these bytes asks of the glyph after the cursor, where its first bytes tell that: they are read at once.
#[inline(always)]
pub fn asked_next(table: &[u8], is_chained: bool) -> Option<Asked>
    ensures { IfSome result (λ asked. asked_at is_chained table.now 0 ≡ Some asked) }
{
    if is_chained {
        chained_next(table)
    } else {
        plain_next(table)
    }
}

/// What a rule without context asks of the next glyph.
#[inline(always)]
fn plain_next(table: &[u8]) -> Option<Asked>
    ensures { IfSome result (λ asked. plain_asked table.now 0 ≡ Some asked) }
{
    let (input, _records, asked) = three_at(table, 0)?;
    if 1 < input && usize::from(input) <= MAX_CONTEXT_LENGTH {
        Some(Asked::Input(asked))
    } else {
        None
    }
}

/// What a rule with context asks of the next glyph.
#[inline(always)]
fn chained_next(table: &[u8]) -> Option<Asked>
    ensures { IfSome result (λ asked. chained_asked table.now 0 ≡ Some asked) }
{
    let input_at = 2 + 2 * usize::from(u16_at(table, 0)?);
    let (input, second, third) = three_at(table, input_at)?;
    if 1 < input {
        if usize::from(input) <= MAX_CONTEXT_LENGTH {
            Some(Asked::Input(second))
        } else {
            None
        }
    } else if 0 < second {
        Some(Asked::Lookahead(third))
    } else {
        None
    }
}

/// The three numbers of 16 bits from a place on.
#[inline(always)]
#[tactic(auto, unfolding(font_tables::specs::Bytes::number_16))]
fn three_at(table: &[u8], at: usize) -> Option<(u16, u16, u16)>
    ensures first { IfSome result (λ numbers. number_16 table.now at ≡ Some numbers.0) }
    ensures second { IfSome result (λ numbers. number_16 table.now (at + 2) ≡ Some numbers.1) }
    ensures third { IfSome result (λ numbers. number_16 table.now (at + 4) ≡ Some numbers.2) }
{
    match table.get(at..)? {
        [a, b, c, d, e, f, ..] => {
            let first = u16::from(*a) * 256 + u16::from(*b);
            let second = u16::from(*c) * 256 + u16::from(*d);
            let third = u16::from(*e) * 256 + u16::from(*f);
            Some((first, second, third))
        }
        _ => None,
    }
}

/// What a rule without context asks for.
#[inline(always)]
fn plain_asked(table: &[u8], number: usize) -> Option<Asked>
    requires { number < 2 }
    ensures { result ≡ plain_asked table.now number }
{
    let input = usize::from(u16_at(table, 0)?.saturating_sub(1));
    if number < input && input < MAX_CONTEXT_LENGTH {
        Some(Asked::Input(u16_at(table, 4 + 2 * number)?))
    } else {
        None
    }
}

/// What a rule with context asks for.
#[inline(always)]
fn chained_asked(table: &[u8], number: usize) -> Option<Asked>
    requires { number < 2 }
    ensures { result ≡ chained_asked table.now number }
{
    let input_at = 2 + 2 * usize::from(u16_at(table, 0)?);
    let input = usize::from(u16_at(table, input_at)?.saturating_sub(1));
    if number >= input {
        return asked_lookahead(table, input_at + 2 + 2 * input, number - input);
    }
    if input < MAX_CONTEXT_LENGTH {
        Some(Asked::Input(u16_at(table, input_at + 2 + 2 * number)?))
    } else {
        None
    }
}

/// What it asks for after its input, where the count of that stands at this place.
#[inline(always)]
fn asked_lookahead(table: &[u8], at: usize, number: usize) -> Option<Asked>
    requires near { at < 1000000 }
    requires few { number < 2 }
    ensures { result ≡ asked_lookahead table.now at number }
{
    if number < usize::from(u16_at(table, at)?) {
        Some(Asked::Lookahead(u16_at(table, at + 2 + 2 * number)?))
    } else {
        None
    }
}
