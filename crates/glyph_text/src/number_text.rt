//! Short texts of numbers, written from their end, as their digits come.

ghost use Rattle.std.specs.Prelude.{◌≡◌, ◌+◌, ◌<◌, ◌≤◌, ◌∷◌, ◌++◌, [], length};
ghost use Rattle.std.specs.Fmt.{decimal};
ghost use Rattle.glyph_text.specs.declared.number_text.TheConstants.{LIMIT};

use itoa::write_digits;
use std::marker::Model;
use std::str::from_utf8_unchecked;

/// How many bytes such a text has at most: each of two numbers has at most ten digits and a sign before it.
const LIMIT: usize = 22;

/// A text of numbers and of ASCII signs before them. It goes into a longer text by one copy.
#[derive(Drop)]
pub(crate) struct NumberText {
    bytes: [u8; LIMIT],
    start: usize,
}

impl Model for NumberText {
    ghost use Rattle.std.specs.Prelude.{ℕ, List, ◌≤◌, drop};
    ghost use Rattle.std.specs.Str.{IsAscii};
    ghost use Rattle.glyph_text.specs.declared.number_text.TheConstants.{LIMIT};

    ghost Value = { List ℕ };

    ghost view = { λ t. drop t.start t.bytes };

    ghost invariant = { λ t. (t.start ≤ LIMIT) × IsAscii (drop t.start t.bytes) };
}

impl NumberText {
    #[inline(always)]
    pub(crate) fn new() -> NumberText
        ensures { result ≡ [] }
    {
        NumberText {
            bytes: [0; LIMIT],
            start: LIMIT,
        }
    }

    /// Puts a sign before the text.
    #[inline(always)]
    pub(crate) fn put_sign(&mut self, sign: u8)
        requires room { length self.old < LIMIT }
        requires ascii { sign < 128 }
        ensures { self.new ≡ sign ∷ self.old }
    {
        self.start -= 1;
        self.bytes[self.start] = sign;
    }

    /// Puts a number before the text.
    #[inline(always)]
    #[tactic(auto, using(crate::proofs::NumberTextLemmas::ascii_behind_number))]
    pub(crate) fn put_number(&mut self, number: u32)
        requires room { length self.old + 10 ≤ LIMIT }
        ensures text { self.new ≡ decimal number ++ self.old }
        ensures len { length self.new ≤ length self.old + 10 }
    {
        self.start = write_digits(u64::from(number), &mut self.bytes, self.start);
    }

    #[inline(always)]
    pub(crate) fn as_str(&self) -> &str
        ensures { result.now ≡ self.now }
    {
        unsafe { from_utf8_unchecked(&self.bytes[self.start..]) }
    }
}
