//! The words of a line.

ghost use Rattle.std.specs.Prelude.{◌≡◌, ◌^◌, ◌<◌, ◌↔◌, Some, None, IsTrue, SomeIff, option_copied, option_map};
ghost use Rattle.std.specs.Char.{is_ascii_digit, is_ascii_hexdigit};
ghost use Rattle.std.specs.List.{before_first, list_all};
ghost use Rattle.shaping_session.specs.Words.{is_space, first_word, past_space, past_first_word};
ghost use Rattle.shaping_session.specs.Words.{IsDecimal, decimal_value, IsHexadecimal, hexadecimal_value};
ghost use Rattle.shaping_session.specs.Words.{next_u32, next_u64, next_character, next_script, next_language};

use rb_common::Script;
use std::marker::Model;

/// A line that is taken word by word from its front. Words are not empty, and one space parts them.
/// A contract sees what is left of the line, and nothing at all once its end was taken.
#[derive(Drop)]
pub struct Words<'a> {
    rest: Option<&'a str>,
}

impl<'a> Model for Words<'a> {
    ghost use Rattle.std.specs.Prelude.{ℕ, List, Option, option_copied};

    ghost Value = { Option (List ℕ) };

    ghost view = { λ w. option_copied w.rest };
}

impl<'a> Words<'a> {
    /// All of a line.
    pub fn of(line: &'a str) -> Words<'a>
        ensures { result ≡ Some line.now }
    {
        Words { rest: Some(line) }
    }

    /// Takes the next word. There is none at the end of the line, and none where two spaces meet.
    pub fn word(&mut self) -> Option<&'a str>
        ensures word { option_copied result ≡ first_word self.old }
        ensures rest { self.new ≡ past_first_word self.old }
    {
        let rest = self.rest?;
        let (word, others) = cut_word(rest);
        self.rest = others;
        if word.is_empty() { None } else { Some(word) }
    }

    /// Takes the next word where decimal digits alone write a number of 32 bits.
    pub fn number(&mut self) -> Option<u32>
        ensures number { result ≡ next_u32 self.old }
        ensures rest { self.new ≡ past_first_word self.old }
    {
        let value = decimal(self.word()?)?;
        u32::try_from(value).ok()
    }

    /// Takes the next word where decimal digits alone write a number of 64 bits.
    pub fn number_64(&mut self) -> Option<usize>
        ensures number { result ≡ next_u64 self.old }
        ensures rest { self.new ≡ past_first_word self.old }
    {
        let value = decimal(self.word()?)?;
        usize::try_from(value).ok()
    }

    /// Takes the next word where hexadecimal digits alone, of either case, write the number of a character.
    pub fn character(&mut self) -> Option<char>
        ensures character { result ≡ next_character self.old }
        ensures rest { self.new ≡ past_first_word self.old }
    {
        let code = hexadecimal(self.word()?)?;
        char::from_u32(code)
    }

    /// Takes the next word as the name of a script, where it names one; `-` names none.
    pub fn script(&mut self) -> Option<Option<Script>>
        ensures script { result ≡ next_script self.old }
        ensures rest { self.new ≡ past_first_word self.old }
    {
        match self.word()? {
            "-" => Some(None),
            word => Some(Some(word.parse::<Script>().ok()?)),
        }
    }

    /// Takes the next word as the text of a language; `-` names none.
    pub fn language(&mut self) -> Option<Option<&'a str>>
        ensures language { option_map (λ text. option_copied text) result ≡ next_language self.old }
        ensures rest { self.new ≡ past_first_word self.old }
    {
        match self.word()? {
            "-" => Some(None),
            word => Some(Some(word)),
        }
    }

    /// Takes all that is left after the last space, which may be an empty text.
    pub fn text(&mut self) -> Option<&'a str>
        ensures text { option_copied result ≡ self.old }
        ensures rest { self.new ≡ None }
    {
        self.rest.take()
    }

    /// Whether the whole line was taken.
    pub fn at_end(&self) -> bool
        ensures { IsTrue result ↔ (self.now ≡ None) }
    {
        self.rest.is_none()
    }
}

/// What stands before the first space, and what follows it, where there is one.
fn cut_word(text: &str) -> (&str, Option<&str>)
    ensures word { result.0.now ≡ before_first is_space text.now }
    ensures rest { option_copied result.1 ≡ past_space text.now }
{
    match text.split_once(' ') {
        Some((word, others)) => (word, Some(others)),
        None => (text, None),
    }
}

/// The number that decimal digits alone write, where it fits.
#[tactic(auto, using(crate::proofs::WordLemmas::decimal_from_parse))]
fn decimal(word: &str) -> Option<u64>
    ensures { SomeIff result (IsDecimal word.now × (decimal_value word.now < 2 ^ 64))
        (decimal_value word.now) }
{
    if !is_all_digits(word) {
        return None;
    }
    word.parse::<u64>().ok()
}

fn is_all_digits(word: &str) -> bool
    ensures { result ≡ list_all is_ascii_digit word.now }
{
    word.bytes().all(|b| b.is_ascii_digit())
}

/// The number that hexadecimal digits alone write, where it fits.
#[tactic(auto, using(crate::proofs::WordLemmas::hexadecimal_from_parse))]
fn hexadecimal(word: &str) -> Option<u32>
    ensures { SomeIff result (IsHexadecimal word.now × (hexadecimal_value word.now < 2 ^ 32))
        (hexadecimal_value word.now) }
{
    if !is_all_hexadecimal_digits(word) {
        return None;
    }
    u32::from_str_radix(word, 16).ok()
}

fn is_all_hexadecimal_digits(word: &str) -> bool
    ensures { result ≡ list_all is_ascii_hexdigit word.now }
{
    word.bytes().all(|b| b.is_ascii_hexdigit())
}
