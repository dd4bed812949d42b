//! What a search for a match is given, and what it leaves behind.

ghost use Rattle.std.specs.Prelude.{◌≡◌, ◌≤◌, min, max};
ghost use Rattle.ot_layout.specs.ApplyContext.{IsMadeFor, context_iterator, input_iterator};

use crate::budget::Budget;
use crate::skipping_iterator::{LookupOptions, SkippingIterator};
use arrayvec::ArrayVec;
use ot_lookups::Lookup;
use rb_glyph::hb_glyph_info_t;

/// The places of the glyphs of a match, counted from the cursor: the first is 0.
pub type MatchPositions = ArrayVec<usize, 64>;

/// A lookup that is applied, and the iterators over the glyphs that it does not pass over, which are made once for it.
#[derive(Clone, Copy)]
pub struct LookupContext<'a> {
    /// The lookup.
    pub lookup: &'a Lookup<'a>,
    /// The iterator over the glyphs of a match.
    pub iterator: SkippingIterator<'a>,
    /// The iterator over the glyphs before and after a match.
    pub context: SkippingIterator<'a>,
}

impl<'a> LookupContext<'a> {
    /// A lookup that is applied by these options.
    pub fn new(lookup: &'a Lookup<'a>, options: &LookupOptions, is_positioning: bool) -> Self
        ensures lookup { result.lookup.now ≡ lookup.now }
        ensures made { IsMadeFor options.now is_positioning result }
    {
        LookupContext {
            lookup,
            iterator: SkippingIterator::over_input(lookup.lookup_props, options, is_positioning),
            context: SkippingIterator::over_context(lookup.lookup_props, options, is_positioning),
        }
    }
}

/// The glyphs on both sides of the cursor.
#[derive(Clone, Copy)]
pub struct ApplyContext<'a> {
    /// What stands before the cursor: what was put out, or in a pass in place the glyphs before it.
    pub out: &'a [hb_glyph_info_t],
    /// What is left, the glyph at the cursor first.
    pub input: &'a [hb_glyph_info_t],
    /// The iterator over the glyphs of a match.
    pub iterator: SkippingIterator<'a>,
    /// The iterator over the glyphs before and after a match.
    pub context: SkippingIterator<'a>,
    /// The syllable of which the glyphs have to be, or 0 for any.
    pub syllable: u8,
    /// Whether as many glyphs were put out as were read: then glyphs before the cursor have to be of the syllable too.
    pub is_level: bool,
}

impl<'a> ApplyContext<'a> {
    /// The iterator over the glyphs of a match.
    pub fn input_iterator(&self) -> SkippingIterator<'a>
        ensures { result ≡ input_iterator self.now }
    {
        SkippingIterator {
            syllable: self.syllable,
            ..self.iterator
        }
    }

    /// The iterator over the glyphs around a match, within the syllable or not.
    pub fn context_iterator(&self, is_within: bool) -> SkippingIterator<'a>
        ensures { result ≡ context_iterator self.now is_within }
    {
        let syllable = if is_within { self.syllable } else { 0 };
        SkippingIterator {
            syllable,
            ..self.context
        }
    }
}

/// How far glyphs were looked at: their change may change the result.
#[derive(Clone, Copy, PartialEq, Eq)]
pub struct Reach {
    /// The first glyph before the cursor, as its place in `out`.
    pub from: usize,
    /// Where the glyphs of the input end.
    pub to: usize,
}

impl Reach {
    /// The reach of a search that looked at nothing: from the end of what was put out to the cursor.
    pub fn none(out_len: usize) -> Self
        ensures { result ≡ record { from = out_len; to = 0 } }
    {
        Reach {
            from: out_len,
            to: 0,
        }
    }

    /// Takes in another reach.
    pub fn extend(&mut self, from: usize, to: usize)
        ensures { self.new ≡ record { from = min self.old.from from; to = max self.old.to to } }
    {
        self.from = self.from.min(from);
        self.to = self.to.max(to);
    }
}

/// What searches share: what they may cost, and what the last one found.
#[derive(Drop)]
pub struct Search {
    /// What is left to spend.
    pub budget: Budget,
    /// How far rules that did not fit had looked.
    pub reach: Reach,
    /// The places of the glyphs of the match.
    pub places: MatchPositions,
}

impl Search {
    /// A search that has found nothing.
    pub fn new(budget: Budget) -> Self
        ensures { result.budget ≡ budget }
    {
        Search {
            budget,
            reach: Reach::none(0),
            places: MatchPositions::new(),
        }
    }
}
