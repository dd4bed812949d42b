//! The glyphs of a match while lookups are applied to them: their places follow glyphs that are put in or taken out.

ghost use Rattle.std.specs.Prelude.{◌≡◌, ◌+◌, ◌-◌, ◌<◌, ◌≤◌, length, map, max, min, nat_le, not, slice_get, slice_index, true};
ghost use Rattle.ot_contexts.specs.MatchPositions.{followed, grown_place, is_behind, is_full, match_at, match_of, moved_up, places_by, shrunk_place};

use ot_layout::MatchPositions;

/// The place of this number after so many glyphs were put in after the glyph `number`: they are the next glyphs of the
/// match, and those after them move up.
#[tactic(auto, unfolding(crate::specs::MatchPositions::grown_place))]
fn grown_place(places: &[usize], number: usize, added: usize, index: usize) -> usize
    requires number { number < length places.now }
    requires few { length places.now + added ≤ 64 }
    requires index { index < length places.now + added }
    ensures { result ≡ grown_place places.now number added index }
{
    if index <= number {
        places[index]
    } else if index <= number + added {
        places[number].saturating_add(index - number)
    } else {
        places[index - added].saturating_add(added)
    }
}

/// The places after so many glyphs were put in after the glyph `number`.
fn grown(places: &[usize], number: usize, added: usize) -> MatchPositions
    requires number { number < length places.now }
    requires few { length places.now + added ≤ 64 }
    ensures { result.items ≡ places_by (grown_place places.now number added) (length places.now + added) }
{
    let mut grown = MatchPositions::new();
    for index in 0..places.len() + added {
        grown.push(grown_place(places, number, added, index));
    }
    grown
}

/// The place of this number after so many glyphs of the match were taken out after the glyph `number`: those after them
/// move down.
#[tactic(auto, unfolding(crate::specs::MatchPositions::shrunk_place))]
fn shrunk_place(places: &[usize], number: usize, removed: usize, index: usize) -> usize
    requires { index + removed < length places.now }
    ensures { result ≡ shrunk_place places.now number removed index }
{
    if index <= number {
        places[index]
    } else {
        places[index + removed].saturating_sub(removed)
    }
}

/// The places after so many glyphs of the match were taken out after the glyph `number`.
fn shrunk(places: &[usize], number: usize, removed: usize) -> MatchPositions
    requires removed { removed ≤ length places.now }
    requires few { length places.now ≤ 64 }
    ensures { result.items ≡ places_by (shrunk_place places.now number removed) (length places.now - removed) }
{
    let mut shrunk = MatchPositions::new();
    for index in 0..places.len() - removed {
        shrunk.push(shrunk_place(places, number, removed, index));
    }
    shrunk
}

/// The places, counted from so many glyphs before them.
fn all_moved_up(places: &[usize], by: usize) -> MatchPositions
    requires { length places.now ≤ 64 }
    ensures { result.items ≡ map (λ place. moved_up place by) places.now }
{
    let mut moved = MatchPositions::new();
    for index in 0..places.len() {
        moved.push(places[index].saturating_add(by));
    }
    moved
}

/// The glyphs of a match, by their places in both sides as one list.
#[derive(Drop)]
pub struct Matched {
    /// The places of the glyphs.
    pub places: MatchPositions,
    /// Where the match ends.
    pub end: usize,
}

impl Matched {
    /// The match with these places and this end, counted from a cursor that so many glyphs stand before.
    pub fn new(places: &MatchPositions, end: usize, before: usize) -> Self
        ensures { match_of result ≡ match_at before places.now.items end }
    {
        Matched {
            places: all_moved_up(places.as_slice(), before),
            end: before.saturating_add(end),
        }
    }

    /// The place of the glyph of this number.
    pub fn place(&self, number: usize) -> Option<usize>
        ensures { result ≡ slice_get self.now.places.items number }
    {
        self.places.get(number).copied()
    }

    /// Whether the glyph of this number stands behind the end of the match.
    pub fn is_behind(&self, number: usize) -> bool
        ensures { result ≡ is_behind self.now.places.items self.now.end number }
    {
        match self.places.get(number) {
            Some(place) => *place >= self.end,
            None => false,
        }
    }

    /// Lets the places follow a lookup that was applied to the glyph of this number, where both sides had so many glyphs
    /// before and have so many after it. Where there would be more places than a match has, the answer is false.
    ///
    /// HarfBuzz takes it that glyphs were put in, or taken out, right after the one that the lookup was applied to.
    pub fn follow(&mut self, number: usize, before: usize, after: usize) -> bool
        requires { number < length self.old.places.items }
        ensures follows { match_of self.new ≡ followed (match_of self.old) number before after }
        ensures on { result ≡ not (is_full (match_of self.old) before after) }
    {
        if after < before {
            self.shrink(number, before - after);
            return true;
        }
        self.grow(number, after - before)
    }

    /// Lets the places follow so many glyphs that were put in.
    fn grow(&mut self, number: usize, added: usize) -> bool
        requires { number < length self.old.places.items }
        ensures end { self.new.end ≡ moved_up self.old.end added }
        ensures on { 0 < added → result ≡ nat_le (length self.old.places.items + added) 64 }
        ensures grown { 0 < added → length self.old.places.items + added ≤ 64 → self.new.places.items
            ≡ places_by (grown_place self.old.places.items number added) (length self.old.places.items + added) }
        ensures full { 64 < length self.old.places.items + added → self.new.places.items ≡ self.old.places.items }
        ensures same { added ≡ 0 → (result ≡ true) × (self.new.places.items ≡ self.old.places.items) }
    {
        self.end = self.end.saturating_add(added);
        if self.places.len() > 64 || added > 64 - self.places.len() {
            return false;
        }
        if added > 0 {
            self.places = grown(self.places.as_slice(), number, added);
        }
        true
    }

    /// Lets the places follow so many glyphs that were taken out. The end does not come before the glyph itself.
    fn shrink(&mut self, number: usize, removed: usize)
        requires { number < length self.old.places.items }
        ensures end { self.new.end ≡ max (self.old.end - removed) (slice_index self.old.places.items number) }
        ensures shrunk { let taken = min (self.old.end - self.new.end) (length self.old.places.items - (number + 1)) in
            self.new.places.items
            ≡ places_by (shrunk_place self.old.places.items number taken) (length self.old.places.items - taken) }
    {
        let end = self.end.saturating_sub(removed).max(self.places[number]);
        let behind = self.places.len() - (number + 1);
        let taken = self.end.saturating_sub(end).min(behind);
        self.end = end;
        self.places = shrunk(self.places.as_slice(), number, taken);
    }
}
