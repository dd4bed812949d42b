//! Chains of glyphs that are attached to others: a chain is how many places away the glyph stands to which one is attached.

ghost use Rattle.std.specs.Prelude.{◌≡◌, ℕ, pos, suc, length};
ghost use Rattle.std.specs.Option.{option_map_or};
ghost use Rattle.ot_attachments.specs.Chains.{chain_reversed, is_joined, link_at, links_turned, place_behind, turned_by, with_chain};
ghost use Rattle.ot_attachments.specs.Placing.{attached, chain_between, changed_at};

use rb_glyph::GlyphPosition;

/// The attachment type of a mark.
pub const ATTACH_TYPE_MARK: u8 = 1;

/// The attachment type of a glyph that is joined to another one.
pub const ATTACH_TYPE_CURSIVE: u8 = 2;

/// Attaches the glyph at a place to that at another. One that is too far away for a chain stays where it is.
#[tactic(auto, unfolding(crate::specs::Placing::attached))]
pub fn attach(position: &mut GlyphPosition, place: usize, to: usize, kind: u8)
    ensures { position.new ≡ attached place to kind position.old }
{
    position.set_attach_type(kind);
    position.set_attach_chain(chain_between(place, to));
}

/// The chain from a place to another, or 0 where it is too long.
fn chain_between(place: usize, to: usize) -> i16
    ensures { result ≡ chain_between place to }
{
    if place <= to && to - place <= 32767 {
        (to - place) as i16
    } else if to < place && place - to <= 32767 {
        -((place - to) as i16)
    } else {
        0
    }
}

/// The place to which a chain leads; `None` where it leads out of the glyphs.
#[tactic(auto, unfolding(crate::specs::Chains::place_behind))]
pub fn place_behind(place: usize, chain: i16, len: usize) -> Option<usize>
    ensures { result ≡ place_behind place chain len }
{
    let to = if chain < 0 {
        place.checked_sub(usize::from(chain.unsigned_abs()))?
    } else {
        place.saturating_add(usize::from(chain.unsigned_abs()))
    };
    if to < len { Some(to) } else { None }
}

/// A link of a chain: where it stands, its length, the kind of attachment, and the offset of its glyph.
#[derive(Clone, Copy)]
struct Link {
    place: usize,
    position: GlyphPosition,
}

/// Turns the chain of a glyph around, so that what it was attached to is attached to it, before the glyph gets a new parent. It ends
/// where the new parent stands in the chain (HarfBuzz, `reverse_cursive_minor_offset`).
#[tactic(auto, unfolding(crate::specs::Chains::chain_reversed))]
pub fn reverse_chain(
    positions: &mut [GlyphPosition],
    child: usize,
    is_horizontal: bool,
    parent: usize,
)
    ensures is { positions.new ≡ chain_reversed child is_horizontal parent positions.old }
    ensures as_many { length positions.new ≡ length positions.old }
{
    match link_at(positions, child) {
        Some(link) => {
            cut(positions, child);
            turn_all(positions, &link, is_horizontal, parent);
        }
        None => {}
    }
}

/// Turns the chain behind a link.
fn turn_all(positions: &mut [GlyphPosition], first: &Link, is_horizontal: bool, parent: usize)
    ensures is { positions.new
        ≡ links_turned (length positions.old) is_horizontal parent first.now positions.old }
    ensures as_many { length positions.new ≡ length positions.old }
{
    let len = positions.len();
    let mut link = *first;
    for _turn in 0..len {
        match turn_next(positions, &link, is_horizontal, parent) {
            Some(next) => link = next,
            None => return,
        }
    }
}

/// Attaches the glyph that a link leads to, unless it is the new parent, to the one at the link, and gives its own link.
fn turn_next(
    positions: &mut [GlyphPosition],
    link: &Link,
    is_horizontal: bool,
    parent: usize,
) -> Option<Link>
    ensures is { (steps : ℕ) → links_turned (suc steps) is_horizontal parent link.now positions.old
        ≡ option_map_or (λ next. links_turned steps is_horizontal parent next positions.new) result positions.new }
    ensures as_many { length positions.new ≡ length positions.old }
{
    let chain = link.position.attach_chain();
    let place = place_behind(link.place, chain, positions.len())?;
    if place == parent {
        return None;
    }
    let next = link_at(positions, place);
    turn_link(positions, place, &link.position, is_horizontal);
    next
}

/// The link at a place; `None` where the glyph is not joined to another one.
#[tactic(auto, unfolding(crate::specs::Chains::link_at))]
fn link_at(positions: &[GlyphPosition], place: usize) -> Option<Link>
    ensures { result ≡ link_at positions.now place }
{
    if place < positions.len() && is_joined(&positions[place]) {
        Some(Link {
            place,
            position: positions[place],
        })
    } else {
        None
    }
}

/// Whether a glyph is joined to another one.
fn is_joined(position: &GlyphPosition) -> bool
    ensures { result ≡ is_joined position.now }
{
    position.attach_chain() != 0 && position.attach_type() & ATTACH_TYPE_CURSIVE != 0
}

/// Takes the chain of the glyph at a place.
#[tactic(auto, using(crate::proofs::PositionsLemmas::length_changed_at), unfolding(crate::specs::Placing::changed_at))]
pub fn cut(positions: &mut [GlyphPosition], place: usize)
    ensures is { positions.new ≡ changed_at (with_chain (pos 0)) place positions.old }
    ensures as_many { length positions.new ≡ length positions.old }
{
    if place < positions.len() {
        positions[place].set_attach_chain(0);
    }
}

/// Attaches the glyph at a place to the one that was attached to it.
#[tactic(auto, unfolding(crate::specs::Placing::changed_at))]
fn turn_link(
    positions: &mut [GlyphPosition],
    place: usize,
    from: &GlyphPosition,
    is_horizontal: bool,
)
    ensures is { positions.new ≡ changed_at (turned_by is_horizontal from.now) place positions.old }
    ensures as_many { length positions.new ≡ length positions.old }
{
    if place < positions.len() {
        turn_by(&mut positions[place], from, is_horizontal);
    }
}

/// Attaches a glyph to the one that was attached to it, from this position.
#[tactic(auto, unfolding(crate::specs::Chains::turned_by))]
fn turn_by(position: &mut GlyphPosition, from: &GlyphPosition, is_horizontal: bool)
    ensures { position.new ≡ turned_by is_horizontal from.now position.old }
{
    if is_horizontal {
        position.y_offset = from.y_offset.wrapping_neg();
    } else {
        position.x_offset = from.x_offset.wrapping_neg();
    }
    position.set_attach_type(from.attach_type());
    position.set_attach_chain(from.attach_chain().wrapping_neg());
}
