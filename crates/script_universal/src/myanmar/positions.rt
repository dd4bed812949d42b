//! Where each item of a Myanmar syllable belongs.

ghost use Rattle.std.specs.Prelude.{◌≡◌};
ghost use Rattle.glyph_lists.specs.Clusters.{clusters};

use script_syllables::item::{category, is_consonant, position, set_position};
use script_syllables::{Category, Position};
use shaping_buffer::hb_glyph_info_t;

/// How many items a kinzi has: RA, an asat and a halant.
const KINZI_LENGTH: usize = 3;

/// Gives each item of a syllable its position.
#[tactic(auto, using(shaping_buffer::proofs::ClosedKeepsLemmas::clusters_written))]
pub(crate) fn set_positions(syllable: &mut [hb_glyph_info_t])
    ensures { clusters syllable.new ≡ clusters syllable.old }
{
    let kinzi = if has_kinzi(syllable) { KINZI_LENGTH } else { 0 };
    let base = base_of(syllable, kinzi);
    for place in 0..syllable.len() {
        let info = &mut syllable[place];
        if place < kinzi {
            set_position(info, Position::AfterMain);
        } else if place < base {
            set_position(info, Position::PreConsonant);
        } else if place == base {
            set_position(info, Position::Base);
        }
    }
    place_signs(syllable, base.saturating_add(1));
}

/// Whether a syllable begins with a kinzi.
fn has_kinzi(syllable: &[hb_glyph_info_t]) -> bool {
    match syllable {
        [ra, asat, halant, ..] => {
            category(ra) == Category::Ra
                && category(asat) == Category::Asat
                && category(halant) == Category::Halant
        }
        _ => false,
    }
}

/// The first consonant behind a kinzi. Where there is none it is the first item behind that.
fn base_of(syllable: &[hb_glyph_info_t], kinzi: usize) -> usize {
    for place in kinzi..syllable.len() {
        if is_consonant(&syllable[place]) {
            return place;
        }
    }
    kinzi
}

/// Gives the signs behind the base their positions.
#[tactic(auto, using(shaping_buffer::proofs::ClosedKeepsLemmas::clusters_written))]
fn place_signs(syllable: &mut [hb_glyph_info_t], start: usize)
    ensures { clusters syllable.new ≡ clusters syllable.old }
{
    let mut last = Position::AfterMain;
    for place in start..syllable.len() {
        let own = match category(&syllable[place]) {
            Category::MedialRa => Position::PreConsonant,
            Category::VowelPre => Position::PreMatra,
            Category::VariationSelector if place > 0 => position(&syllable[place - 1]),
            other => {
                let (own, next) = sign_position(other, last);
                last = next;
                own
            }
        };
        set_position(&mut syllable[place], own);
    }
}

/// The position of a sign, and that of the signs behind it: signs below come first, marks behind them before those, and all others after
/// them.
fn sign_position(category: Category, last: Position) -> (Position, Position) {
    match (last, category) {
        (Position::AfterMain, Category::VowelBelow) => (Position::Below, Position::Below),
        (Position::Below, Category::Cantillation) => (Position::BeforeSub, Position::Below),
        (Position::Below, Category::VowelBelow) => (Position::Below, Position::Below),
        (Position::Below, _) => (Position::AfterSub, Position::AfterSub),
        _ => (last, last),
    }
}
