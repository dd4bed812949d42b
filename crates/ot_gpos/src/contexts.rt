//! Contexts: which rule fits at a glyph (HarfBuzz, `ContextPos`, `ChainContextPos`).

ghost use Rattle.std.specs.Prelude.{◌≡◌, ◌<◌, length};
ghost use Rattle.ot_gpos.specs.Contexts.{IsDecided};
ghost use Rattle.ot_gpos.specs.Visit.{visit_of};
ghost use Rattle.ot_layout.specs.Budget.{IsNotMore};
ghost use Rattle.ot_lookups.specs.NextAsked.{IsNextOf};

use crate::turn::Turn;
use ot_contexts::context::{Fit, fitting_rule};
use ot_layout::search::{ApplyContext, Reach, Search};
use ot_layout::skipping_iterator::SkippingIterator;
use ot_lookups::lookup_list::LookupList;
use rb_glyph::hb_glyph_info_t;

/// The rule that fits at the glyph; how far rules that do not fit have looked stands in the search. The places of the rule's glyphs
/// are counted from the glyph. No lookup is applied, so that as many may be as before.
pub(crate) fn fit_at<'a>(
    glyphs: &[hb_glyph_info_t],
    list: &'a LookupList<'a>,
    turn: &Turn<'a>,
    context: &SkippingIterator<'a>,
    search: &mut Search,
) -> Option<Fit<'a>>
    requires within { turn.now.place < length glyphs.now }
    requires next { IsNextOf list.now.coverages.items turn.now.subtable.now }
    ensures spent { IsNotMore search.old.budget search.new.budget }
    ensures same_left { search.new.budget.nested ≡ search.old.budget.nested }
    ensures decided { 0 < search.new.budget.steps
        → IsDecided list.now (visit_of turn.now) context.now glyphs.now search.new.places.items result }
{
    search.reach = Reach::none(turn.place);
    let nested = search.budget.nested;
    let ctx = ApplyContext {
        out: &glyphs[..turn.place],
        input: &glyphs[turn.place..],
        iterator: turn.iterator,
        context: *context,
        syllable: 0,
        is_level: true,
    };
    let found = fitting_rule(list, turn.subtable, turn.index, &ctx, search);
    search.budget.nested = nested;
    found
}
