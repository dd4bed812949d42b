//! How the lookups of a plan are applied, and what they may cost.

ghost use Rattle.std.specs.Prelude.{◌≡◌, ◌≤ℤ◌, pos};
ghost use Rattle.ot_layout.specs.Budget.{steps_for};
ghost use Rattle.shaping_buffer.specs.State.{len};

use ot_layout::{Budget, LookupOptions};
use ot_map::PlannedLookup;
use shaping_buffer::hb_buffer_t;

/// How a lookup of the plan is applied.
pub fn options_of(planned: &PlannedLookup) -> LookupOptions
    ensures { result ≡ record {
      mask = planned.now.mask;
      auto_zwnj = planned.now.auto_zwnj;
      auto_zwj = planned.now.auto_zwj;
      per_syllable = planned.now.per_syllable;
      random = planned.now.random;
    } }
{
    LookupOptions {
        mask: planned.mask,
        auto_zwnj: planned.auto_zwnj,
        auto_zwj: planned.auto_zwj,
        per_syllable: planned.per_syllable,
        random: planned.random,
    }
}

/// What the lookups of a text may cost.
pub fn budget_of(buffer: &hb_buffer_t) -> Budget
    ensures steps { result.steps ≡ steps_for (len buffer.now) }
    ensures nested { pos 0 ≤ℤ buffer.now.max_ops → pos result.nested ≡ buffer.now.max_ops }
{
    let most = u32::try_from(buffer.max_ops).unwrap_or(0);
    Budget::new(most, buffer.len())
}
