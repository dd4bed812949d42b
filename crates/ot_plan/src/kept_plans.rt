//! Plans that are kept from one text to the next.

ghost use Rattle.std.specs.Prelude.{◌≡◌, [], Some, length, slice_get, IfOk, IfSome, IsNone, IsSomeAnd};
ghost use Rattle.ot_plan.specs.Plans.{IsPlanOf, NoneIsPlanOf};

use crate::planning::SegmentProperties;
use crate::shape_plan::ShapePlan;
use font_face::Face;
use font_functions::FontFunctions;
use shaping_buffer::{Feature, hb_buffer_t};
use std::alloc::{AllocError, Global};
use std::marker::Model;

/// How many plans are kept at most: for so many scripts, languages, directions and features that texts have in turn.
const MOST_PLANS: usize = 64;

/// Plans of the texts before, each of which is used again for texts of the same font that it is for too, as HarfBuzz's
/// `hb_shape_plan_create_cached2` does it.
#[derive(Drop)]
pub struct KeptPlans {
    plans: Option<Vec<ShapePlan>>,
}

impl Model for KeptPlans {
    ghost use Rattle.std.specs.Prelude.{List, [], option_map, unwrap_or};
    ghost use Rattle.ot_plan.specs.Plans.{MadePlan};

    ghost Value = { List MadePlan };

    ghost view = { λ k. unwrap_or (option_map (λ plans. plans.items) k.plans) [] };
}

impl KeptPlans {
    /// No plans.
    pub fn new() -> Self
        ensures { result ≡ [] }
    {
        KeptPlans { plans: None }
    }

    /// The plans that are kept.
    pub fn plans(&self) -> &[ShapePlan]
        ensures { result.now ≡ self.now }
    {
        match &self.plans {
            Some(plans) => plans.as_slice(),
            None => &[],
        }
    }

    /// The place of the plan for the text of a buffer: one that was kept, where a new one would be the same, and else a new one.
    pub fn find<F: FontFunctions>(
        &mut self,
        face: &Face,
        font: &F,
        features: &[Feature],
        buffer: &hb_buffer_t,
    ) -> Result<usize, AllocError>
        ensures { IfOk result (λ place. IsSomeAnd (slice_get self.new place)
            (λ plan. IsPlanOf plan face.now features.now buffer.now)) }
    {
        if let Some(place) = place_of(self.plans(), face, features, buffer) {
            return Ok(place);
        }
        self.add(face.alloc, plan_of_buffer(face, font, features, buffer)?)
    }

    /// Keeps one more plan, and says where. Where many are kept, these are let go.
    fn add(&mut self, alloc: Global, plan: ShapePlan) -> Result<usize, AllocError>
        ensures { IfOk result (λ place. slice_get self.new place ≡ Some plan) }
    {
        let mut plans = match self.plans.take() {
            Some(plans) if plans.len() < MOST_PLANS => plans,
            _ => Vec::new(alloc),
        };
        let place = plans.len();
        plans.push(plan)?;
        self.plans = Some(plans);
        Ok(place)
    }
}

/// The place of the first plan that would be made for the text of a buffer.
fn place_of(
    plans: &[ShapePlan],
    face: &Face,
    features: &[Feature],
    buffer: &hb_buffer_t,
) -> Option<usize>
    ensures found { IfSome result (λ place. IsSomeAnd (slice_get plans.now place)
        (λ plan. IsPlanOf plan face.now features.now buffer.now)) }
    ensures none { IsNone result
        → NoneIsPlanOf plans.now (length plans.now) face.now features.now buffer.now }
{
    for place in 0..plans.len() {
        if plans[place].is_plan_of(face, features, buffer) {
            return Some(place);
        }
    }
    None
}

/// A new plan for the text of a buffer.
fn plan_of_buffer<F: FontFunctions>(
    face: &Face,
    font: &F,
    features: &[Feature],
    buffer: &hb_buffer_t,
) -> Result<ShapePlan, AllocError>
    ensures { IfOk result (λ plan. IsPlanOf plan face.now features.now buffer.now) }
{
    let segment = SegmentProperties {
        direction: buffer.direction,
        script: buffer.script,
        language: buffer.language.as_ref(),
    };
    ShapePlan::with_functions(face, font, &segment, features)
}
