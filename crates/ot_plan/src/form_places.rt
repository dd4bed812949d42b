//! Where the lookups of the features stand that shapers of syllables ask of.

ghost use Rattle.std.specs.Prelude.{◌≡◌};
ghost use Rattle.rb_common.specs.Tag.{tag_of};
ghost use Rattle.ot_plan.specs.Forms.{AreFormsOf, ArePlacesOf, places_in};

use ot_map::LayoutPlan;
use rb_common::Tag;
use script_syllables::FormFeature;
use std::marker::Model;
use std::ops::Range;

/// Where the lookups of each feature that a shaper of syllables asks of stand in the list of a plan.
#[derive(Drop)]
pub struct FormPlaces {
    rphf: Range<usize>,
    pref: Range<usize>,
    blwf: Range<usize>,
    pstf: Range<usize>,
    vatu: Range<usize>,
}

impl Model for FormPlaces {
    ghost use Rattle.ot_plan.specs.Forms.{FeaturePlaces};

    ghost Value = { FeaturePlaces };

    ghost view = { λ places. record {
      rphf = (places.rphf.start, places.rphf.end);
      pref = (places.pref.start, places.pref.end);
      blwf = (places.blwf.start, places.blwf.end);
      pstf = (places.pstf.start, places.pstf.end);
      vatu = (places.vatu.start, places.vatu.end);
    } };
}

impl FormPlaces {
    /// Those of a plan.
    pub fn new(layout: &LayoutPlan) -> Self
        ensures { AreFormsOf layout.now result }
    {
        FormPlaces {
            rphf: places_of(layout, b"rphf"),
            pref: places_of(layout, b"pref"),
            blwf: places_of(layout, b"blwf"),
            pstf: places_of(layout, b"pstf"),
            vatu: places_of(layout, b"vatu"),
        }
    }

    /// Those of a feature.
    pub fn of(&self, feature: FormFeature) -> Range<usize>
        ensures { (result.start, result.end) ≡ places_in feature self.now }
    {
        let places = match feature {
            FormFeature::Rphf => &self.rphf,
            FormFeature::Pref => &self.pref,
            FormFeature::Blwf => &self.blwf,
            FormFeature::Pstf => &self.pstf,
            FormFeature::Vatu => &self.vatu,
        };
        places.start..places.end
    }
}

/// Where the lookups stand that are applied in the stage of a feature.
fn places_of(layout: &LayoutPlan, name: &[u8; 4]) -> Range<usize>
    ensures { ArePlacesOf layout.now (tag_of name.now) (result.start, result.end) }
{
    let tag = Tag::from_bytes(name);
    layout.stage_places(tag)
}
