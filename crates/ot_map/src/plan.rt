//! Which lookups of a font are applied, in which order, and to which glyphs: HarfBuzz's `hb_ot_map_t`.

ghost use Rattle.std.specs.Prelude.{◌≡◌, None, MatchResult, false, vec_len};
ghost use Rattle.std.specs.Option.{option_copied};
ghost use Rattle.ot_map.specs.Masks.{mask_of, value_in};
ghost use Rattle.ot_map.specs.Order.{IsPlaceOf};
ghost use Rattle.ot_map.specs.Plan.{IsReadOf, IsWithTag};
ghost use Rattle.ot_map.specs.Stages.{places_of_stage, stage_start};

use crate::bits::FeatureBits;
use crate::request::FeatureFlags;
use rb_common::Tag;
use std::ops::Range;

/// What a shaper does between two stages of substitution.
#[derive(Clone, Copy, PartialEq, Eq)]
pub enum Pause {
    /// Nothing: the lookups of the next stage are only applied after all those before.
    Nothing,
    /// It forgets which glyphs were substituted.
    ClearSubstitutionFlags,
    /// It finds the syllables.
    SetUpSyllables,
    /// It puts the glyphs of each syllable in order before the basic features.
    InitialReordering,
    /// It puts the glyphs of each syllable in order after the basic features.
    FinalReordering,
    /// It notes which glyphs `rphf` made.
    RecordRphf,
    /// It notes which glyphs `pref` made.
    RecordPref,
    /// It notes which glyphs `stch` made.
    RecordStch,
    /// It shapes Arabic letters of a font without features for them.
    ArabicFallback,
}

/// A feature of the plan, with the bits of its value.
#[derive(Clone, Copy, PartialEq, Eq)]
pub struct PlannedFeature {
    /// The feature's tag.
    pub tag: Tag,
    /// The number of the feature in `GSUB`; `None` where the language system does not have it.
    pub gsub: Option<u16>,
    /// The number of the feature in `GPOS`; `None` where the language system does not have it.
    pub gpos: Option<u16>,
    /// The stage of substitution in which it is applied.
    pub stage: usize,
    /// The bits of a glyph's mask that hold its value: the bit of every glyph for a feature of all of them with the value 1, and
    /// else bits of its own.
    pub bits: FeatureBits,
    /// The value of each glyph that none is set for.
    pub default_value: u32,
    /// Whether the font does not have it, and a fallback stands in its place.
    pub needs_fallback: bool,
    /// How it is applied.
    pub flags: FeatureFlags,
}

/// A lookup of the plan.
#[derive(Clone, Copy, PartialEq, Eq)]
pub struct PlannedLookup {
    /// The number of the lookup in its table.
    pub index: u16,
    /// It is applied to glyphs whose mask has one of these bits.
    pub mask: u32,
    /// Whether a context passes over a zero width non-joiner.
    pub auto_zwnj: bool,
    /// Whether an input passes over a zero width joiner.
    pub auto_zwj: bool,
    /// Whether one of the alternates is chosen at random.
    pub random: bool,
    /// Whether a match ends with its syllable.
    pub per_syllable: bool,
}

impl PlannedLookup {
    ghost use Rattle.ot_map.specs.Lookups.{together};

    /// Takes in another entry of the same lookup: it is applied to the glyphs of both.
    pub(crate) fn join(&mut self, other: &PlannedLookup)
        ensures { self.new ≡ together self.old other.now }
    {
        self.mask |= other.mask;
        self.auto_zwnj = self.auto_zwnj && other.auto_zwnj;
        self.auto_zwj = self.auto_zwj && other.auto_zwj;
        self.random = self.random || other.random;
        self.per_syllable = self.per_syllable || other.per_syllable;
    }
}

/// A stage of substitution.
#[derive(Clone, Copy, PartialEq, Eq)]
pub struct Stage {
    /// The place behind its last lookup, in the list of all.
    pub end: usize,
    /// What is done after it.
    pub pause: Pause,
}

/// Which lookups of a font are applied, in which order, and to which glyphs.
#[derive(Drop)]
pub struct LayoutPlan {
    /// The mask of a glyph that no feature of a range reaches.
    pub global_mask: u32,
    /// The script of `GSUB` that was chosen; the null tag for none.
    pub gsub_script: Tag,
    /// The script of `GPOS` that was chosen; the null tag for none.
    pub gpos_script: Tag,
    /// The features, in the order of their tags.
    pub features: Vec<PlannedFeature>,
    /// The lookups of substitution, stage by stage, and in each in the order of their numbers.
    pub gsub_lookups: Vec<PlannedLookup>,
    /// The stages of substitution.
    pub stages: Vec<Stage>,
    /// The lookups of positioning, in the order of their numbers.
    pub gpos_lookups: Vec<PlannedLookup>,
}

impl LayoutPlan {
    /// The feature with a tag; `None` where the plan has none.
    pub fn feature(&self, tag: Tag) -> Option<&PlannedFeature>
        ensures { IsWithTag self.now.features.items tag.0 (option_copied result) }
    {
        match place_of(self.features.as_slice(), tag) {
            Ok(place) => self.features.get(place),
            Err(_) => None,
        }
    }

    /// The mask of a feature; 0 where the plan has none with this tag.
    pub fn mask(&self, tag: Tag) -> u32
        ensures { IsReadOf self.now.features.items tag.0 (λ f. mask_of f.bits.shift f.bits.count) 0 result }
    {
        match self.feature(tag) {
            Some(feature) => feature.bits.mask(),
            None => 0,
        }
    }

    /// The mask of the value 1 of a feature; 0 where the plan has none with this tag.
    pub fn one_mask(&self, tag: Tag) -> u32
        ensures { IsReadOf self.now.features.items tag.0 (λ f. value_in f.bits.shift f.bits.count 1) 0 result }
    {
        match self.feature(tag) {
            Some(feature) => feature.bits.of_value(1),
            None => 0,
        }
    }

    /// Where the lookups of substitution stand that are applied in the stage of a feature, in the list of all; nowhere where the plan
    /// has none with this tag.
    pub fn stage_places(&self, tag: Tag) -> Range<usize>
        ensures { IsReadOf self.now.features.items tag.0
            (λ f. places_of_stage self.now.stages.items (vec_len self.now.gsub_lookups) f.stage) (0, 0)
            (result.start, result.end) }
    {
        match self.feature(tag) {
            Some(feature) => self.places_of_stage(feature.stage),
            None => 0..0,
        }
    }

    /// Where the lookups of substitution of a stage stand; nowhere where the stages are not in order.
    fn places_of_stage(&self, stage: usize) -> Range<usize>
        ensures { (result.start, result.end)
            ≡ places_of_stage self.now.stages.items (vec_len self.now.gsub_lookups) stage }
    {
        let count = self.gsub_lookups.len();
        let start = stage_start(self.stages.as_slice(), stage);
        let end = match self.stages.get(stage) {
            Some(stage) => stage.end,
            None => count,
        };
        if start <= end && end <= count {
            start..end
        } else {
            0..0
        }
    }

    /// Whether a feature has to be made by a fallback.
    pub fn needs_fallback(&self, tag: Tag) -> bool
        ensures { IsReadOf self.now.features.items tag.0 (λ f. f.needs_fallback) false result }
    {
        match self.feature(tag) {
            Some(feature) => feature.needs_fallback,
            None => false,
        }
    }
}

/// The place of the feature with a tag, or where it belongs.
fn place_of(features: &[PlannedFeature], tag: Tag) -> Result<usize, usize>
    ensures { MatchResult result (IsPlaceOf (λ f. f.tag.0) tag.0 features.now) (λ _. IsWithTag features.now tag.0 None) }
{
    features.binary_search_by_key(&tag.0, |feature| feature.tag.0)
}

/// The place of a stage's first lookup, in the list of all.
fn stage_start(stages: &[Stage], stage: usize) -> usize
    ensures { result ≡ stage_start stages.now stage }
{
    if stage == 0 {
        return 0;
    }
    match stages.get(stage - 1) {
        Some(before) => before.end,
        None => 0,
    }
}
