//! The lookups of features, stage by stage: in the order of their numbers, each once in a stage.

ghost use Rattle.std.specs.Prelude.{◌≡◌, ◌<◌, ◌≤◌, List, ◌+◌, ◌++◌, [], drop, length, take, vec_len, IfOk};
ghost use Rattle.std.specs.List.{flat_map};
ghost use Rattle.std.specs.List.Sorted.{IsNonDecreasingBy};
ghost use Rattle.ot_map.specs.Collecting.{AreStagesOf, Collects, CollectsBelow, IsMergedTo, MergesStage};
ghost use Rattle.ot_map.specs.Lookups.{by_stage, in_feature, in_order, listed_by, listed_by_required, listed_in_positions};
ghost use Rattle.ot_map.specs.Lookups.{listed_in_stage, lookup_with, positions_list, required_in, stage_lists, taken};

use crate::bits::GLOBAL_MASK;
use crate::builder::ChosenTable;
use crate::choice::required_feature;
use crate::plan::{Pause, PlannedFeature, PlannedLookup, Stage};
use crate::request::FeatureFlags;
use crate::tables::feature_lookup_count;
use font_tables::bytes::u16_at;
use std::alloc::{AllocError, Global};

/// How many lookups the features of a plan may list in each table, together: HarfBuzz's `HB_MAX_LOOKUP_VISIT_COUNT`. What comes
/// after is left out.
pub const MOST_LOOKUPS: usize = 35_000;

/// The lookups of features that are collected for a table.
#[derive(Drop)]
struct Collector {
    lookups: Vec<PlannedLookup>,
    /// How many more may be listed.
    left: usize,
    ghost few: { vec_len lookups + left ≤ 35000 },
}

impl Collector {
    /// No lookups yet.
    fn new(alloc: Global) -> Self
        ensures { (result.lookups.items ≡ []) × (result.left ≡ 35000) }
    {
        Collector {
            lookups: Vec::new(alloc),
            left: MOST_LOOKUPS,
        }
    }

    /// Adds the lookups of a feature of a table, for the glyphs that have one of these bits.
    #[tactic(auto, using(crate::proofs::CollectedLemmas::collects))]
    fn add(
        &mut self,
        table: &ChosenTable,
        feature: Option<u16>,
        mask: u32,
        flags: FeatureFlags,
    ) -> Result<(), AllocError>
        ensures { IfOk result (λ _. Collects table.now (listed_by table.now mask flags feature)
            self.old.lookups.items self.old.left self.new.lookups.items self.new.left) }
    {
        match feature {
            Some(feature) => self.add_listed(
                table.lists.lookup_count,
                table.lists.feature_table(feature),
                mask,
                flags,
            ),
            None => Ok(()),
        }
    }

    /// Adds the lookups that a feature table lists, as far as the table has so many.
    #[tactic(auto, using(crate::proofs::CollectedLemmas::collects))]
    fn add_listed(
        &mut self,
        count: u16,
        feature: &[u8],
        mask: u32,
        flags: FeatureFlags,
    ) -> Result<(), AllocError>
        ensures { IfOk result (λ _. CollectsBelow count (in_feature feature.now mask flags)
            self.old.lookups.items self.old.left self.new.lookups.items self.new.left) }
    {
        let visited = feature_lookup_count(feature).min(self.left);
        for place in 0..visited {
            self.left -= 1;
            let index = u16_at(feature, 4 + 2 * place).unwrap_or(0);
            if index < count {
                self.lookups.push(lookup_with(mask, flags, index))?;
            }
        }
        Ok(())
    }

    /// Adds the lookups of the feature that the language system requires.
    fn add_required(&mut self, table: &ChosenTable) -> Result<(), AllocError>
        ensures { IfOk result (λ _. Collects table.now (listed_by_required table.now)
            self.old.lookups.items self.old.left self.new.lookups.items self.new.left) }
    {
        self.add(
            table,
            required_feature(table.system),
            GLOBAL_MASK,
            FeatureFlags::NONE,
        )
    }

    /// Adds the lookups of a feature of `GSUB`, where it is applied in a stage.
    #[tactic(auto, using(crate::proofs::CollectedLemmas::collects))]
    fn add_in_stage(
        &mut self,
        table: &ChosenTable,
        feature: &PlannedFeature,
        stage: usize,
    ) -> Result<(), AllocError>
        ensures { IfOk result (λ _. Collects table.now (listed_in_stage table.now stage feature.now)
            self.old.lookups.items self.old.left self.new.lookups.items self.new.left) }
    {
        if feature.stage == stage {
            self.add(table, feature.gsub, feature.bits.mask(), feature.flags)
        } else {
            Ok(())
        }
    }

    /// Adds the lookups of features of `GSUB` that are applied in a stage.
    #[tactic(auto, using(crate::proofs::CollectedLemmas::collects))]
    fn add_features(
        &mut self,
        table: &ChosenTable,
        features: &[PlannedFeature],
        stage: usize,
    ) -> Result<(), AllocError>
        ensures { IfOk result (λ _. Collects table.now (flat_map (listed_in_stage table.now stage) features.now)
            self.old.lookups.items self.old.left self.new.lookups.items self.new.left) }
    {
        for feature in features {
            self.add_in_stage(table, feature, stage)?;
        }
        Ok(())
    }

    /// Adds all lookups of a stage.
    #[tactic(auto, using(crate::proofs::CollectedLemmas::collects))]
    fn add_stage(
        &mut self,
        table: &ChosenTable,
        required_stage: usize,
        features: &[PlannedFeature],
        stage: usize,
    ) -> Result<(), AllocError>
        ensures { IfOk result (λ _. Collects table.now (stage_lists table.now required_stage features.now stage)
            self.old.lookups.items self.old.left self.new.lookups.items self.new.left) }
    {
        self.add_required_in(table, required_stage, stage)?;
        self.add_features(table, features, stage)?;
        Ok(())
    }

    /// Adds the lookups of the feature that the language system of `GSUB` requires, where it is applied in a stage.
    #[tactic(auto, using(crate::proofs::CollectedLemmas::collects))]
    fn add_required_in(
        &mut self,
        table: &ChosenTable,
        required_stage: usize,
        stage: usize,
    ) -> Result<(), AllocError>
        ensures { IfOk result (λ _. Collects table.now (required_in table.now required_stage stage)
            self.old.lookups.items self.old.left self.new.lookups.items self.new.left) }
    {
        if stage == required_stage {
            self.add_required(table)
        } else {
            Ok(())
        }
    }

    /// Adds the lookups of a feature of `GPOS`.
    fn add_in_positions(
        &mut self,
        table: &ChosenTable,
        feature: &PlannedFeature,
    ) -> Result<(), AllocError>
        ensures { IfOk result (λ _. Collects table.now (listed_in_positions table.now feature.now)
            self.old.lookups.items self.old.left self.new.lookups.items self.new.left) }
    {
        self.add(table, feature.gpos, feature.bits.mask(), feature.flags)
    }

    /// Adds the lookups of features of `GPOS`.
    #[tactic(auto, using(crate::proofs::CollectedLemmas::collects))]
    fn add_positions(
        &mut self,
        table: &ChosenTable,
        features: &[PlannedFeature],
    ) -> Result<(), AllocError>
        ensures { IfOk result (λ _. Collects table.now (flat_map (listed_in_positions table.now) features.now)
            self.old.lookups.items self.old.left self.new.lookups.items self.new.left) }
    {
        for feature in features {
            self.add_in_positions(table, feature)?;
        }
        Ok(())
    }

    /// Adds all lookups of a stage, in order and each once.
    fn merge_stage(
        &mut self,
        table: &ChosenTable,
        required_stage: usize,
        features: &[PlannedFeature],
        stage: usize,
    ) -> Result<(), AllocError>
        ensures { IfOk result (λ _. MergesStage table.now (stage_lists table.now required_stage features.now stage)
            self.old.lookups.items self.old.left self.new.lookups.items self.new.left) }
    {
        let start = self.lookups.len();
        self.add_stage(table, required_stage, features, stage)?;
        self.merge_from(start);
        Ok(())
    }

    /// Puts the lookups from a place on in order, and each that is there more than once together.
    fn merge_from(&mut self, start: usize)
        ensures left { self.new.left ≡ self.old.left }
        ensures lookups { start ≤ vec_len self.old.lookups → self.new.lookups.items
            ≡ take start self.old.lookups.items ++ in_order (drop start self.old.lookups.items) }
    {
        let start = start.min(self.lookups.len());
        let len = merged_from(self.lookups.as_mut_slice(), start);
        self.lookups.truncate(len);
    }
}

/// Puts the lookups from a place on in order, and each that is there more than once together: how many there are then.
fn merged_from(lookups: &mut [PlannedLookup], start: usize) -> usize
    requires { start ≤ length lookups.old }
    ensures few { result ≤ length lookups.old }
    ensures is { take result lookups.new ≡ take start lookups.old ++ in_order (drop start lookups.old) }
{
    let len = merged(&mut lookups[start..]);
    start + len
}

/// A lookup, applied as the flags of its feature say.
fn lookup_with(mask: u32, flags: FeatureFlags, index: u16) -> PlannedLookup
    ensures { result ≡ lookup_with mask flags index }
{
    PlannedLookup {
        index,
        mask,
        auto_zwnj: !flags.manual_zwnj,
        auto_zwj: !flags.manual_zwj,
        random: flags.random,
        per_syllable: flags.per_syllable,
    }
}

/// Sorts lookups by their numbers, and puts those of the same number together, in the first places: how many they are then.
fn merged(lookups: &mut [PlannedLookup]) -> usize
    ensures few { result ≤ length lookups.old }
    ensures is { take result lookups.new ≡ in_order lookups.old }
{
    lookups.sort_unstable_by_key(|lookup| lookup.index);
    put_together(lookups)
}

/// Puts the lookups of the same number together, in the first places: how many they are then. They are in the order of their numbers.
fn put_together(lookups: &mut [PlannedLookup]) -> usize
    ensures few { result ≤ length lookups.old }
    ensures is { IsNonDecreasingBy (λ lookup. lookup.index) lookups.old
        → take result lookups.new ≡ in_order lookups.old }
{
    let mut len = 0;
    for place in 0..lookups.len() {
        len = put_next(lookups, len, place);
    }
    len
}

/// Puts the lookup at a place behind the first ones, or together with the last of these: how many these are then.
#[tactic(auto, using(crate::proofs::MergedLemmas::merges))]
fn put_next(lookups: &mut [PlannedLookup], len: usize, place: usize) -> usize
    requires place { place < length lookups.old }
    requires within { len ≤ place }
    ensures few { result ≤ place + 1 }
    ensures is { (all : List PlannedLookup) → IsNonDecreasingBy (λ lookup. lookup.index) all
        → IsMergedTo all lookups.old len place → IsMergedTo all lookups.new result (place + 1) }
    ensures as_many { length lookups.new ≡ length lookups.old }
{
    let lookup = lookups[place];
    if len == 0 {
        lookups[0] = lookup;
        return 1;
    }
    if lookups[len - 1].index == lookup.index {
        lookups[len - 1].join(&lookup);
        len
    } else {
        lookups[len] = lookup;
        len + 1
    }
}

/// The lookups of substitution, and its stages: one before each pause.
pub(crate) fn gsub_lookups(
    alloc: Global,
    table: &ChosenTable,
    required_stage: usize,
    features: &[PlannedFeature],
    pauses: &[Pause],
) -> Result<(Vec<PlannedLookup>, Vec<Stage>), AllocError>
    ensures few { IfOk result (λ both. vec_len both.0 ≤ 35000) }
    ensures is { IfOk result (λ both. AreStagesOf
        (by_stage table.now (stage_lists table.now required_stage features.now) 35000 0 pauses.now) pauses.now
        both.0.items both.1.items) }
{
    let mut all = Collector::new(alloc);
    let mut stages = Vec::new(alloc);
    for stage in 0..pauses.len() {
        all.merge_stage(table, required_stage, features, stage)?;
        stages.push(Stage {
            end: all.lookups.len(),
            pause: pauses[stage],
        })?;
    }
    let Collector { lookups, .. } = all;
    Ok((lookups, stages))
}

/// The lookups of positioning.
pub(crate) fn gpos_lookups(
    alloc: Global,
    table: &ChosenTable,
    features: &[PlannedFeature],
) -> Result<Vec<PlannedLookup>, AllocError>
    ensures few { IfOk result (λ lookups. vec_len lookups ≤ 35000) }
    ensures is { IfOk result (λ lookups. lookups.items
        ≡ in_order (taken table.now.lists.lookup_count 35000 (positions_list table.now features.now))) }
{
    let mut all = Collector::new(alloc);
    all.add_required(table)?;
    all.add_positions(table, features)?;
    all.merge_from(0);
    let Collector { lookups, .. } = all;
    Ok(lookups)
}
