//! The features of a text, collected: HarfBuzz's `hb_ot_map_builder_t`.

ghost use Rattle.std.specs.Prelude.{◌≡◌, ◌≢◌, ◌<◌, ◌≤◌, ◌++◌, ◌∷◌, ◌||◌, [], length, vec_len, map, true, IfOk, IfErr};
ghost use Rattle.font_tables.specs.Bytes.{is_number};
ghost use Rattle.ot_map.specs.Choice.{script_of, system_of};
ghost use Rattle.ot_map.specs.Order.{IsPlaceOf, IsGapFor};
ghost use Rattle.ot_map.specs.Requests.{AreInOrder};
ghost use Rattle.ot_map.specs.Compiled.{IsCompiled, required_stage, stage_asked, stage_of};
ghost use Rattle.ot_map.specs.Features.{found, searched};
ghost use Rattle.ot_map.specs.FeaturesFound.{noted, noted_at};
ghost use Rattle.ot_map.specs.Tables.{list_of, lookup_count, lists_feature, system_feature_count, tag_in_system};

use crate::allocation::{global_mask, planned_features};
use crate::choice::{
    ChosenScript, feature_count, required_feature, select_language, select_script,
};
use crate::plan::{LayoutPlan, Pause};
use crate::request::{FeatureFlags, FeatureRequest};
use crate::stage_lookups::{gpos_lookups, gsub_lookups};
use crate::tables::LayoutTable;
use font_tables::bytes::u16_at;
use rb_common::Tag;
use std::alloc::{AllocError, Global};

/// One of the tables `GSUB` and `GPOS`, with what is chosen of it for a text.
#[derive(Clone, Copy)]
pub struct ChosenTable<'a> {
    /// The lists of the table.
    pub lists: LayoutTable<'a>,
    /// The script.
    pub script: ChosenScript<'a>,
    /// The language system; empty where there is none.
    pub system: &'a [u8],
}

impl<'a> ChosenTable<'a> {
    /// What is chosen of a table for a text with these script tags and these language tags, the best first.
    pub fn new(table: &'a [u8], scripts: &[Tag], languages: &[Tag]) -> Self
        ensures scripts { result.lists.scripts.now ≡ list_of table.now 4 }
        ensures features { result.lists.features.now ≡ list_of table.now 6 }
        ensures lookups { result.lists.lookup_count ≡ lookup_count table.now }
        ensures substitutions { result.lists.substitutions.now ≡ [] }
        ensures script { (result.script.tag.0, result.script.table.now)
            ≡ script_of (list_of table.now 4) (map (λ tag. tag.0) scripts.now) }
        ensures system { result.system.now
            ≡ system_of result.script.table.now (map (λ tag. tag.0) languages.now) }
    {
        let lists = LayoutTable::new(table);
        let script = select_script(lists.scripts, scripts);
        ChosenTable {
            lists,
            script,
            system: select_language(script.table, languages),
        }
    }

    /// The same, where these feature tables stand in the place of others: a FeatureTableSubstitution table, or an empty one.
    pub fn with_substitutions(self, substitutions: &'a [u8]) -> Self
        ensures { result ≡ record self.entry { lists = record self.entry.lists { substitutions = substitutions.entry } } }
    {
        let ChosenTable {
            lists,
            script,
            system,
        } = self;
        let LayoutTable {
            scripts,
            features,
            lookup_count,
            ..
        } = lists;
        ChosenTable {
            lists: LayoutTable {
                scripts,
                features,
                lookup_count,
                substitutions,
            },
            script,
            system,
        }
    }

    /// Whether the language system has a feature with this tag.
    pub fn has_feature(&self, tag: Tag) -> bool
        ensures { result ≡ lists_feature self.now.lists.features.now self.now.system.now tag.0 }
    {
        for place in 0..feature_count(self.system) {
            if self.has_feature_at(place, tag) {
                return true;
            }
        }
        false
    }

    /// Whether the feature that the language system lists in a place has this tag.
    fn has_feature_at(&self, place: usize, tag: Tag) -> bool
        requires { place < 65536 }
        ensures { result
            ≡ is_number (tag_in_system self.now.lists.features.now self.now.system.now place) tag.0 }
    {
        match u16_at(self.system, 6 + 2 * place) {
            Some(index) => match self.lists.feature_tag(index) {
                Some(found) => found.0 == tag.0,
                None => false,
            },
            None => false,
        }
    }
}

/// The features of a text, and the pauses between them.
#[derive(Drop)]
pub struct PlanBuilder<'a> {
    /// What is chosen of the table `GSUB`.
    pub gsub: ChosenTable<'a>,
    /// What is chosen of the table `GPOS`.
    pub gpos: ChosenTable<'a>,
    /// The features that are asked for, each tag once, in the order of their tags.
    pub requests: Vec<FeatureRequest>,
    /// What is done after each stage of substitution but the last.
    pub pauses: Vec<Pause>,
}

impl<'a> PlanBuilder<'a> {
    ghost use Rattle.ot_map.specs.Plan.{IsPlan};
    ghost use Rattle.ot_map.specs.Pauses.{HasSamePauses};
    ghost use Rattle.ot_map.specs.Requests.{every_glyph, requested, with_request};

    /// No features yet.
    pub fn new(alloc: Global, gsub: ChosenTable<'a>, gpos: ChosenTable<'a>) -> Self
        ensures tables { (result.gsub ≡ gsub.entry) × (result.gpos ≡ gpos.entry) }
        ensures empty { (result.requests.items ≡ []) × (result.pauses.items ≡ []) }
    {
        PlanBuilder {
            gsub,
            gpos,
            requests: Vec::new(alloc),
            pauses: Vec::new(alloc),
        }
    }

    /// Whether one of the tables has a feature with this tag.
    pub fn has_feature(&self, tag: Tag) -> bool
        ensures { result ≡ lists_feature self.now.gsub.lists.features.now self.now.gsub.system.now tag.0
            || lists_feature self.now.gpos.lists.features.now self.now.gpos.system.now tag.0 }
    {
        self.gsub.has_feature(tag) || self.gpos.has_feature(tag)
    }

    /// Asks for a feature with a value. What was asked of the tag before is taken in; the null tag is passed over.
    pub fn add_feature(
        &mut self,
        tag: Tag,
        flags: FeatureFlags,
        value: u32,
    ) -> Result<(), AllocError>
        ensures pauses { HasSamePauses self.old self.new }
        ensures null { tag.0 ≡ 0 → self.new.requests.items ≡ self.old.requests.items }
        ensures asked { tag.0 ≢ 0 → AreInOrder self.old.requests.items → IfOk result (λ _. self.new.requests.items
            ≡ with_request (requested tag flags value (vec_len self.old.pauses)) self.old.requests.items) }
        ensures refused { IfErr result (λ _. self.new.requests.items ≡ self.old.requests.items) }
    {
        if tag.is_null() {
            return Ok(());
        }
        let request = FeatureRequest::new(tag, flags, value, self.pauses.len());
        match place_of(self.requests.as_slice(), tag) {
            Ok(place) => {
                let before = &mut self.requests[place];
                before.merge(&request);
            }
            Err(place) => self.requests.insert(place, request)?,
        }
        Ok(())
    }

    /// Asks for a feature of every glyph, with the value 1.
    pub fn enable_feature(&mut self, tag: Tag, flags: FeatureFlags) -> Result<(), AllocError>
        ensures pauses { HasSamePauses self.old self.new }
        ensures null { tag.0 ≡ 0 → self.new.requests.items ≡ self.old.requests.items }
        ensures asked { tag.0 ≢ 0 → AreInOrder self.old.requests.items → IfOk result (λ _. self.new.requests.items
            ≡ with_request (requested tag (record flags { is_global = true }) 1 (vec_len self.old.pauses))
            self.old.requests.items) }
        ensures refused { IfErr result (λ _. self.new.requests.items ≡ self.old.requests.items) }
    {
        let flags = FeatureFlags {
            is_global: true,
            ..flags
        };
        self.add_feature(tag, flags, 1)
    }

    /// Turns a feature off for every glyph.
    pub fn disable_feature(&mut self, tag: Tag) -> Result<(), AllocError>
        ensures pauses { HasSamePauses self.old self.new }
        ensures null { tag.0 ≡ 0 → self.new.requests.items ≡ self.old.requests.items }
        ensures asked { tag.0 ≢ 0 → AreInOrder self.old.requests.items → IfOk result (λ _. self.new.requests.items
            ≡ with_request (requested tag every_glyph 0 (vec_len self.old.pauses)) self.old.requests.items) }
        ensures refused { IfErr result (λ _. self.new.requests.items ≡ self.old.requests.items) }
    {
        self.add_feature(tag, FeatureFlags::GLOBAL, 0)
    }

    /// Ends a stage of substitution: lookups of features that are asked for from here on are applied after those of the features
    /// before, and after the pause.
    pub fn add_gsub_pause(&mut self, pause: Pause) -> Result<(), AllocError>
        ensures pauses { IfOk result (λ _. self.new.pauses.items ≡ self.old.pauses.items ++ (pause ∷ [])) }
        ensures requests { self.new.requests ≡ self.old.requests }
        ensures tables { (self.new.gsub ≡ self.old.gsub) × (self.new.gpos ≡ self.old.gpos) }
    {
        self.pauses.push(pause)?;
        Ok(())
    }

    /// The plan: which lookups are applied in which order, and to which glyphs.
    pub fn compile(self, alloc: Global) -> Result<LayoutPlan, AllocError>
        ensures is { IfOk result IsPlan }
        ensures compiled { AreInOrder self.entry.requests.items → IfOk result (IsCompiled self.entry) }
    {
        let PlanBuilder {
            gsub,
            gpos,
            mut requests,
            mut pauses,
        } = self;
        pauses.push(Pause::Nothing)?;
        let required_stage = required_stage(&gsub, requests.as_slice());
        find_features(&gsub, &gpos, requests.as_mut_slice());
        let features = planned_features(alloc, requests.as_slice())?;
        let (gsub_lookups, stages) = gsub_lookups(
            alloc,
            &gsub,
            required_stage,
            features.as_slice(),
            pauses.as_slice(),
        )?;
        let gpos_lookups = gpos_lookups(alloc, &gpos, features.as_slice())?;
        Ok(LayoutPlan {
            global_mask: global_mask(features.as_slice()),
            gsub_script: gsub.script.tag,
            gpos_script: gpos.script.tag,
            features,
            gsub_lookups,
            stages,
            gpos_lookups,
        })
    }
}

/// The place of the request of a tag, or where it belongs.
fn place_of(requests: &[FeatureRequest], tag: Tag) -> Result<usize, usize>
    ensures found { IfOk result (IsPlaceOf (λ request. request.tag.0) tag.0 requests.now) }
    ensures fits { IfErr result (λ place. place ≤ length requests.now) }
    ensures gap { AreInOrder requests.now → IfErr result (IsGapFor (λ request. request.tag.0) tag.0 requests.now) }
{
    requests.binary_search_by_key(&tag.0, |request| request.tag.0)
}

/// Finds the features of both tables that have the tags of the requests.
fn find_features(gsub: &ChosenTable, gpos: &ChosenTable, requests: &mut [FeatureRequest])
    ensures { AreInOrder requests.old → requests.new ≡ map (found gsub.now gpos.now) requests.old }
{
    find_in_system(gsub, true, requests);
    find_in_system(gpos, false, requests);
    search_lists(gsub, gpos, requests);
}

/// Finds the features that the language system of one of the tables lists.
fn find_in_system(table: &ChosenTable, is_gsub: bool, requests: &mut [FeatureRequest])
    ensures { AreInOrder requests.old
        → requests.new ≡ map (noted table.now is_gsub (system_feature_count table.now.system.now)) requests.old }
{
    for place in 0..feature_count(table.system) {
        note(table, is_gsub, place, requests);
    }
}

/// Notes the feature in a place of a language system at the request of its tag, unless one was found before.
#[tactic(auto, using(crate::proofs::FoundLemmas::notes))]
fn note(table: &ChosenTable, is_gsub: bool, place: usize, requests: &mut [FeatureRequest])
    requires { place < 65536 }
    ensures { AreInOrder requests.old → requests.new ≡ map (noted_at table.now is_gsub place) requests.old }
{
    let Some(index) = u16_at(table.system, 6 + 2 * place) else {
        return;
    };
    let Some(tag) = table.lists.feature_tag(index) else {
        return;
    };
    match place_of(requests, tag) {
        Ok(at) => requests[at].note(is_gsub, index),
        Err(_) => {}
    }
}

/// Searches the lists of both tables for the features that have to be and were not found.
#[tactic(auto, using(crate::proofs::MapLemmas::walks))]
fn search_lists(gsub: &ChosenTable, gpos: &ChosenTable, requests: &mut [FeatureRequest])
    ensures { requests.new ≡ map (searched gsub.now gpos.now) requests.old }
{
    for request in requests.iter_mut() {
        search(gsub, gpos, request);
    }
}

/// Searches for a feature, if it has to be and was not found.
#[tactic(auto, unfolding(crate::specs::Features::searched))]
fn search(gsub: &ChosenTable, gpos: &ChosenTable, request: &mut FeatureRequest)
    ensures { request.new ≡ searched gsub.now gpos.now request.old }
{
    if request.flags.global_search && !request.is_found() {
        request.gsub = gsub.lists.first_feature(request.tag);
        request.gpos = gpos.lists.first_feature(request.tag);
    }
}

/// The stage in which the feature that `GSUB` requires is applied: that of its tag, if it was asked for, or else the first.
fn required_stage(gsub: &ChosenTable, requests: &[FeatureRequest]) -> usize
    ensures { AreInOrder requests.now → result ≡ required_stage gsub.now requests.now }
{
    let Some(index) = required_feature(gsub.system) else {
        return 0;
    };
    let Some(tag) = gsub.lists.feature_tag(index) else {
        return 0;
    };
    stage_of(requests, tag)
}

/// The stage of the request of a tag, if it is not turned off, or else the first.
#[tactic(auto, using(crate::proofs::FoundLemmas::finds))]
fn stage_of(requests: &[FeatureRequest], tag: Tag) -> usize
    ensures { AreInOrder requests.now → result ≡ stage_of requests.now tag.0 }
{
    match place_of(requests, tag) {
        Ok(place) => stage_asked(&requests[place]),
        Err(_) => 0,
    }
}

/// The stage of a request that is not turned off, or else the first.
fn stage_asked(request: &FeatureRequest) -> usize
    ensures { result ≡ stage_asked request.now }
{
    if request.max_value != 0 {
        return request.stage;
    }
    0
}
