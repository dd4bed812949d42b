//! Features that a shaper or a user asks for.

ghost use Rattle.std.specs.Prelude.{◌≡◌, ◌||◌, Some, is_some};
ghost use Rattle.ot_map.specs.Requests.{requested, merged, with_index};

use rb_common::Tag;

/// How a feature is applied: HarfBuzz's `hb_ot_map_feature_flags_t`.
#[derive(Clone, Copy, PartialEq, Eq)]
pub struct FeatureFlags {
    /// Every glyph has the feature; where its value is 1, no bit of a mask is kept for it.
    pub is_global: bool,
    /// There is a fallback for a font without the feature, so bits are kept for it in any case.
    pub has_fallback: bool,
    /// A context does not pass over a zero width non-joiner.
    pub manual_zwnj: bool,
    /// An input does not pass over a zero width joiner.
    pub manual_zwj: bool,
    /// A feature that the language system does not have is looked for in all of the feature list.
    pub global_search: bool,
    /// One of the alternates is chosen at random.
    pub random: bool,
    /// A match ends with its syllable.
    pub per_syllable: bool,
}

impl FeatureFlags {
    /// No flag.
    pub const NONE: FeatureFlags = FeatureFlags {
        is_global: false,
        has_fallback: false,
        manual_zwnj: false,
        manual_zwj: false,
        global_search: false,
        random: false,
        per_syllable: false,
    };

    /// Every glyph has the feature.
    pub const GLOBAL: FeatureFlags = FeatureFlags {
        is_global: true,
        ..FeatureFlags::NONE
    };
}

/// A feature that is asked for: all that was asked of one tag.
#[derive(Clone, Copy, PartialEq, Eq)]
pub struct FeatureRequest {
    /// The feature's tag.
    pub tag: Tag,
    /// How it is applied.
    pub flags: FeatureFlags,
    /// The greatest value that a glyph may have.
    pub max_value: u32,
    /// The value of each glyph that none is set for.
    pub default_value: u32,
    /// The stage of substitution in which its lookups are applied.
    pub stage: usize,
    /// The number of the feature in `GSUB`, where it was found.
    pub gsub: Option<u16>,
    /// The number of the feature in `GPOS`, where it was found.
    pub gpos: Option<u16>,
}

impl FeatureRequest {
    /// A request of a value.
    #[tactic(auto, unfolding(crate::specs::Requests::requested))]
    pub fn new(tag: Tag, flags: FeatureFlags, value: u32, stage: usize) -> Self
        ensures { result ≡ requested tag flags value stage }
    {
        FeatureRequest {
            tag,
            flags,
            max_value: value,
            default_value: if flags.is_global { value } else { 0 },
            stage,
            gsub: None,
            gpos: None,
        }
    }

    /// Whether a table has the feature.
    pub fn is_found(&self) -> bool
        ensures { result ≡ is_some self.now.gsub || is_some self.now.gpos }
    {
        self.gsub.is_some() || self.gpos.is_some()
    }

    /// Notes the feature that was found in one of the tables, unless one was before.
    pub(crate) fn note(&mut self, is_gsub: bool, index: u16)
        ensures { self.new ≡ with_index is_gsub (Some index) self.old }
    {
        if is_gsub {
            self.gsub = self.gsub.or(Some(index));
        } else {
            self.gpos = self.gpos.or(Some(index));
        }
    }

    /// Takes in a later request of the same tag. A later one for every glyph takes the place of the values; one for a part of the
    /// text leaves the default as it is.
    #[tactic(auto, unfolding(crate::specs::Requests::merged))]
    pub fn merge(&mut self, later: &FeatureRequest)
        ensures { self.new ≡ merged self.old later.now }
    {
        if later.flags.is_global {
            self.max_value = later.max_value;
            self.default_value = later.default_value;
        } else {
            self.max_value = self.max_value.max(later.max_value);
        }
        self.flags.is_global = later.flags.is_global;
        self.flags.has_fallback = self.flags.has_fallback || later.flags.has_fallback;
        self.stage = self.stage.min(later.stage);
    }
}
