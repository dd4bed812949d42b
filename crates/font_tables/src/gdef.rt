//! Classes of glyphs and sets of marks (OpenType specification, "GDEF - Glyph Definition Table").

ghost use Rattle.std.specs.Prelude.{◌≡◌, ◌≢◌, ◌<◌, ◌≤◌, ◌+◌, ◌*◌, ℕ, slice_index, unwrap_or};
ghost use Rattle.font_tables.specs.Bytes.{number_16};
ghost use Rattle.font_tables.specs.Gdef.{subtable, glyph_classes, mark_attachment_classes, mark_glyph_sets, set_in, props};
ghost use Rattle.font_tables.specs.Gdef.{glyph_props};
ghost use Rattle.font_tables.specs.ClassDefinition.{class_of};
ghost use Rattle.font_tables.specs.Run.{value_in};

use crate::bytes::{table_at_16, table_at_32, u16_at};
use crate::class_definition::ClassDefinition;
use crate::coverage::Coverage;
use crate::glyph_ranges::Run;
use rb_common::GlyphId;

/// The glyphs whose properties are found at once.
const FIRST_COUNT: usize = 256;

/// A table `GDEF`, of version 1.
#[derive(Clone, Copy)]
pub struct Gdef<'a> {
    /// The bytes of the table.
    pub table: &'a [u8],
    classes: ClassDefinition<'a>,
    attachments: ClassDefinition<'a>,
    sets: &'a [u8],
    first_props: [u16; FIRST_COUNT],
    ghost firsts: { (glyph : ℕ) → glyph < 256 → slice_index first_props glyph ≡ glyph_props table.now glyph },
    ghost has_classes: { classes.table.now ≡ glyph_classes table.now },
    ghost has_attachments: { attachments.table.now ≡ mark_attachment_classes table.now },
    ghost has_sets: { sets.now ≡ mark_glyph_sets table.now },
}

impl<'a> Gdef<'a> {
    ghost use Rattle.font_tables.specs.Gdef.{has_glyph_classes, glyph_class, mark_attachment_class, mark_glyph_set};
    ghost use Rattle.font_tables.specs.Gdef.{glyph_props};
    ghost use Rattle.font_tables.specs.ClassDefinition.{class_of};

    /// The table `GDEF` in these bytes. One that is empty, or of another version, has each glyph in class 0 and no sets.
    #[tactic(auto, unfolding(crate::specs::Gdef::glyph_props, crate::specs::Gdef::glyph_class, crate::specs::Gdef::mark_attachment_class))]
    pub fn new(table: &'a [u8]) -> Self
        ensures { result.table.now ≡ table.now }
    {
        let classes = ClassDefinition::new(subtable(table, 4));
        let attachments = ClassDefinition::new(subtable(table, 10));
        Gdef {
            table,
            classes,
            attachments,
            sets: mark_glyph_sets(table),
            first_props: first_props(&classes, &attachments),
        }
    }

    /// Whether the table says that it has classes of glyphs. Where it does not, HarfBuzz takes them from the characters.
    #[tactic(auto, unfolding(crate::specs::Gdef::has_glyph_classes))]
    pub fn has_glyph_classes(&self) -> bool
        ensures { result ≡ has_glyph_classes self.now.table.now }
    {
        matches!(u16_at(self.table, 0), Some(1)) && u16_at(self.table, 4).unwrap_or(0) != 0
    }

    /// The class of a glyph: 1 for a base, 2 for a ligature, 3 for a mark, 4 for a component, and 0 where it has none.
    #[tactic(auto, unfolding(crate::specs::Gdef::glyph_class))]
    pub fn glyph_class(&self, glyph: GlyphId) -> u16
        ensures { result ≡ glyph_class self.now.table.now glyph.0 }
    {
        self.classes.class(glyph)
    }

    /// The class by which a lookup with a mark attachment type chooses marks; 0 where a glyph has none.
    #[tactic(auto, unfolding(crate::specs::Gdef::mark_attachment_class))]
    pub fn mark_attachment_class(&self, glyph: GlyphId) -> u16
        ensures { result ≡ mark_attachment_class self.now.table.now glyph.0 }
    {
        self.attachments.class(glyph)
    }

    /// The set of marks that a lookup with a mark filtering set chooses: a glyph is in it where the coverage table covers
    /// it. It is empty where there is no set with this number. Ask for it once for each lookup.
    #[tactic(auto, unfolding(crate::specs::Gdef::mark_glyph_set))]
    pub fn mark_glyph_set(&self, set: u16) -> Coverage<'a>
        ensures { result.table.now ≡ mark_glyph_set self.now.table.now set }
    {
        Coverage::new(set_in(self.sets, set))
    }

    /// HarfBuzz's properties of a glyph, by its class: 2 for a base, 4 for a ligature, 8 for a mark, with the mark's
    /// attachment class in the eight bits above, and else 0.
    #[tactic(auto, unfolding(crate::specs::Gdef::glyph_props, crate::specs::Gdef::glyph_class, crate::specs::Gdef::mark_attachment_class))]
    pub fn glyph_props(&self, glyph: GlyphId) -> u16
        ensures { result ≡ glyph_props self.now.table.now glyph.0 }
    {
        match self.first_props.get(usize::from(glyph.0)) {
            Some(props) => *props,
            None => props_of(&self.classes, &self.attachments, glyph),
        }
    }
}

/// The properties of a glyph, by its class and its attachment class.
fn props_of(classes: &ClassDefinition<'_>, attachments: &ClassDefinition<'_>, glyph: GlyphId) -> u16
    ensures { result ≡ props (class_of classes.now.table.now glyph.0) (class_of attachments.now.table.now glyph.0) }
{
    props_for(classes.class(glyph), attachments, glyph)
}

/// The properties of a glyph of this class. Marks alone have an attachment class.
fn props_for(class: u16, attachments: &ClassDefinition<'_>, glyph: GlyphId) -> u16
    ensures { result ≡ props class (class_of attachments.now.table.now glyph.0) }
{
    match class {
        1 => 2,
        2 => 4,
        3 => 8 + 256 * (attachments.class(glyph) % 256),
        _ => 0,
    }
}

/// The properties of the first glyphs.
fn first_props(
    classes: &ClassDefinition<'_>,
    attachments: &ClassDefinition<'_>,
) -> [u16; FIRST_COUNT]
    ensures { (glyph : ℕ) → glyph < 256 → slice_index result glyph
        ≡ props (class_of classes.now.table.now glyph) (class_of attachments.now.table.now glyph) }
{
    let mut props = [0; FIRST_COUNT];
    let mut glyph = 0;
    while glyph < FIRST_COUNT {
        let run = classes.run_from(GlyphId(glyph as u16));
        let end = FIRST_COUNT.min(run.end as usize);
        if run.value == 3 {
            put_marks(&mut props, glyph, end, &run, attachments);
        } else {
            put_same(&mut props, glyph, end, &run);
        }
        glyph = end;
    }
    props
}

/// Puts the properties of the glyphs of a run of marks, from one glyph to before another, in their places.
#[inline]
fn put_marks(
    props: &mut [u16; FIRST_COUNT],
    start: usize,
    end: usize,
    run: &Run,
    attachments: &ClassDefinition<'_>,
)
    requires { end ≤ 256 }
    ensures before { (glyph : ℕ) → glyph < start → slice_index props.new glyph ≡ slice_index props.old glyph }
    ensures put { (glyph : ℕ) → start ≤ glyph → glyph < end → slice_index props.new glyph
        ≡ Rattle.font_tables.specs.Gdef.props (value_in run.now glyph) (class_of attachments.now.table.now glyph) }
{
    for glyph in start..end {
        let class = run.value_of(glyph as u32);
        props[glyph] = props_for(class, attachments, GlyphId(glyph as u16));
    }
}

/// The same for a run of other glyphs, whose properties do not depend on an attachment class.
#[inline]
fn put_same(props: &mut [u16; FIRST_COUNT], start: usize, end: usize, run: &Run)
    requires within { end ≤ 256 }
    requires unmarked { run.now.value ≢ 3 }
    ensures before { (glyph : ℕ) → glyph < start → slice_index props.new glyph ≡ slice_index props.old glyph }
    ensures put { (glyph attachment : ℕ) → start ≤ glyph → glyph < end → slice_index props.new glyph
        ≡ Rattle.font_tables.specs.Gdef.props (value_in run.now glyph) attachment }
{
    let same = match run.value {
        1 => 2,
        2 => 4,
        _ => 0,
    };
    for glyph in start..end {
        props[glyph] = if run.first <= glyph as u32 { same } else { 0 };
    }
}

/// The subtable that the offset at a place leads to.
fn subtable(gdef: &[u8], at: usize) -> &[u8]
    ensures { result.now ≡ subtable gdef.now at }
{
    if matches!(u16_at(gdef, 0), Some(1)) {
        table_at_16(gdef, at).unwrap_or(&[])
    } else {
        &[]
    }
}

/// The sets of marks.
fn mark_glyph_sets(gdef: &[u8]) -> &[u8]
    ensures { result.now ≡ mark_glyph_sets gdef.now }
{
    if u16_at(gdef, 2).unwrap_or(0) >= 2 {
        subtable(gdef, 12)
    } else {
        &[]
    }
}

/// The coverage table of a set of marks.
fn set_in(sets: &[u8], set: u16) -> &[u8]
    ensures { result.now ≡ set_in sets.now set }
{
    if matches!(u16_at(sets, 0), Some(1)) && set < u16_at(sets, 2).unwrap_or(0) {
        table_at_32(sets, 4 + 4 * usize::from(set)).unwrap_or(&[])
    } else {
        &[]
    }
}
