//! Variations of a font: those that it has, and those that are chosen.

ghost use Rattle.std.specs.Prelude.{◌≡◌, [], None, OnOk, OnErr};
ghost use Rattle.font_face.specs.Face.{KeepsItsTables};
ghost use Rattle.font_face.specs.FaceVariations.{AreVariationsOf, DiffersInChoice};

use crate::directory::Directory;
use crate::face::Face;
use font_gvar::GlyphVariations;
use font_outlines::Cff2Table;
use font_variations::user_variations::value_on;
use font_variations::{
    AxisMaps, MetricsVariations, ValueVariations, Variation, VariationAxes, VariationStore,
};
use rb_common::Tag;
use std::alloc::{AllocError, Global};

/// What a font says of its variations, found once, and the place that is chosen in them.
#[derive(Drop)]
pub struct FaceVariations<'a> {
    /// The axes.
    pub axes: VariationAxes<'a>,
    /// How coordinates are moved on the axes.
    pub maps: AxisMaps<'a>,
    /// Variations of advances in horizontal lines, where the font has the table `HVAR`.
    pub horizontal: Option<MetricsVariations<'a>>,
    /// Variations of advances and origins in vertical lines, where the font has the table `VVAR`.
    pub vertical: Option<MetricsVariations<'a>>,
    /// Variations of numbers of the whole font.
    pub values: ValueVariations<'a>,
    /// Variations of outlines of the table `glyf`.
    pub glyphs: GlyphVariations<'a>,
    /// Outlines of the table `CFF2`, where the font has one.
    pub outlines_2: Option<Cff2Table<'a>>,
    /// Deltas of the font's lookups.
    pub store: VariationStore<'a>,
    /// The named instance that is chosen, by its number.
    pub instance: Option<u32>,
    /// The value that is chosen on each axis; none where no variations are chosen.
    pub chosen: Vec<f32>,
    /// The normalized coordinates of these values; none where no variations are chosen.
    pub coordinates: Vec<i32>,
}

impl<'a> FaceVariations<'a> {
    /// What the tables of a font say of its variations, of which none are chosen. `GDEF` is passed apart, since some are not
    /// believed.
    pub(crate) fn new(
        alloc: Global,
        tables: &Directory<'a>,
        gdef: &'a [u8],
        glyph_count: u16,
    ) -> Self
        ensures tables { AreVariationsOf result tables.now.tables gdef.now }
        ensures none { result.coordinates.items ≡ [] }
    {
        FaceVariations {
            axes: VariationAxes::new(tables.table(Tag::from_bytes(b"fvar"))),
            maps: AxisMaps::new(tables.table(Tag::from_bytes(b"avar"))),
            horizontal: MetricsVariations::new(tables.table(Tag::from_bytes(b"HVAR"))),
            vertical: MetricsVariations::new(tables.table(Tag::from_bytes(b"VVAR"))),
            values: ValueVariations::new(tables.table(Tag::from_bytes(b"MVAR"))),
            glyphs: GlyphVariations::new(tables.table(Tag::from_bytes(b"gvar")), glyph_count),
            outlines_2: Cff2Table::parse(tables.table(Tag::from_bytes(b"CFF2")), glyph_count),
            store: VariationStore::of_gdef(gdef),
            instance: None,
            chosen: Vec::new(alloc),
            coordinates: Vec::new(alloc),
        }
    }

    /// Chooses a value on each axis. Nothing is changed where memory runs out.
    fn choose(&mut self, alloc: Global, chosen: Vec<f32>) -> Result<(), AllocError>
        ensures chosen { OnOk result (self.new.chosen ≡ chosen) }
        ensures only { DiffersInChoice self.old self.new }
        ensures same { OnErr result (self.new ≡ self.old) }
    {
        let mut coordinates = normalized(alloc, &self.axes, chosen.as_slice())?;
        self.maps.map_segments(coordinates.as_mut_slice());
        if self.maps.has_second_map() {
            coordinates = mapped_by_all(alloc, &self.maps, coordinates.as_slice())?;
        }
        self.chosen = chosen;
        self.coordinates = coordinates;
        Ok(())
    }

    /// Chooses no variations.
    fn clear(&mut self)
        ensures none { self.new.coordinates.items ≡ [] }
        ensures only { DiffersInChoice self.old self.new }
    {
        self.chosen.clear();
        self.coordinates.clear();
    }
}

impl Face<'_> {
    /// Chooses variations of the font in place of those that were chosen before: the value of each axis that is named, and else
    /// that of the named instance, or the default. A tag of which the font has no axis is passed over. Nothing is changed where
    /// memory runs out. HarfBuzz's name is `hb_font_set_variations`.
    pub fn set_variations(&mut self, variations: &[Variation]) -> Result<(), AllocError>
        ensures none { variations.now ≡ [] → self.old.variations.instance ≡ None
            → self.new.variations.coordinates.items ≡ [] }
        ensures instance { self.new.variations.instance ≡ self.old.variations.instance }
        ensures size { self.new.scale ≡ self.old.scale }
        ensures tables { self.new.tables ≡ self.old.tables }
        ensures kept { KeepsItsTables self.old → KeepsItsTables self.new }
        ensures same { OnErr result (self.new ≡ self.old) }
    {
        let instance = self.variations.instance;
        if variations.is_empty() && instance.is_none() {
            self.variations.clear();
            return Ok(());
        }
        let chosen = chosen_values(self.alloc, &self.variations.axes, instance, variations)?;
        self.variations.choose(self.alloc, chosen)
    }

    /// Chooses the value of one axis, and leaves the others as they are. HarfBuzz's name is `hb_font_set_variation`.
    pub fn set_variation(&mut self, tag: Tag, value: f32) -> Result<(), AllocError>
        ensures instance { self.new.variations.instance ≡ self.old.variations.instance }
        ensures size { self.new.scale ≡ self.old.scale }
        ensures tables { self.new.tables ≡ self.old.tables }
        ensures kept { KeepsItsTables self.old → KeepsItsTables self.new }
        ensures same { OnErr result (self.new ≡ self.old) }
    {
        let variation = Variation { tag, value };
        let mut chosen = if self.variations.chosen.is_empty() {
            let instance = self.variations.instance;
            chosen_values(self.alloc, &self.variations.axes, instance, &[])?
        } else {
            copied(self.alloc, self.variations.chosen.as_slice())?
        };
        set_value(&self.variations.axes, chosen.as_mut_slice(), &variation);
        self.variations.choose(self.alloc, chosen)
    }

    /// Chooses a named instance of the font, by its number, or none, and no other variations (OpenType specification, `fvar`).
    /// A number that the font does not have chooses the defaults. HarfBuzz's name is `hb_font_set_var_named_instance`.
    pub fn set_named_instance(&mut self, instance: Option<u32>) -> Result<(), AllocError>
        ensures none { instance ≡ None → self.new.variations.coordinates.items ≡ [] }
        ensures instance { OnOk result (self.new.variations.instance ≡ instance) }
        ensures size { self.new.scale ≡ self.old.scale }
        ensures tables { self.new.tables ≡ self.old.tables }
        ensures kept { KeepsItsTables self.old → KeepsItsTables self.new }
        ensures same { OnErr result (self.new ≡ self.old) }
    {
        let before = self.variations.instance;
        self.variations.instance = instance;
        match self.set_variations(&[]) {
            Ok(()) => Ok(()),
            Err(error) => {
                self.variations.instance = before;
                Err(error)
            }
        }
    }

    /// The normalized coordinates of the variations that are chosen, in 16384ths, one of each axis; none where no variations
    /// are chosen.
    pub fn coordinates(&self) -> &[i32]
        ensures { result.now ≡ self.now.variations.coordinates.items }
    {
        self.variations.coordinates.as_slice()
    }
}

/// The value of each axis that variations choose.
fn chosen_values(
    alloc: Global,
    axes: &VariationAxes<'_>,
    instance: Option<u32>,
    variations: &[Variation],
) -> Result<Vec<f32>, AllocError> {
    let mut chosen = Vec::new(alloc);
    for number in 0..axes.axis_count {
        let Some(axis) = axes.axis(number) else {
            break;
        };
        chosen.push(value_on(axes, number, &axis, instance, variations))?;
    }
    Ok(chosen)
}

/// The same values once more.
fn copied(alloc: Global, values: &[f32]) -> Result<Vec<f32>, AllocError> {
    let mut copied = Vec::new(alloc);
    for value in values {
        copied.push(*value)?;
    }
    Ok(copied)
}

/// Sets the value of each axis with the tag of a variation.
fn set_value(axes: &VariationAxes<'_>, chosen: &mut [f32], variation: &Variation) {
    let mut number = 0u16;
    for value in chosen.iter_mut() {
        if axes
            .axis(number)
            .is_some_and(|axis| axis.tag == variation.tag)
        {
            *value = variation.value;
        }
        number = number.saturating_add(1);
    }
}

/// The normalized coordinates of the values on all axes.
fn normalized(
    alloc: Global,
    axes: &VariationAxes<'_>,
    chosen: &[f32],
) -> Result<Vec<i32>, AllocError> {
    let mut coordinates = Vec::new(alloc);
    let mut number = 0u16;
    for value in chosen {
        let coordinate = match axes.axis(number) {
            Some(axis) => axis.normalized(*value),
            None => 0,
        };
        coordinates.push(coordinate)?;
        number = number.saturating_add(1);
    }
    Ok(coordinates)
}

/// Coordinates that are moved by all the coordinates together.
fn mapped_by_all(
    alloc: Global,
    maps: &AxisMaps<'_>,
    coordinates: &[i32],
) -> Result<Vec<i32>, AllocError> {
    let mut mapped = Vec::new(alloc);
    let mut axis = 0u16;
    for _ in coordinates {
        mapped.push(maps.mapped_by_all(axis, coordinates))?;
        axis = axis.saturating_add(1);
    }
    Ok(mapped)
}
