//! A font of a file, which is kept for all command lines in a row that name it.

ghost use Rattle.std.specs.Prelude.{◌≡◌, None, option_map, IfOk, IfSome, OnErr};
ghost use Rattle.font_face.specs.Face.{KeepsItsTables};
ghost use Rattle.shape_kept.specs.Numbered.{numbered_font};
ghost use Rattle.shape_kept.specs.Sizes.{HasPixels, HasSize};

use crate::kept_line::KeptLine;
use font_face::{Face, FaceNames, Variation};
use font_tables::directory::face_count;
use shape_fonts::font_file::FontFile;
use shape_options::options::{FontChoice, Options};
use std::alloc::{AllocError, Global};

/// A font at a size, with the names of its glyphs once they were asked for.
#[derive(Drop)]
pub struct LoadedFont<'f> {
    file: &'f FontFile,
    choice: FontChoice,
    /// The variations that are chosen.
    variations: Vec<Variation>,
    /// The font.
    pub face: Face<'f>,
    /// The names of its glyphs, where they were asked for.
    pub names: Option<FaceNames<'f>>,
    /// What is kept of the last line that was answered.
    pub kept: KeptLine,
}

impl<'f> LoadedFont<'f> {
    /// A font of the file that was read last; `None` where the file has no such font. `Err(AllocError)` where memory
    /// runs out.
    pub fn new(
        alloc: Global,
        file: &'f FontFile,
        choice: FontChoice,
    ) -> Result<Option<Self>, AllocError>
        ensures found { IfOk result (λ found. option_map (λ font. (font.face.tables.file.now, font.face.tables.directory)) found
            ≡ numbered_font file.now.bytes choice.index) }
        ensures keeps { IfOk result (λ found. IfSome found (λ font. KeepsItsTables font.face)) }
        ensures size { IfOk result (λ found. IfSome found (λ font. HasSize choice.size font.face.scale)) }
        ensures pixels { IfOk result (λ found. IfSome found (λ font. HasPixels choice.pixels font.face.scale)) }
    {
        let Some(mut face) = face_of(alloc, file.data(), choice.index)? else {
            return Ok(None);
        };
        set_points(&mut face, choice.points);
        set_size(&mut face, choice.size);
        set_pixels(&mut face, choice.pixels);
        face.set_named_instance(choice.named_instance)?;
        Ok(Some(LoadedFont {
            file,
            choice,
            variations: Vec::new(alloc),
            face,
            names: None,
            kept: KeptLine::new(),
        }))
    }

    /// Whether it is the font that options name, at their size.
    pub fn is_named_by(&self, options: &Options<'_>) -> bool {
        self.file.is_of(options.font_file) && self.choice == options.font
    }

    /// Chooses variations of the font, unless they are those that are chosen. Then the names are to be found anew, with the extents
    /// of glyphs.
    pub fn vary(&mut self, alloc: Global, variations: &[Variation]) -> Result<(), AllocError>
        ensures tables { self.new.face.tables ≡ self.old.face.tables }
        ensures keeps { KeepsItsTables self.old.face → KeepsItsTables self.new.face }
        ensures same { OnErr result (self.new ≡ self.old) }
    {
        if self.variations.as_slice() == variations {
            return Ok(());
        }
        let chosen = Vec::from_slice(alloc, variations)?;
        self.face.set_variations(variations)?;
        self.variations = chosen;
        self.names = None;
        Ok(())
    }
}

/// The names of the glyphs of a font, which are found where they are asked for the first time. The caller puts them back.
pub fn take_names<'f>(
    alloc: Global,
    names: &mut Option<FaceNames<'f>>,
    face: &Face<'f>,
) -> Result<FaceNames<'f>, AllocError>
    ensures { names.new ≡ None }
{
    match names.take() {
        Some(names) => Ok(names),
        None => FaceNames::new(alloc, face),
    }
}

/// The font of this number in a file; `None` where the file has fewer fonts, as a font that is no collection has but one.
fn face_of(alloc: Global, file: &[u8], index: u32) -> Result<Option<Face<'_>>, AllocError>
    ensures found { IfOk result (λ found.
        option_map (λ face. (face.tables.file.now, face.tables.directory)) found ≡ numbered_font file.now index) }
    ensures keeps { IfOk result (λ found. IfSome found KeepsItsTables) }
{
    if index >= face_count(file) {
        return Ok(None);
    }
    Face::parse(alloc, file, index)
}

/// Says how long an em is, where that is said.
fn set_size(face: &mut Face<'_>, size: Option<(i32, i32)>)
    ensures size { HasSize size face.new.scale }
    ensures tables { face.new.tables ≡ face.old.tables }
    ensures keeps { KeepsItsTables face.old → KeepsItsTables face.new }
{
    if let Some((x, y)) = size {
        face.set_scale(x, y);
    }
}

/// Says how many points an em has, where that is said.
fn set_points(face: &mut Face<'_>, points: Option<f32>)
    ensures points { IfSome points (λ p. face.new.points_per_em ≡ p) }
    ensures tables { face.new.tables ≡ face.old.tables }
    ensures keeps { KeepsItsTables face.old → KeepsItsTables face.new }
{
    if let Some(points) = points {
        face.set_points_per_em(points);
    }
}

/// Says how many pixels an em has, where that is said.
fn set_pixels(face: &mut Face<'_>, pixels: Option<(u16, u16)>)
    ensures pixels { HasPixels pixels face.new.scale }
    ensures size { (face.new.scale.x ≡ face.old.scale.x) × (face.new.scale.y ≡ face.old.scale.y) }
    ensures tables { face.new.tables ≡ face.old.tables }
    ensures keeps { KeepsItsTables face.old → KeepsItsTables face.new }
{
    if let Some((x, y)) = pixels {
        face.set_pixels_per_em(x, y);
    }
}
