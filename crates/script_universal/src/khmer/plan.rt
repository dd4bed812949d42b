//! How a Khmer text is shaped by a font.

use crate::khmer::machine::khmer_machine;
use crate::pauses::ReorderingShaper;
use script_syllables::Machine;

/// How a Khmer text is shaped by a font: the masks of the features that not every glyph has.
#[derive(Clone, Copy, PartialEq, Eq, Default)]
pub struct KhmerPlan {
    /// A coeng and a RO, which stand before the base.
    pub pref: u32,
    /// Forms below the base.
    pub blwf: u32,
    /// Forms above the base.
    pub abvf: u32,
    /// Forms behind the base.
    pub pstf: u32,
    /// What stands behind a coeng and a RO.
    pub cfar: u32,
}

impl ReorderingShaper for KhmerPlan {
    fn machine(&self) -> Machine<'static> {
        khmer_machine()
    }
}
