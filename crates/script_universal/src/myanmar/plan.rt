//! How a Myanmar text is shaped.

use crate::myanmar::machine::myanmar_machine;
use crate::pauses::ReorderingShaper;
use script_syllables::Machine;

/// How a Myanmar text is shaped, by any font.
#[derive(Clone, Copy, PartialEq, Eq)]
pub struct MyanmarShaper;

impl ReorderingShaper for MyanmarShaper {
    fn machine(&self) -> Machine<'static> {
        myanmar_machine()
    }
}
