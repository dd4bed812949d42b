//! The machine that finds syllables of Indic scripts.

mod table;

use script_syllables::Machine;

/// The machine of Indic scripts, which reads the numbers of a `Category`.
pub fn indic_machine() -> Machine<'static> {
    Machine {
        next: &table::NEXT,
        width: table::WIDTH,
        ends: &table::ENDS,
        other: table::OTHER,
    }
}
