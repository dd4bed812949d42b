//! The machine that finds syllables of Khmer.

mod table;

use script_syllables::Machine;

/// The machine of Khmer, which reads the numbers of a `Category`.
pub fn khmer_machine() -> Machine<'static> {
    Machine {
        next: &table::NEXT,
        width: table::WIDTH,
        ends: &table::ENDS,
        other: table::OTHER,
    }
}
