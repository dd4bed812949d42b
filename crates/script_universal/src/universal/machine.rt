//! The machine that finds syllables of the universal shaper.

mod table;

use script_syllables::Machine;

/// The machine of the universal shaper, which reads the numbers of a `UniversalCategory`.
pub fn universal_machine() -> Machine<'static> {
    Machine {
        next: &table::NEXT,
        width: table::WIDTH,
        ends: &table::ENDS,
        other: table::OTHER,
    }
}
