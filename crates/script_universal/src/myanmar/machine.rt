//! The machine that finds syllables of Myanmar.

mod table;

use script_syllables::Machine;

/// The machine of Myanmar, which reads the numbers of a `Category`.
pub fn myanmar_machine() -> Machine<'static> {
    Machine {
        next: &table::NEXT,
        width: table::WIDTH,
        ends: &table::ENDS,
        other: table::OTHER,
    }
}
