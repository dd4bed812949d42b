//! The subroutines of charstrings (The Compact Font Format Specification, "Local/Global Subrs INDEXes").

ghost use Rattle.std.specs.Prelude.{◌≡◌};
ghost use Rattle.std.specs.Option.{option_copied};
ghost use Rattle.outline_tables.specs.Subroutines.{bias, subroutine};

use crate::index::{index_count, index_item};

/// The subroutine that a number calls in an INDEX; `None` where there is no such one.
#[tactic(auto, unfolding(crate::specs::Subroutines::subroutine))]
pub fn subroutine(index: &[u8], number: i32) -> Option<&[u8]>
    ensures { option_copied result ≡ subroutine index.now number }
{
    let place = i64::from(number) + i64::from(bias(u32::from(index_count(index))));
    index_item(index, u32::try_from(place).ok()?)
}

/// What is added to the number of a subroutine, so that small numbers reach as many as they can.
pub(crate) fn bias(count: u32) -> u16
    ensures { result ≡ bias count }
{
    if count < 1240 {
        107
    } else if count < 33900 {
        1131
    } else {
        32768
    }
}
