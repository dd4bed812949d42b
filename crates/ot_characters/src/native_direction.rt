//! The direction in which a text is shaped (HarfBuzz, `hb_ensure_native_direction`).

ghost use Rattle.std.specs.Prelude.{◌≡◌};
ghost use Rattle.ot_characters.specs.NativeDirection as ways;

use crate::numbers::are_numbers;
use shaping_buffer::{Direction, hb_buffer_t};

/// Whether the text runs against its script. Vertical lines are shaped from top to bottom.
#[tactic(auto, unfolding(crate::specs::NativeDirection::runs_against))]
pub(crate) fn runs_against(buffer: &hb_buffer_t) -> bool
    ensures { result ≡ ways.runs_against buffer.now }
{
    let direction = buffer.direction;
    if direction.is_horizontal() {
        is_other(native_direction(buffer), direction)
    } else {
        !is_top_to_bottom(direction)
    }
}

/// The direction in which the script runs, if it has one: numbers in a script that runs from right to left run from
/// left to right, and so does a text of no script.
fn native_direction(buffer: &hb_buffer_t) -> Option<Direction>
    ensures { result ≡ ways.native_direction buffer.now }
{
    if is_against_script(buffer) && are_numbers(buffer.info()) {
        return Some(Direction::LeftToRight);
    }
    script_direction(buffer)
}

/// Whether the line runs from left to right, and the script from right to left.
pub(crate) fn is_against_script(buffer: &hb_buffer_t) -> bool
    ensures { result ≡ ways.is_against_script buffer.now }
{
    is_left_to_right(buffer.direction) && runs_left(script_direction(buffer))
}

/// The direction in which the script of a text runs; from left to right where it has none.
fn script_direction(buffer: &hb_buffer_t) -> Option<Direction>
    ensures { result ≡ ways.script_direction buffer.now.script }
{
    match buffer.script {
        Some(script) => Direction::from_script(script),
        None => Some(Direction::LeftToRight),
    }
}

/// Whether a script is written from right to left.
fn runs_left(own: Option<Direction>) -> bool
    ensures { result ≡ ways.runs_left own }
{
    match own {
        Some(own) => is_right_to_left(own),
        None => false,
    }
}

/// Whether a horizontal line runs the other way than its script.
fn is_other(own: Option<Direction>, line: Direction) -> bool
    ensures { result ≡ ways.is_other own line }
{
    match own {
        Some(own) => differs(own, line),
        None => false,
    }
}

/// Whether these are the two ways along a horizontal line.
fn differs(own: Direction, line: Direction) -> bool
    ensures { result ≡ ways.differs own line }
{
    match own {
        Direction::LeftToRight => is_right_to_left(line),
        Direction::RightToLeft => is_left_to_right(line),
        Direction::Invalid | Direction::TopToBottom | Direction::BottomToTop => false,
    }
}

/// Whether a line runs from left to right.
fn is_left_to_right(direction: Direction) -> bool
    ensures { result ≡ ways.is_left_to_right direction }
{
    matches!(direction, Direction::LeftToRight)
}

/// Whether a line runs from right to left.
fn is_right_to_left(direction: Direction) -> bool
    ensures { result ≡ ways.is_right_to_left direction }
{
    matches!(direction, Direction::RightToLeft)
}

/// Whether a line runs down.
fn is_top_to_bottom(direction: Direction) -> bool
    ensures { result ≡ ways.is_top_to_bottom direction }
{
    matches!(direction, Direction::TopToBottom)
}
