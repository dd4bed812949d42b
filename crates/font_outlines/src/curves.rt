//! The operators of charstrings that draw (The Type 2 Charstring Format, "Path Construction Operators").
//!
//! Each takes the numbers before it, in 65,536ths of a font unit. Numbers that make no whole line or curve do nothing.
#![tactic(auto, using(outline_tables::proofs::SignedLemmas::signed))]

ghost use Rattle.std.specs.Prelude.{◌≡◌, ◌+◌, ◌-◌, ◌/◌, ◌%◌, ◌<◌, length, option_map};
ghost use Rattle.font_outlines.specs.Charstring.{across_first, across_last, alternating_curves, alternating_lines, curve_at, curves, curves_and_line, drawn_by, flex, flex_1, horizontal_flex, horizontal_flex_1, last_of_flex_1, lines, lines_and_curve, number, pair, parallel_curves, turned};

use crate::path::{Path, Point};

/// An operator of one byte that draws. One that is unknown does nothing.
#[tactic(auto, using(outline_tables::proofs::SignedLemmas::signed), unfolding(crate::specs::Charstring::drawn_by))]
pub(crate) fn draw_by(path: &mut Path, operator: u8, numbers: &[i32])
    ensures { path.new ≡ drawn_by operator path.old numbers.now }
{
    match operator {
        5 => lines(path, numbers),
        6 => alternating_lines(path, numbers, true),
        7 => alternating_lines(path, numbers, false),
        8 => curves(path, numbers),
        24 => curves_and_line(path, numbers),
        25 => lines_and_curve(path, numbers),
        26 => parallel_curves(path, numbers, false),
        27 => parallel_curves(path, numbers, true),
        30 => alternating_curves(path, numbers, false),
        31 => alternating_curves(path, numbers, true),
        _ => {}
    }
}

/// `rlineto`: lines.
#[tactic(auto, using(outline_tables::proofs::SignedLemmas::signed), unfolding(crate::specs::Charstring::lines))]
fn lines(path: &mut Path, numbers: &[i32])
    ensures { path.new ≡ lines path.old numbers.now (length numbers.now / 2) }
{
    for line in 0..numbers.len() / 2 {
        path.line_by(pair(numbers, 2 * line));
    }
}

/// `hlineto` and `vlineto`: lines that are horizontal and vertical in turn.
#[tactic(auto, using(outline_tables::proofs::SignedLemmas::signed), unfolding(crate::specs::Charstring::alternating_lines))]
fn alternating_lines(path: &mut Path, numbers: &[i32], is_horizontal: bool)
    ensures { path.new ≡ alternating_lines is_horizontal path.old numbers.now (length numbers.now) }
{
    let mut is_horizontal = is_horizontal;
    for &number in numbers {
        path.line_by(turned(is_horizontal, i64::from(number), 0));
        is_horizontal = !is_horizontal;
    }
}

/// `rrcurveto`: curves.
#[tactic(auto, using(outline_tables::proofs::SignedLemmas::signed), unfolding(crate::specs::Charstring::curves))]
fn curves(path: &mut Path, numbers: &[i32])
    ensures { path.new ≡ curves path.old numbers.now (length numbers.now / 6) }
{
    for curve in 0..numbers.len() / 6 {
        draw_curve(path, numbers, 6 * curve);
    }
}

/// `rcurveline`: curves, and a line.
#[tactic(auto, using(outline_tables::proofs::SignedLemmas::signed), unfolding(crate::specs::Charstring::curves))]
fn curves_and_line(path: &mut Path, numbers: &[i32])
    ensures { path.new ≡ curves_and_line path.old numbers.now }
{
    if numbers.len() < 8 {
        return;
    }
    let count = (numbers.len() - 2) / 6;
    for curve in 0..count {
        draw_curve(path, numbers, 6 * curve);
    }
    path.line_by(pair(numbers, 6 * count));
}

/// `rlinecurve`: lines, and a curve.
#[tactic(auto, using(outline_tables::proofs::SignedLemmas::signed), unfolding(crate::specs::Charstring::lines))]
fn lines_and_curve(path: &mut Path, numbers: &[i32])
    ensures { path.new ≡ lines_and_curve path.old numbers.now }
{
    if numbers.len() < 8 {
        return;
    }
    let count = (numbers.len() - 6) / 2;
    for line in 0..count {
        path.line_by(pair(numbers, 2 * line));
    }
    draw_curve(path, numbers, 2 * count);
}

/// `hhcurveto` and `vvcurveto`: curves that begin and end in one direction, with a number before them for how far the
/// first one begins across it.
#[tactic(auto, using(outline_tables::proofs::SignedLemmas::signed), unfolding(crate::specs::Charstring::parallel_curves))]
fn parallel_curves(path: &mut Path, numbers: &[i32], is_horizontal: bool)
    ensures { path.new ≡ parallel_curves is_horizontal path.old numbers.now ((length numbers.now - length numbers.now % 2) / 4) }
{
    let start = numbers.len() % 2;
    for curve in 0..(numbers.len() - start) / 4 {
        let place = start + 4 * curve;
        path.curve_by(
            turned(
                is_horizontal,
                number(numbers, place),
                across_first(numbers, curve),
            ),
            pair(numbers, place + 1),
            turned(is_horizontal, number(numbers, place + 3), 0),
        );
    }
}

/// How far a curve of `hhcurveto` begins across its direction: by a number before all where it is the first.
fn across_first(numbers: &[i32], curve: usize) -> i64
    ensures { result ≡ across_first numbers.now curve }
{
    if numbers.len() % 2 == 1 && curve == 0 {
        number(numbers, 0)
    } else {
        0
    }
}

/// `hvcurveto` and `vhcurveto`: curves that begin and end in different directions, of which each goes on as the one before
/// it ended, with a number behind them for how far the last one ends across its direction.
#[tactic(auto, using(outline_tables::proofs::SignedLemmas::signed), unfolding(crate::specs::Charstring::alternating_curves))]
fn alternating_curves(path: &mut Path, numbers: &[i32], is_horizontal: bool)
    ensures { path.new ≡ alternating_curves is_horizontal path.old numbers.now (length numbers.now / 4) }
{
    let mut is_horizontal = is_horizontal;
    for curve in 0..numbers.len() / 4 {
        let place = 4 * curve;
        path.curve_by(
            turned(is_horizontal, number(numbers, place), 0),
            pair(numbers, place + 1),
            turned(
                !is_horizontal,
                number(numbers, place + 3),
                across_last(numbers, curve),
            ),
        );
        is_horizontal = !is_horizontal;
    }
}

/// How far a curve of `hvcurveto` ends across its direction: by a number behind all where it is the last.
fn across_last(numbers: &[i32], curve: usize) -> i64
    requires { curve < length numbers.now / 4 }
    ensures { result ≡ across_last numbers.now curve }
{
    let count = numbers.len() / 4;
    let has_last = 4 * count < numbers.len() && (count % 2 == 1 || numbers.len() % 2 == 1);
    if curve + 1 == count && has_last {
        number(numbers, 4 * curve + 4)
    } else {
        0
    }
}

/// `flex`: two curves. `None` where there are not thirteen numbers, of which the last says how flat the curves may be drawn.
pub(crate) fn flex(path: &mut Path, numbers: &[i32]) -> Option<()>
    ensures { option_map (λ _. path.new) result ≡ flex path.old numbers.now }
{
    if numbers.len() != 13 {
        return None;
    }
    draw_curve(path, numbers, 0);
    draw_curve(path, numbers, 6);
    Some(())
}

/// `hflex`: two curves that begin and end at one height, and meet in a horizontal line. `None` where there are not seven
/// numbers.
pub(crate) fn horizontal_flex(path: &mut Path, numbers: &[i32]) -> Option<()>
    ensures { option_map (λ _. path.new) result ≡ horizontal_flex path.old numbers.now }
{
    if numbers.len() != 7 {
        return None;
    }
    let middle = pair(numbers, 1);
    path.curve_by(
        turned(true, number(numbers, 0), 0),
        middle,
        turned(true, number(numbers, 3), 0),
    );
    let back = Point {
        x: number(numbers, 5),
        y: middle.y.saturating_neg(),
    };
    path.curve_by(
        turned(true, number(numbers, 4), 0),
        back,
        turned(true, number(numbers, 6), 0),
    );
    Some(())
}

/// `hflex1`: two curves that begin and end at one height. `None` where there are not nine numbers.
pub(crate) fn horizontal_flex_1(path: &mut Path, numbers: &[i32]) -> Option<()>
    ensures { option_map (λ _. path.new) result ≡ horizontal_flex_1 path.old numbers.now }
{
    if numbers.len() != 9 {
        return None;
    }
    let start = path.point;
    path.curve_by(
        pair(numbers, 0),
        pair(numbers, 2),
        turned(true, number(numbers, 4), 0),
    );
    let (first, second) = (turned(true, number(numbers, 5), 0), pair(numbers, 6));
    let height = start.to(path.point.moved(first).moved(second)).y;
    path.curve_by(
        first,
        second,
        turned(true, number(numbers, 8), height.saturating_neg()),
    );
    Some(())
}

/// `flex1`: two curves that begin and end at one height, or one above the other. `None` where there are not eleven numbers.
pub(crate) fn flex_1(path: &mut Path, numbers: &[i32]) -> Option<()>
    ensures { option_map (λ _. path.new) result ≡ flex_1 path.old numbers.now }
{
    if numbers.len() != 11 {
        return None;
    }
    let start = path.point;
    draw_curve(path, numbers, 0);
    let (first, second) = (pair(numbers, 6), pair(numbers, 8));
    let far = start.to(path.point.moved(first).moved(second));
    let last = number(numbers, 10);
    path.curve_by(first, second, last_of_flex_1(far, last));
    Some(())
}

/// How the second curve of `flex1` ends, which has come so far from the start.
fn last_of_flex_1(far: Point, last: i64) -> Point
    ensures { result ≡ last_of_flex_1 far last }
{
    if far.x.unsigned_abs() > far.y.unsigned_abs() {
        turned(true, last, far.y.saturating_neg())
    } else {
        turned(false, last, far.x.saturating_neg())
    }
}

/// Draws the curve of the six numbers from a place on.
fn draw_curve(path: &mut Path, numbers: &[i32], place: usize)
    requires { place + 5 < length numbers.now }
    ensures { path.new ≡ curve_at path.old numbers.now place }
{
    path.curve_by(
        pair(numbers, place),
        pair(numbers, place + 2),
        pair(numbers, place + 4),
    );
}

/// A number.
fn number(numbers: &[i32], place: usize) -> i64
    requires { place < length numbers.now }
    ensures { result ≡ number numbers.now place }
{
    i64::from(numbers[place])
}

/// Two numbers in a row, as a distance.
fn pair(numbers: &[i32], place: usize) -> Point
    requires { place + 1 < length numbers.now }
    ensures { result ≡ pair numbers.now place }
{
    Point {
        x: i64::from(numbers[place]),
        y: i64::from(numbers[place + 1]),
    }
}

/// A distance along a direction and across it.
fn turned(is_horizontal: bool, along: i64, across: i64) -> Point
    ensures { result ≡ turned is_horizontal along across }
{
    if is_horizontal {
        Point {
            x: along,
            y: across,
        }
    } else {
        Point {
            x: across,
            y: along,
        }
    }
}
