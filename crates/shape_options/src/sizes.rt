//! One or two numbers, as the sizes of a font are given.

/// The whole parts of one number, for both directions, or of two.
pub(crate) fn sizes(text: &str) -> Option<(i32, i32)> {
    let (first, second) = one_or_two(text);
    Some((whole_part(first)?, whole_part(second)?))
}

/// One text for both, or two with spaces or commas between them.
pub(crate) fn one_or_two(text: &str) -> (&str, &str) {
    let text = text.trim_start_matches(' ');
    match text.find([' ', ',']) {
        Some(end) => {
            let (first, behind) = text.split_at(end);
            (first, behind.trim_start_matches([' ', ',']))
        }
        None => (text, text),
    }
}

/// The whole part of a number, which may have a sign, and digits behind a point.
fn whole_part(text: &str) -> Option<i32> {
    let (whole, fraction) = text.split_once('.').unwrap_or((text, ""));
    if !fraction.bytes().all(|byte| byte.is_ascii_digit()) {
        return None;
    }
    match whole {
        "" | "+" | "-" if !fraction.is_empty() => Some(0),
        whole => whole.parse::<i32>().ok(),
    }
}
