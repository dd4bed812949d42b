//! Groups of neighbours in a list.

ghost use Rattle.std.specs.Prelude.{◌≡◌, ◌+◌, ◌≤◌, ◌<◌, length};
ghost use Rattle.glyph_lists.specs.Groups as of;

use rb_glyph::hb_glyph_info_t;

/// Puts the items from `start` to `end` into reverse order.
pub fn reverse_range<T>(items: &mut [T], start: usize, end: usize)
    requires order { start ≤ end }
    requires within { end ≤ length items.old }
    ensures { items.new ≡ of.reverse_range start end items.old }
{
    items[start..end].reverse();
}

/// The end of the group that begins at `start`, where `group` says of two neighbours whether they are in one group.
#[tactic(auto, using(crate::proofs::GroupsLemmas::first_group_len_of_last))]
pub fn group_end<F: Fn(&hb_glyph_info_t, &hb_glyph_info_t) -> bool>(
    info: &[hb_glyph_info_t],
    start: usize,
    group: &F,
) -> usize
    requires within { start < length info.now }
    requires callable { F.IsAlwaysCallable group.now }
    ensures after { start + 1 ≤ result }
    ensures until { result ≤ length info.now }
    ensures is { (test : of.Test)
        → ((x y : _) (r : _) → F.post group.now x y r → r ≡ test x.now y.now)
        → result ≡ of.group_end test start info.now }
{
    let mut last = &info[start];
    let mut end = start + 1;
    while end < info.len() {
        let next = &info[end];
        if !group(last, next) {
            break;
        }
        last = next;
        end += 1;
    }
    end
}
