//! Items that are moved in front of others. They are put into one cluster before, so that clusters stay in order.

ghost use Rattle.std.specs.Prelude.{◌≡◌, ◌≤◌, true, false, length};
ghost use Rattle.shaping_buffer.specs.ClusterStep as step;
ghost use Rattle.shaping_buffer.specs.ClusterStep.{any_order};
ghost use Rattle.shaping_buffer.specs.KeepsClusters.{KeepsClusters};
ghost use Rattle.script_items.specs.Moves.{moved, IsOneCluster};

use shaping_buffer::{hb_buffer_t, hb_glyph_info_t};

/// Puts the items from `start` to `end` into one cluster, where no output is open.
pub fn merge(buffer: &mut hb_buffer_t, start: usize, end: usize)
    requires closed { buffer.old.have_output ≡ false }
    requires order { start ≤ end }
    requires within { end ≤ length buffer.old.input }
    ensures is { buffer.new ≡ step.merge_clusters start end buffer.old }
    ensures closed { buffer.new.have_output ≡ false }
    ensures length { length buffer.new.input ≡ length buffer.old.input }
    ensures one { IsOneCluster (any_order buffer.new) start end buffer.new.input }
    ensures keeps { KeepsClusters buffer.old buffer.new }
{
    prove!(buffer.out_len() == 0);
    buffer.merge_clusters(start, end);
}

/// Puts the items from `start` to `end` of those that were put out into one cluster.
pub fn merge_out(buffer: &mut hb_buffer_t, start: usize, end: usize)
    requires opened { buffer.old.have_output ≡ true }
    requires order { start ≤ end }
    requires within { end ≤ length buffer.old.out }
    ensures is { buffer.new ≡ step.merge_out_clusters start end buffer.old }
    ensures opened { buffer.new.have_output ≡ true }
    ensures length { length buffer.new.out ≡ length buffer.old.out }
    ensures one { IsOneCluster (any_order buffer.new) start end buffer.new.out }
    ensures keeps { KeepsClusters buffer.old buffer.new }
{
    buffer.merge_out_clusters(start, end);
}

/// Moves the items from `middle` to `end` in front of those from `start` to `middle`.
pub fn move_back(buffer: &mut hb_buffer_t, start: usize, middle: usize, end: usize)
    requires closed { buffer.old.have_output ≡ false }
    requires order { start ≤ middle }
    requires ends { middle ≤ end }
    requires within { end ≤ length buffer.old.input }
    requires one { IsOneCluster (any_order buffer.old) start end buffer.old.input }
    ensures is { buffer.new ≡ record buffer.old { input = moved start middle end buffer.old.input } }
    ensures length { length buffer.new.input ≡ length buffer.old.input }
    ensures closed { buffer.new.have_output ≡ false }
    ensures keeps { KeepsClusters buffer.old buffer.new }
{
    move_items(buffer.info_slice_mut(), start, middle, end);
}

/// Does that with items that were put out.
pub fn move_out_back(buffer: &mut hb_buffer_t, start: usize, middle: usize, end: usize)
    requires opened { buffer.old.have_output ≡ true }
    requires order { start ≤ middle }
    requires ends { middle ≤ end }
    requires within { end ≤ length buffer.old.out }
    requires one { IsOneCluster (any_order buffer.old) start end buffer.old.out }
    ensures is { buffer.new ≡ record buffer.old { out = moved start middle end buffer.old.out } }
    ensures opened { buffer.new.have_output ≡ true }
    ensures keeps { KeepsClusters buffer.old buffer.new }
{
    move_items(buffer.out_info_mut(), start, middle, end);
}

/// Moves the items from `middle` to `end` in front of those from `start` to `middle`.
fn move_items(infos: &mut [hb_glyph_info_t], start: usize, middle: usize, end: usize)
    requires order { start ≤ middle }
    requires ends { middle ≤ end }
    requires within { end ≤ length infos.old }
    ensures { infos.new ≡ moved start middle end infos.old }
{
    infos[start..end].rotate_right(end - middle);
}
