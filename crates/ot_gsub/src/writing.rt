//! What lookups write besides the glyphs themselves: properties of glyphs that are left to read, and what is said of the
//! buffer. No cluster changes by it.

ghost use Rattle.std.specs.Prelude.{◌≡◌, ◌<◌, true, length};
ghost use Rattle.ot_gsub.specs.Changes.{glyph_numbers};
ghost use Rattle.ot_gsub.specs.Writing as writing;
ghost use Rattle.shaping_buffer.specs.ClusterStep.{any_order};
ghost use Rattle.shaping_buffer.specs.KeepsClusters.{KeepsClusters};

use rb_glyph::{glyph_flag, hb_glyph_info_t};
use shaping_buffer::cluster_level::{
    HB_BUFFER_CLUSTER_LEVEL_CHARACTERS, HB_BUFFER_CLUSTER_LEVEL_GRAPHEMES,
};
use shaping_buffer::hb_buffer_t;

/// The glyph so many places ahead of the cursor.
pub(crate) fn glyph_ahead(buffer: &hb_buffer_t, ahead: usize) -> hb_glyph_info_t
    requires opened { buffer.now.have_output ≡ true }
    requires glyph { ahead < length buffer.now.input }
    ensures { result ≡ writing.glyph_ahead ahead buffer.now }
{
    *buffer.cur(ahead)
}

/// Writes the properties of a glyph so many places ahead of the cursor: the words `var1` and `var2`.
pub(crate) fn write_properties(buffer: &mut hb_buffer_t, ahead: usize, glyph: &hb_glyph_info_t)
    requires opened { buffer.old.have_output ≡ true }
    requires glyph { ahead < length buffer.old.input }
    ensures is { buffer.new ≡ writing.write_properties ahead glyph.now buffer.old }
    ensures opened { buffer.new.have_output ≡ true }
    ensures same_length { length buffer.new.input ≡ length buffer.old.input }
    ensures same_place { buffer.new.idx ≡ buffer.old.idx }
    ensures same_out { length buffer.new.out ≡ length buffer.old.out }
    ensures keeps { KeepsClusters buffer.old buffer.new }
{
    let written = buffer.cur_mut(ahead);
    written.var1 = glyph.var1;
    written.var2 = glyph.var2;
}

/// Says that shaping met a limit.
pub(crate) fn fail(buffer: &mut hb_buffer_t)
    ensures is { buffer.new ≡ record buffer.old { shaping_failed = true } }
    ensures says { buffer.new.shaping_failed ≡ true }
    ensures same_output { buffer.new.have_output ≡ buffer.old.have_output }
    ensures same_length { length buffer.new.input ≡ length buffer.old.input }
    ensures numbers { glyph_numbers buffer.new ≡ glyph_numbers buffer.old }
    ensures keeps { KeepsClusters buffer.old buffer.new }
{
    buffer.shaping_failed = true;
}

/// Hands the glyph flags of the current glyph, which is to go, to the glyph before it, or else the one behind it, that is left
/// in its cluster: where a break was unsafe it stays so.
pub(crate) fn hand_on(buffer: &mut hb_buffer_t)
    requires opened { buffer.old.have_output ≡ true }
    requires glyph { 0 < length buffer.old.input }
    ensures is { buffer.new ≡ writing.hand_on buffer.old }
    ensures opened { buffer.new.have_output ≡ true }
    ensures same_length { length buffer.new.input ≡ length buffer.old.input }
    ensures same_out { length buffer.new.out ≡ length buffer.old.out }
    ensures keeps { KeepsClusters buffer.old buffer.new }
{
    let flags = glyph_ahead(buffer, 0).mask & glyph_flag::DEFINED;
    if has_twin_before(buffer) {
        if flags & glyph_flag::UNSAFE_TO_BREAK != 0 {
            hand_back(buffer, flags);
        }
    } else if has_twin_behind(buffer) {
        hand_ahead(buffer, flags);
    }
}

/// Adds glyph flags to those of the last glyph that was put out.
fn hand_back(buffer: &mut hb_buffer_t, flags: u32)
    requires opened { buffer.old.have_output ≡ true }
    requires before { 0 < length buffer.old.out }
    ensures is { buffer.new ≡ writing.hand_back flags buffer.old }
    ensures opened { buffer.new.have_output ≡ true }
    ensures same_length { length buffer.new.input ≡ length buffer.old.input }
    ensures same_out { length buffer.new.out ≡ length buffer.old.out }
    ensures keeps { KeepsClusters buffer.old buffer.new }
{
    let taker = buffer.prev_mut();
    taker.mask = taker.mask | flags;
}

/// Adds glyph flags to those of the next glyph.
fn hand_ahead(buffer: &mut hb_buffer_t, flags: u32)
    requires opened { buffer.old.have_output ≡ true }
    requires behind { 1 < length buffer.old.input }
    ensures is { buffer.new ≡ writing.hand_ahead flags buffer.old }
    ensures opened { buffer.new.have_output ≡ true }
    ensures same_length { length buffer.new.input ≡ length buffer.old.input }
    ensures same_out { length buffer.new.out ≡ length buffer.old.out }
    ensures keeps { KeepsClusters buffer.old buffer.new }
{
    let taker = buffer.cur_mut(1);
    taker.mask = taker.mask | flags;
}

/// Drops the current glyph, for which the last glyph that was put out stands: it is in the same cluster, unless clusters may
/// stand in any order. Were it in another, that would go to a neighbour.
pub(crate) fn drop_behind(buffer: &mut hb_buffer_t)
    requires opened { buffer.old.have_output ≡ true }
    requires glyph { 0 < length buffer.old.input }
    ensures is { buffer.new ≡ writing.drop_behind buffer.old }
    ensures opened { buffer.new.have_output ≡ true }
    ensures same_out { length buffer.new.out ≡ length buffer.old.out }
    ensures keeps { KeepsClusters buffer.old buffer.new }
{
    if has_twin_before(buffer) {
        buffer.skip_glyph();
    } else if may_stand_in_any_order(buffer) {
        buffer.skip_glyph();
    } else {
        buffer.delete_glyph();
    }
}

/// Whether the last glyph that was put out is in the cluster of the current one.
fn has_twin_before(buffer: &hb_buffer_t) -> bool
    requires opened { buffer.now.have_output ≡ true }
    requires glyph { 0 < length buffer.now.input }
    ensures { result ≡ writing.has_twin_before buffer.now }
{
    if buffer.out_len() == 0 {
        return false;
    }
    buffer.prev().cluster == glyph_ahead(buffer, 0).cluster
}

/// Whether the next glyph is in the cluster of the current one.
fn has_twin_behind(buffer: &hb_buffer_t) -> bool
    requires opened { buffer.now.have_output ≡ true }
    requires glyph { 0 < length buffer.now.input }
    ensures { result ≡ writing.has_twin_behind buffer.now }
{
    if buffer.info().len() < 2 {
        return false;
    }
    let next = glyph_ahead(buffer, 1);
    let current = glyph_ahead(buffer, 0);
    next.cluster == current.cluster
}

/// Whether the cluster of the current glyph goes to glyphs before it when it is deleted, though clusters may stand in any order.
pub(crate) fn gives_cluster(buffer: &hb_buffer_t) -> bool
    requires opened { buffer.now.have_output ≡ true }
    requires glyph { 0 < length buffer.now.input }
    ensures { result ≡ writing.gives_cluster buffer.now }
{
    if !may_stand_in_any_order(buffer) || has_twin_behind(buffer) || buffer.out_len() == 0 {
        return false;
    }
    glyph_ahead(buffer, 0).cluster < buffer.prev().cluster
}

/// Whether clusters may stand in any order.
fn may_stand_in_any_order(buffer: &hb_buffer_t) -> bool
    ensures { result ≡ any_order buffer.now }
{
    buffer.cluster_level == HB_BUFFER_CLUSTER_LEVEL_CHARACTERS
        || buffer.cluster_level == HB_BUFFER_CLUSTER_LEVEL_GRAPHEMES
}
