//! Writes through a buffer's references and public fields: each lands at its one place, and nothing else changes.

ghost use Rattle.std.specs.Prelude.{◌≡◌, ◌<◌, false, length, IsSome, None, Some};
ghost use Rattle.shaping_buffer.specs.State.{lookahead_len, len};
ghost use Rattle.buffer_tests.specs.References.{mask_in_out, mask_in_out_twice, mask_in_input};
ghost use Rattle.buffer_tests.specs.References.{mask_of_last, mask_ahead, advance_in_positions};

use shaping_buffer::hb_buffer_t;

/// Writes a mask on the out side.
pub fn mask_out(buffer: &mut hb_buffer_t, i: usize)
    requires { i < length buffer.old.out }
    ensures { buffer.new ≡ mask_in_out i buffer.old }
{
    buffer.out_info_mut()[i].mask = 5;
}

/// Writes two masks on the out side through one reference.
pub fn mask_two_out(buffer: &mut hb_buffer_t, i: usize, j: usize)
    requires first { i < length buffer.old.out }
    requires second { j < length buffer.old.out }
    ensures { buffer.new ≡ mask_in_out_twice i j buffer.old }
{
    let out = buffer.out_info_mut();
    out[i].mask = 5;
    out[j].mask = 5;
}

/// Writes a mask in the list.
pub fn write_mask_in_list(buffer: &mut hb_buffer_t, i: usize)
    requires closed { buffer.old.have_output ≡ false }
    requires within { i < length buffer.old.input }
    ensures { buffer.new ≡ mask_in_input i buffer.old }
{
    buffer.info_slice_mut()[i].mask = 5;
}

/// Writes the mask of the last glyph that was put out.
pub fn mask_last(buffer: &mut hb_buffer_t)
    requires { 0 < length buffer.old.out }
    ensures { buffer.new ≡ mask_of_last buffer.old }
{
    buffer.prev_mut().mask = 5;
}

/// Writes the mask of a glyph at the cursor or after it.
pub fn mask_next(buffer: &mut hb_buffer_t, k: usize)
    requires { k < lookahead_len buffer.old }
    ensures { buffer.new ≡ mask_ahead k buffer.old }
{
    buffer.cur_mut(k).mask = 5;
}

/// Writes the advance of the glyph at the cursor.
pub fn advance_here(buffer: &mut hb_buffer_t)
    requires placed { IsSome buffer.old.positions }
    requires glyph { 0 < lookahead_len buffer.old }
    ensures { buffer.new ≡ advance_in_positions buffer.old.idx buffer.old }
{
    buffer.cur_pos_mut().x_advance = 5;
}

/// Writes the advance of a glyph by its place.
pub fn advance_at(buffer: &mut hb_buffer_t, i: usize)
    requires placed { IsSome buffer.old.positions }
    requires within { i < len buffer.old }
    ensures { buffer.new ≡ advance_in_positions i buffer.old }
{
    buffer.pos_mut()[i].x_advance = 5;
}

/// Sets a public field.
pub fn set_level(buffer: &mut hb_buffer_t)
    ensures { buffer.new ≡ record buffer.old { cluster_level = 2 } }
{
    buffer.cluster_level = 2;
}

/// Sets some more.
pub fn forget_what_was_said(buffer: &mut hb_buffer_t)
    ensures { buffer.new ≡ record buffer.old {
      script = None;
      language = None;
      not_found_variation_selector = Some 7;
    } }
{
    buffer.script = None;
    buffer.language = None;
    buffer.not_found_variation_selector = Some(7);
}
