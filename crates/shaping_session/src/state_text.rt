//! What a buffer holds, as a line of text.

ghost use Rattle.std.specs.Prelude.{◌≡◌, ◌++◌, IfOk, OnOk, string_bytes};
ghost use Rattle.shaping_session.specs.StateText.{state_text, head_text, items_text, item_text, space_before};

use rb_glyph::{glyph_flag, hb_glyph_info_t};
use shaping_buffer::hb_buffer_t;
use std::alloc::{AllocError, Global};
use std::fmt::Write;

/// Whether an output is open, the cursor, whether no call was refused, what was put out, and what is left to read.
pub fn print_state(alloc: Global, buffer: &hb_buffer_t) -> Result<String, AllocError>
    ensures { IfOk result (λ text. string_bytes text ≡ state_text buffer.now) }
{
    let head = print_head(alloc, buffer)?;
    let out = print_items(alloc, buffer.out_info())?;
    let input = print_items(alloc, buffer.info())?;
    Ok(format!(in alloc; "{head} out=[{out}] in=[{input}]")?)
}

fn print_head(alloc: Global, buffer: &hb_buffer_t) -> Result<String, AllocError>
    ensures { IfOk result (λ text. string_bytes text ≡ head_text buffer.now) }
{
    let open = u8::from(buffer.have_output());
    let idx = buffer.idx();
    let ok = u8::from(buffer.successful());
    Ok(format!(in alloc; "open={open} idx={idx} ok={ok}")?)
}

/// The glyphs, parted by spaces.
fn print_items(alloc: Global, items: &[hb_glyph_info_t]) -> Result<String, AllocError>
    ensures { IfOk result (λ text. string_bytes text ≡ items_text items.now) }
{
    let mut text = String::new(alloc);
    for (i, item) in items.iter().enumerate() {
        write_space(&mut text, i)?;
        write_item(&mut text, item)?;
    }
    Ok(text)
}

/// What stands before the glyph at a place.
fn write_space(text: &mut String, i: usize) -> Result<(), AllocError>
    ensures { OnOk result (string_bytes text.new ≡ string_bytes text.old ++ space_before i) }
{
    if i > 0 {
        text.push(' ')?;
    }
    Ok(())
}

/// The id of a glyph, its cluster and its glyph flags.
fn write_item(text: &mut String, item: &hb_glyph_info_t) -> Result<(), AllocError>
    ensures { OnOk result (string_bytes text.new ≡ string_bytes text.old ++ item_text item.now) }
{
    let id = item.glyph_id;
    let cluster = item.cluster;
    let flags = item.mask & glyph_flag::DEFINED;
    write!(text, "{id}:{cluster}:{flags}")
}
