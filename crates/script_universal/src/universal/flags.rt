//! Joined syllables that may not be parted: a lookup is for one of their glyphs in the form that it has, and not in the one that it
//! would have in a part of the text, or the other way about.

ghost use Rattle.std.specs.Prelude.{◌≡◌, ◌&&◌, false, nat_le};
ghost use Rattle.shaping_passes.specs.Left.{StaysClosed};
ghost use Rattle.script_universal.specs.Masks as forms;

use crate::universal::masks::{in_form, joins};
use crate::universal::plan::FormMasks;
use script_syllables::syllables::{kind_at, syllable};
use shaping_buffer::{hb_buffer_t, hb_glyph_info_t};

/// A lookup that a form may have.
pub trait FormLookup {
    /// Whether the lookup is for a glyph, and is so with only one of the masks: the glyph's own, and another.
    fn is_parted(&self, glyph: &hb_glyph_info_t, other: u32) -> bool;
}

/// A syllable that joins the one before it, or begins a word.
#[derive(Clone, Copy)]
struct Joined {
    /// Where it begins.
    start: usize,
    /// Where it ends.
    end: usize,
    /// Whether it begins a word.
    is_first: bool,
}

/// Flags joined syllables as unsafe to break where a lookup hangs on the form of one of them that a break between them changes.
pub fn flag_forms<L: FormLookup>(buffer: &mut hb_buffer_t, masks: &FormMasks, lookup: &L)
    requires { buffer.old.have_output ≡ false }
    ensures { StaysClosed buffer.old buffer.new }
{
    flag_parted(
        buffer,
        masks,
        &|glyph, other| lookup.is_parted(glyph, other),
    );
}

/// Does that, by what is asked of a lookup.
#[tactic(auto, using(shaping_buffer::proofs::ClosedKeepsLemmas::kept))]
fn flag_parted<F: Fn(&hb_glyph_info_t, u32) -> bool>(
    buffer: &mut hb_buffer_t,
    masks: &FormMasks,
    is_parted: &F,
)
    requires closed { buffer.old.have_output ≡ false }
    requires callable { F.IsAlwaysCallable is_parted.now }
    ensures is { (test : forms.Test) → ((g : _) (m : _) (r : _) → F.post is_parted.now g m r → r ≡ test g.now m)
        → buffer.new ≡ forms.flagged test masks.now buffer.old }
    ensures stays { StaysClosed buffer.old buffer.new }
{
    let mut last = None;
    let mut start = 0;
    for _turn in 0..buffer.len() {
        if start >= buffer.len() {
            return;
        }
        let end = buffer.next_syllable(start);
        let joined = joined_at(buffer.info(), start, end, last);
        flag_joined(buffer, masks, is_parted, last, joined);
        last = joined;
        start = end;
    }
}

/// The syllable between these places behind another one, if it joins.
fn joined_at(
    infos: &[hb_glyph_info_t],
    start: usize,
    end: usize,
    last: Option<Joined>,
) -> Option<Joined>
    ensures { result ≡ forms.joined_at infos.now start end last }
{
    if joins(kind_at(infos, start)) {
        Some(Joined {
            start,
            end,
            is_first: last.is_none(),
        })
    } else {
        None
    }
}

/// Flags two syllables, if both join and a break between them changes what the lookup is for.
fn flag_joined<F: Fn(&hb_glyph_info_t, u32) -> bool>(
    buffer: &mut hb_buffer_t,
    masks: &FormMasks,
    is_parted: &F,
    last: Option<Joined>,
    own: Option<Joined>,
)
    requires closed { buffer.old.have_output ≡ false }
    requires callable { F.IsAlwaysCallable is_parted.now }
    ensures is { (test : forms.Test) → ((g : _) (m : _) (r : _) → F.post is_parted.now g m r → r ≡ test g.now m)
        → buffer.new ≡ forms.flag_joined test masks.now last own buffer.old }
    ensures stays { StaysClosed buffer.old buffer.new }
{
    match last {
        Some(last) => match own {
            Some(own) => flag_pair(buffer, masks, is_parted, &last, &own),
            None => {}
        },
        None => {}
    }
}

/// Flags two syllables that join, if a break between them changes what the lookup is for.
#[tactic(auto, using(shaping_buffer::proofs::ClosedKeepsLemmas::kept))]
fn flag_pair<F: Fn(&hb_glyph_info_t, u32) -> bool>(
    buffer: &mut hb_buffer_t,
    masks: &FormMasks,
    is_parted: &F,
    last: &Joined,
    own: &Joined,
)
    requires closed { buffer.old.have_output ≡ false }
    requires callable { F.IsAlwaysCallable is_parted.now }
    ensures is { (test : forms.Test) → ((g : _) (m : _) (r : _) → F.post is_parted.now g m r → r ≡ test g.now m)
        → buffer.new ≡ forms.flag_pair test masks.now last.now own.now buffer.old }
    ensures stays { StaysClosed buffer.old buffer.new }
{
    if !lie_within(last, own, buffer.len()) {
        return;
    }
    if !are_parted(buffer.info(), masks, is_parted, last, own) {
        return;
    }
    buffer.unsafe_to_break(Some(last.start), Some(own.end));
}

/// Whether two syllables lie in a text of so many items.
fn lie_within(last: &Joined, own: &Joined, count: usize) -> bool
    ensures { result ≡ (nat_le last.now.start own.now.end && nat_le own.now.end count) }
{
    last.start <= own.end && own.end <= count
}

/// Whether a break between two syllables changes what the lookup is for, by the forms that they have before it and behind it.
fn are_parted<F: Fn(&hb_glyph_info_t, u32) -> bool>(
    infos: &[hb_glyph_info_t],
    masks: &FormMasks,
    is_parted: &F,
    last: &Joined,
    own: &Joined,
) -> bool
    requires { F.IsAlwaysCallable is_parted.now }
    ensures { (test : forms.Test) → ((g : _) (m : _) (r : _) → F.post is_parted.now g m r → r ≡ test g.now m)
        → result ≡ forms.are_parted test masks.now infos.now last.now own.now }
{
    let before = form_before(masks, last);
    if is_one_parted(
        syllable(infos, &(last.start..last.end)),
        masks,
        is_parted,
        before,
    ) {
        return true;
    }
    let behind = form_behind(masks, infos, own);
    is_one_parted(
        syllable(infos, &(own.start..own.end)),
        masks,
        is_parted,
        behind,
    )
}

/// The mask of the form that a syllable has before a break: it becomes the last of its word, or stands alone.
fn form_before(masks: &FormMasks, last: &Joined) -> u32
    ensures { result ≡ forms.form_before masks.now last.now }
{
    if last.is_first {
        masks.isol
    } else {
        masks.fina
    }
}

/// The mask of the form that a syllable has behind a break: it becomes the first of its word, or stands alone.
fn form_behind(masks: &FormMasks, infos: &[hb_glyph_info_t], own: &Joined) -> u32
    ensures { result ≡ forms.form_behind masks.now infos.now own.now }
{
    if joins(kind_at(infos, own.end)) {
        masks.init
    } else {
        masks.isol
    }
}

/// Whether the lookup is for one of these glyphs only in the form that it has, or only in another one.
fn is_one_parted<F: Fn(&hb_glyph_info_t, u32) -> bool>(
    glyphs: &[hb_glyph_info_t],
    masks: &FormMasks,
    is_parted: &F,
    form: u32,
) -> bool
    requires { F.IsAlwaysCallable is_parted.now }
    ensures { (test : forms.Test) → ((g : _) (m : _) (r : _) → F.post is_parted.now g m r → r ≡ test g.now m)
        → result ≡ forms.is_one_parted test masks.now form glyphs.now }
{
    for glyph in glyphs {
        if is_parted(glyph, in_form(masks, form, glyph.mask)) {
            return true;
        }
    }
    false
}
