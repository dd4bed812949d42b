//! The characters of a text, before they are mapped to glyphs: their properties, graphemes and direction.

ghost use Rattle.std.specs.Prelude.{◌≡◌, ◌<◌, ◌≤◌, false, None, length, slice_index_or, slice_set};
ghost use Rattle.glyph_lists.specs.Clusters.{zero_glyph};
ghost use Rattle.shaping_buffer.specs.KeepsClusters.{KeepsClusters, TurnsClusters};
ghost use Rattle.ot_characters.specs.FormedClusters as formed;
ghost use Rattle.ot_characters.specs.NativeDirection as ways;
ghost use Rattle.ot_characters.specs.Properties as properties;
ghost use Rattle.ot_characters.specs.Properties.{AreMet, all_remembered, before, begins_flag, characters_behind, goes_on, in_grapheme, is_pictographic};
ghost use Rattle.ot_characters.specs.Properties.{is_there, is_zwj};
ghost use Rattle.script_items.specs.Properties.{remembered, with_properties};
ghost use Rattle.ot_characters.specs.Turned.{KeepsOrTurns};

use crate::glyph_info::{is_regional_indicator, is_same_grapheme, is_zwj, set_continuation};
use crate::native_direction::runs_against;
use crate::turned_contexts::keep_turned_contexts;
use script_items::allows_any_order;
use script_items::glyph_info::{is_continuation, set_unicode_props};
use script_items::item::general_category;
use shaping_buffer::rb_glyph::hb_gc::RB_UNICODE_GENERAL_CATEGORY_MODIFIER_SYMBOL;
use shaping_buffer::{
    CharExt, Direction, HB_BUFFER_CLUSTER_LEVEL_MONOTONE_GRAPHEMES,
    HB_BUFFER_SCRATCH_FLAG_HAS_NON_ASCII, hb_buffer_t, hb_glyph_info_t,
};

/// No character before this one goes on with a grapheme: the first that emoji are made from.
const FIRST_PICTOGRAPHIC: u32 = 0xA9;

/// Of a text of so many characters, the properties of so many are remembered.
const REMEMBERED: usize = 64;

/// Sets the properties of each character, and says which go on with the grapheme before them.
#[tactic(auto, using(shaping_buffer::proofs::ClosedKeepsLemmas::kept))]
pub fn set_properties(buffer: &mut hb_buffer_t)
    requires { buffer.old.have_output ≡ false }
    ensures is { buffer.new ≡ properties.set_properties buffer.old }
    ensures closed { buffer.new.have_output ≡ false }
    ensures keeps { KeepsClusters buffer.old buffer.new }
{
    let scratch_flags = set_all_in(buffer);
    remember(buffer, scratch_flags);
}

/// Remembers these scratch flags of a text.
fn remember(buffer: &mut hb_buffer_t, scratch_flags: u32)
    requires { buffer.old.have_output ≡ false }
    ensures is { buffer.new ≡ record buffer.old { scratch_flags = scratch_flags } }
    ensures closed { buffer.new.have_output ≡ false }
    ensures keeps { KeepsClusters buffer.old buffer.new }
{
    buffer.scratch_flags = scratch_flags;
}

/// Sets the properties of each character of a buffer; the scratch flags that then hold.
fn set_all_in(buffer: &mut hb_buffer_t) -> u32
    requires { buffer.old.have_output ≡ false }
    ensures is { buffer.new ≡ record buffer.old { input = characters_behind None buffer.old.input } }
    ensures remembered { result ≡ all_remembered buffer.old.input buffer.old.scratch_flags }
    ensures closed { buffer.new.have_output ≡ false }
    ensures keeps { KeepsClusters buffer.old buffer.new }
{
    let mut scratch_flags = buffer.scratch_flags;
    set_all_properties(buffer.info_slice_mut(), &mut scratch_flags);
    scratch_flags
}

/// Sets the properties of each character.
#[tactic(auto, using(crate::proofs::PropertiesLemmas::walks))]
fn set_all_properties(infos: &mut [hb_glyph_info_t], scratch_flags: &mut u32)
    ensures is { infos.new ≡ characters_behind None infos.old }
    ensures remembered { scratch_flags.new ≡ all_remembered infos.old scratch_flags.old }
{
    if infos.len() >= REMEMBERED {
        return set_many_properties(infos, scratch_flags);
    }
    for i in 0..infos.len() {
        set_unicode_props(&mut infos[i], scratch_flags);
        join_grapheme(infos, i);
    }
}

/// Sets the properties of each of many characters, most of which were met before. The last character of each number, counted round, is
/// remembered.
#[tactic(auto, using(crate::proofs::PropertiesLemmas::walks))]
fn set_many_properties(infos: &mut [hb_glyph_info_t], scratch_flags: &mut u32)
    ensures is { infos.new ≡ characters_behind None infos.old }
    ensures remembered { scratch_flags.new ≡ all_remembered infos.old scratch_flags.old }
{
    let mut known = [(0, 0); REMEMBERED];
    // No character 0 was met: where it would be found stands another one.
    known[0] = (1, 0);
    for i in 0..infos.len() {
        set_known_properties(&mut infos[i], &mut known, scratch_flags);
        join_grapheme(infos, i);
    }
}

/// Sets the properties of a character, which may have been met before.
#[inline]
fn set_known_properties(
    info: &mut hb_glyph_info_t,
    known: &mut [(u32, u16); REMEMBERED],
    scratch_flags: &mut u32,
)
    requires { AreMet known.old scratch_flags.old }
    ensures is { info.new ≡ with_properties info.old }
    ensures remembered { scratch_flags.new ≡ remembered info.old.glyph_id scratch_flags.old }
    ensures met { AreMet known.new scratch_flags.new }
{
    let character = info.glyph_id;
    let place = character as usize % REMEMBERED;
    if known[place].0 == character {
        info.set_unicode_props(known[place].1);
    } else {
        set_unicode_props(info, scratch_flags);
        known[place] = (character, info.unicode_props());
    }
}

/// Says of the character at a place whether it goes on with the grapheme before it.
#[inline]
fn join_grapheme(infos: &mut [hb_glyph_info_t], i: usize)
    requires { i < length infos.old }
    ensures { infos.new ≡ slice_set infos.old i (in_grapheme (before None i infos.old) (slice_index_or infos.old i zero_glyph)) }
{
    if continues_grapheme(infos, i) {
        set_continuation(&mut infos[i]);
    }
}

/// Whether a character that is no mark goes on with the grapheme before it (Unicode Standard Annex 29): a modifier of
/// an emoji, the second of two regional indicators, the zero width joiner and an emoji behind it, tags, and the voiced
/// sound marks of halfwidth Katakana.
#[inline]
#[tactic(auto, unfolding(crate::specs::Properties::goes_on))]
fn continues_grapheme(infos: &[hb_glyph_info_t], i: usize) -> bool
    requires { i < length infos.now }
    ensures { result ≡ goes_on (before None i infos.now) (slice_index_or infos.now i zero_glyph) }
{
    let info = &infos[i];
    match info.glyph_id {
        0..FIRST_PICTOGRAPHIC => false,
        0x1F3FB..=0x1F3FF => general_category(info) == RB_UNICODE_GENERAL_CATEGORY_MODIFIER_SYMBOL,
        0x1F1E6..=0x1F1FF => is_behind_first_indicator(infos, i),
        0xFF9E..=0xFF9F | 0xE0020..=0xE007F => true,
        _ => is_zwj(info) || is_behind_zwj(infos, i) && is_pictographic(info),
    }
}

/// Whether the character before a place is the first of two regional indicators.
#[tactic(auto, using(crate::proofs::PropertiesLemmas::places))]
fn is_behind_first_indicator(infos: &[hb_glyph_info_t], i: usize) -> bool
    requires { i < length infos.now }
    ensures { result ≡ is_there begins_flag (before None i infos.now) }
{
    i > 0 && begins_flag(&infos[i - 1])
}

/// Whether the character is the first of two regional indicators.
fn begins_flag(info: &hb_glyph_info_t) -> bool
    ensures { result ≡ begins_flag info.now }
{
    is_regional_indicator(info) && !is_continuation(info)
}

/// Whether the character before a place is the zero width joiner.
#[tactic(auto, using(crate::proofs::PropertiesLemmas::places))]
fn is_behind_zwj(infos: &[hb_glyph_info_t], i: usize) -> bool
    requires { i < length infos.now }
    ensures { result ≡ is_there is_zwj (before None i infos.now) }
{
    i > 0 && is_zwj(&infos[i - 1])
}

/// Whether emoji are made from the character.
fn is_pictographic(info: &hb_glyph_info_t) -> bool
    ensures { result ≡ is_pictographic info.now }
{
    match char::from_u32(info.glyph_id) {
        Some(character) => character.is_emoji_extended_pictographic(),
        None => false,
    }
}

/// Makes each grapheme one cluster, or unsafe to break where the cluster level keeps its characters apart.
#[tactic(auto, using(crate::proofs::FormedLemmas::texts, shaping_buffer::proofs::ClosedKeepsLemmas::kept))]
pub fn form_clusters(buffer: &mut hb_buffer_t)
    requires { buffer.old.have_output ≡ false }
    ensures is { buffer.new ≡ formed.with_clusters buffer.old }
    ensures closed { buffer.new.have_output ≡ false }
    ensures keeps { KeepsClusters buffer.old buffer.new }
{
    if buffer.scratch_flags & HB_BUFFER_SCRATCH_FLAG_HAS_NON_ASCII == 0 {
        return;
    }
    let merges = buffer.cluster_level == HB_BUFFER_CLUSTER_LEVEL_MONOTONE_GRAPHEMES;
    form_each(buffer, merges);
}

/// Makes each grapheme one cluster, or unsafe to break.
#[tactic(auto, using(crate::proofs::FormedLemmas::turns, shaping_buffer::proofs::ClosedKeepsLemmas::kept))]
fn form_each(buffer: &mut hb_buffer_t, merges: bool)
    requires { buffer.old.have_output ≡ false }
    ensures is { buffer.new ≡ formed.graphemes_formed merges (length buffer.old.input) 0 buffer.old }
    ensures closed { buffer.new.have_output ≡ false }
    ensures keeps { KeepsClusters buffer.old buffer.new }
{
    let count = buffer.info().len();
    let mut start = 0;
    for _turn in 0..count {
        if start >= buffer.info().len() {
            break;
        }
        let end = buffer.group_end(start, is_same_grapheme);
        form_cluster(buffer, start, end, merges);
        start = end;
    }
}

/// Makes a grapheme one cluster, or unsafe to break.
#[tactic(auto, unfolding(crate::specs::FormedClusters::grapheme_formed))]
fn form_cluster(buffer: &mut hb_buffer_t, start: usize, end: usize, merges: bool)
    requires closed { buffer.old.have_output ≡ false }
    requires order { start ≤ end }
    requires within { end ≤ length buffer.old.input }
    ensures is { buffer.new ≡ formed.grapheme_formed merges start end buffer.old }
    ensures closed { buffer.new.have_output ≡ false }
    ensures keeps { KeepsClusters buffer.old buffer.new }
{
    if merges {
        buffer.merge_clusters(start, end);
    } else {
        buffer.unsafe_to_break(Some(start), Some(end));
    }
}

/// Reverses a text that runs against its script, grapheme by grapheme, and says whether it did.
#[tactic(auto, using(crate::proofs::TurnLemmas::natives, shaping_buffer::proofs::ClosedKeepsLemmas::kept))]
pub fn ensure_native_direction(buffer: &mut hb_buffer_t) -> bool
    requires { buffer.old.have_output ≡ false }
    ensures turned { result ≡ ways.runs_against buffer.old }
    ensures is { buffer.new ≡ ways.in_native_direction buffer.old }
    ensures closed { buffer.new.have_output ≡ false }
    ensures runs { KeepsOrTurns result buffer.old buffer.new }
{
    if !runs_against(buffer) {
        return false;
    }
    let direction = buffer.direction.reverse();
    reverse_graphemes(buffer, direction);
    true
}

/// Marks as unsafe to break where a text that runs against its script would be shaped otherwise by contexts, which are not reversed with it.
pub fn keep_contexts(buffer: &mut hb_buffer_t)
    requires { buffer.old.have_output ≡ false }
    ensures closed { buffer.new.have_output ≡ false }
    ensures keeps { KeepsClusters buffer.old buffer.new }
{
    if runs_against(buffer) {
        keep_turned_contexts(buffer);
    }
}

/// Puts the graphemes into reverse order, each in its own order, so that the text runs in this direction. Where clusters have to
/// stay in order each grapheme is made one cluster before; at the level of graphemes it is one already.
fn reverse_graphemes(buffer: &mut hb_buffer_t, direction: Direction)
    requires { buffer.old.have_output ≡ false }
    ensures is { buffer.new ≡ ways.turned_to direction buffer.old }
    ensures closed { buffer.new.have_output ≡ false }
    ensures turns { TurnsClusters buffer.old buffer.new }
{
    let merges = !allows_any_order(buffer);
    buffer.reverse_groups(is_same_grapheme, merges);
    set_direction(buffer, direction);
}

/// Says how the text runs.
pub fn set_direction(buffer: &mut hb_buffer_t, direction: Direction)
    requires { buffer.old.have_output ≡ false }
    ensures is { buffer.new ≡ record buffer.old { direction = direction } }
    ensures keeps { KeepsClusters buffer.old buffer.new }
{
    buffer.direction = direction;
}
