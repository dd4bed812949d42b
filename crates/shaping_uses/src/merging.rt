//! Two characters are merged, and the cluster numbers read.

ghost use Rattle.std.specs.Prelude.{◌≡◌, ◌<◌, ◌≤◌, ◌⊎◌, length, chars, IfOk, MatchOption, OnErr};
ghost use Rattle.glyph_lists.specs.Clusters.{clusters};
ghost use Rattle.shaping_buffer.specs.ClusterStep.{merge_clusters};
ghost use Rattle.shaping_uses.specs.Printing.{text_buffer};

use shaping_buffer::{UnicodeBuffer, hb_glyph_info_t};
use std::alloc::{AllocError, Global};

/// The cluster numbers of a text after its first two characters became one cluster. `Ok(None)` exactly where the text
/// has fewer than two characters, or more than a buffer may hold. `Err(AllocError)` comes only where the text is not
/// empty.
pub fn clusters_of_merged(alloc: Global, text: &str) -> Result<Option<Vec<u32>>, AllocError>
    ensures is { IfOk result (λ numbers. MatchOption numbers
        ((length (chars text.now) < 2) ⊎ (0x3FFF_FFFF < length (chars text.now)))
        (λ each. (2 ≤ length (chars text.now)) × (length (chars text.now) ≤ 0x3FFF_FFFF)
        × (each.items ≡ clusters (merge_clusters 0 2 (text_buffer text.now)).input))) }
    ensures wants { OnErr result (0 < length (chars text.now)) }
{
    let mut characters = UnicodeBuffer::new(alloc);
    if !characters.push_str(text)? || characters.len() < 2 {
        return Ok(None);
    }
    let mut buffer = characters.into_buffer();
    buffer.merge_clusters(0, 2);
    Ok(Some(cluster_numbers(alloc, buffer.info())?))
}

/// The cluster number of each glyph. `Err(AllocError)` comes only where there is a glyph.
pub fn cluster_numbers(alloc: Global, glyphs: &[hb_glyph_info_t]) -> Result<Vec<u32>, AllocError>
    ensures is { IfOk result (λ each. each.items ≡ clusters glyphs.now) }
    ensures wants { OnErr result (0 < length glyphs.now) }
{
    if glyphs.is_empty() {
        return Ok(Vec::new(alloc));
    }
    glyphs.iter().map(|glyph| glyph.cluster).collect(alloc)
}
