//! Clusters that are read one at a time, and counted.

ghost use Rattle.std.specs.Prelude.{◌≡◌, ◌+◌, ◌-◌, ◌^◌, ◌<◌, length, slice_index};
ghost use Rattle.glyph_lists.specs.ClusterReads.{Reads, both_clusters};

use rb_glyph::hb_glyph_info_t;
use std::marker::Model;

/// Two lists of glyphs as one, whose clusters are read one at a time and counted. A walk that is given this and not the
/// lists shows by its contract how much of them it reads.
#[derive(Drop)]
pub struct ClusterReads<'a> {
    out: &'a [hb_glyph_info_t],
    input: &'a [hb_glyph_info_t],
    reads: u128,
}

impl<'a> Model for ClusterReads<'a> {
    ghost Value = { Reads };

    ghost view = { λ r. record { out = r.out.now; input = r.input.now; reads = r.reads } };
}

impl<'a> ClusterReads<'a> {
    /// The two lists as one, `out` first. No cluster is read yet.
    #[inline(always)]
    pub fn new(out: &'a [hb_glyph_info_t], input: &'a [hb_glyph_info_t]) -> Self
        ensures { result ≡ record { out = out.now; input = input.now; reads = 0 } }
    {
        ClusterReads {
            out,
            input,
            reads: 0,
        }
    }

    /// Reads the cluster of glyph `i` of the two lists as one.
    #[inline(always)]
    pub fn cluster(&mut self, i: usize) -> u32
        requires within { i < length self.old.out + length self.old.input }
        requires room { self.old.reads < 2 ^ 128 - 1 }
        ensures is { result ≡ slice_index (both_clusters self.old) i }
        ensures counts { self.new ≡ record self.old { reads = self.old.reads + 1 } }
    {
        self.reads += 1;
        if i < self.out.len() {
            return self.out[i].cluster;
        }
        self.input[i - self.out.len()].cluster
    }

    /// How many glyphs the two lists have together.
    #[inline(always)]
    pub fn len(&self) -> usize
        ensures { result ≡ length self.now.out + length self.now.input }
    {
        self.out.len() + self.input.len()
    }

    /// How many clusters were read.
    #[inline(always)]
    pub fn reads(&self) -> u128
        ensures { result ≡ self.now.reads }
    {
        self.reads
    }
}
