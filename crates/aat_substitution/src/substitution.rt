//! The chains of a table, applied to a text.

ghost use Rattle.std.specs.Prelude.{◌≡◌, ◌<◌, ◌≤◌, true, false, length, IfOk};
ghost use Rattle.shaping_buffer.specs.KeepsClusters.{KeepsClusters};
ghost use Rattle.aat_substitution.specs.Actions.{is_for_line, is_reversed};
ghost use Rattle.aat_substitution.specs.Left.{Closes, IsLeftClosed, Stays, TurnsBack};
ghost use Rattle.shaping_passes.specs.Refusals.{IsRefusal};

use crate::action::Action;
use crate::chain_flags::ChainFlags;
use crate::noncontextual::replace_all;
use crate::setting::{Reach, Setting};
use crate::work::{Done, Work};
use crate::writing::fail;
use aat_tables::metamorphosis::SubtableCoverage;
use aat_tables::{Lookup, Metamorphosis, StateTable};
use font_tables::gdef::Gdef;
use shaping_buffer::{Direction, hb_buffer_t};
use std::alloc::AllocError;

/// The chains of a font, and how they are applied.
#[derive(Clone, Copy)]
pub struct Substitution<'a> {
    /// The chains.
    pub table: &'a Metamorphosis<'a>,
    /// Their flags in the parts of the text.
    pub flags: &'a ChainFlags,
    /// The classes of the font's glyphs.
    pub gdef: &'a Gdef<'a>,
}

/// Applies the subtables of all chains whose flags are on. `Ok(false)` where the buffer refused a call for length: then an output
/// may be open, and the text turned. Where the budget is spent, the rest of the text stays as it is, and `buffer.shaping_failed`
/// says so. `Err(AllocError)` where memory ran out.
///
/// Deleted glyphs stay as glyphs with the number 0xFFFF.
pub fn substitute(buffer: &mut hb_buffer_t, substitution: &Substitution) -> Result<bool, AllocError>
    requires { buffer.old.have_output ≡ false }
    ensures left { IsLeftClosed result buffer.new }
    ensures refusal { IsRefusal false result buffer.new }
    ensures keeps { IfOk result (λ done. done ≡ true → KeepsClusters buffer.old buffer.new) }
{
    let mut work = Work::new(buffer.max_ops, buffer.info());
    mark_concat(buffer);
    for chain in 0..substitution.table.chains.len() {
        if !substitution.apply_chain(buffer, chain, &mut work)? {
            return Ok(false);
        }
    }
    buffer.move_to(0)
}

/// Marks the whole text as unsafe to concatenate.
fn mark_concat(buffer: &mut hb_buffer_t)
    requires { buffer.old.have_output ≡ false }
    ensures { Stays buffer.old buffer.new }
{
    buffer.unsafe_to_concat(None, None);
}

impl Substitution<'_> {
    /// Applies the subtables of a chain whose flags are on.
    fn apply_chain(&self, buffer: &mut hb_buffer_t, chain: usize, work: &mut Work) -> Done
        requires { buffer.old.have_output ≡ false }
        ensures { TurnsBack result buffer.old buffer.new }
    {
        let Some(row) = self.table.chains.get(chain) else {
            return Ok(true);
        };
        for subtable in self.table.subtables_of(row) {
            let reach = Reach {
                flags: self.flags,
                chain,
                subtable,
            };
            if self.flags.has_any(chain, subtable.flags)
                && is_for(subtable.coverage, buffer.direction)
                && !self.apply_subtable(buffer, &reach, work)?
            {
                return Ok(false);
            }
        }
        Ok(true)
    }

    /// Applies a subtable in its order.
    #[tactic(auto, using(crate::proofs::TurnLemmas::turned))]
    fn apply_subtable(&self, buffer: &mut hb_buffer_t, reach: &Reach, work: &mut Work) -> Done
        requires { buffer.old.have_output ≡ false }
        ensures { TurnsBack result buffer.old buffer.new }
    {
        if !is_reversed(reach.subtable.coverage, buffer.direction) {
            return self.apply(buffer, reach, work);
        }
        buffer.reverse();
        if !self.apply(buffer, reach, work)? {
            return Ok(false);
        }
        buffer.reverse();
        Ok(true)
    }

    /// Applies a subtable from the first glyph on.
    fn apply(&self, buffer: &mut hb_buffer_t, reach: &Reach, work: &mut Work) -> Done
        requires { buffer.old.have_output ≡ false }
        ensures { Closes result buffer.old buffer.new work.old work.new }
    {
        let subtable = reach.subtable;
        let glyph_count = self.table.glyph_count;
        if !work.budget.pay(1) {
            fail(buffer);
            return Ok(true);
        }
        let Some(mut action) = Action::of(subtable, glyph_count) else {
            let lookup = Lookup::new(subtable.table, glyph_count);
            replace_all(buffer, &lookup, reach, self.gdef, work);
            return Ok(true);
        };
        let data_count = subtable.kind.data_count();
        let Some(machine) = StateTable::new(subtable.table, glyph_count, data_count) else {
            return Ok(true);
        };
        let setting = Setting {
            machine,
            reach: *reach,
            gdef: self.gdef,
        };
        if setting.passes_unknown_glyphs(buffer, &action) && !work.digest.meets(&subtable.digest) {
            return Ok(true);
        }
        setting.drive(buffer, &mut action, work)
    }
}

/// Whether a subtable is for lines that run in a direction.
fn is_for(coverage: SubtableCoverage, direction: Direction) -> bool
    ensures { result ≡ is_for_line coverage direction }
{
    coverage.all_directions || coverage.is_vertical == direction.is_vertical()
}

/// Whether a subtable goes over the glyphs from the last one on: they stand in the order of the characters.
fn is_reversed(coverage: SubtableCoverage, direction: Direction) -> bool
    ensures { result ≡ is_reversed coverage direction }
{
    if coverage.is_logical {
        coverage.is_backwards
    } else {
        coverage.is_backwards != direction.is_backward()
    }
}
