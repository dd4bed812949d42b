//! Packed deltas (OpenType specification, "OpenType Font Variations Common Table Formats", "Packed deltas").

ghost use Rattle.std.specs.Prelude.{◌≡◌, ◌+◌, ◌≤◌, None, Some, IfSome, IsSome, option_map};
ghost use Rattle.font_tables.specs.Bytes.{byte_at};
ghost use Rattle.font_variations.specs.PackedDeltas.{delta_of_size, delta_size, deltas_in_run};

use font_tables::bytes::{i16_at, tail, u8_at, u32_at};

/// A list of deltas, which is read delta by delta.
#[derive(Clone, Copy)]
pub struct PackedDeltas<'a> {
    /// What is not read yet.
    rest: &'a [u8],
    /// How many deltas are not read yet.
    left: u32,
    /// How many of them are left in the run.
    run: u32,
    /// How many bytes each of the run has; a delta without bytes is 0.
    size: u8,
}

impl<'a> PackedDeltas<'a> {
    /// The list of so many deltas at the front of these bytes.
    pub fn new(bytes: &'a [u8], count: u32) -> Self
        ensures { result.left ≡ count }
    {
        PackedDeltas {
            rest: bytes,
            left: count,
            run: 0,
            size: 0,
        }
    }

    /// How many deltas are not read yet.
    pub fn left(&self) -> u32
        ensures { result ≡ self.now.left }
    {
        self.left
    }

    /// The next delta; `None` where there is none, or the list is broken.
    pub fn next(&mut self) -> Option<i32>
        ensures none { self.old.left ≡ 0 → result ≡ None }
        ensures taken { IfSome result (λ _. self.new.left + 1 ≡ self.old.left) }
    {
        if self.left == 0 {
            return None;
        }
        if self.run == 0 {
            self.begin_run()?;
        }
        let delta = delta_of_size(self.size, self.rest)?;
        self.rest = tail(self.rest, usize::from(self.size));
        self.run = self.run.saturating_sub(1);
        self.left -= 1;
        Some(delta)
    }

    /// Begins the next run, which may not be longer than what is left.
    fn begin_run(&mut self) -> Option<()>
        ensures left { self.new.left ≡ self.old.left }
        ensures run { IsSome result → Some self.new.run ≡ option_map deltas_in_run (byte_at self.old.rest.now 0) }
        ensures size { IsSome result → Some self.new.size ≡ option_map delta_size (byte_at self.old.rest.now 0) }
        ensures fits { IsSome result → self.new.run ≤ self.old.left }
    {
        let control = u8_at(self.rest, 0)?;
        self.run = u32::from(control % 64) + 1;
        self.size = delta_size(control);
        self.rest = tail(self.rest, 1);
        if self.run > self.left { None } else { Some(()) }
    }

    /// Passes over so many deltas, run by run; `None` where there are fewer, or the list is broken.
    pub fn skip(&mut self, count: u32) -> Option<()>
        ensures { IsSome result → self.new.left + count ≡ self.old.left }
    {
        if count > self.left {
            return None;
        }
        let mut skipped = 0;
        for _ in 0..count {
            if skipped == count {
                break;
            }
            skipped += self.skip_in_run(count - skipped)?;
        }
        if skipped == count { Some(()) } else { None }
    }

    /// Passes over deltas of a run, at most so many; how many these were. `None` where the list is broken.
    fn skip_in_run(&mut self, most: u32) -> Option<u32>
        requires { most ≤ self.old.left }
        ensures { IfSome result (λ skipped. (skipped ≤ most) × (self.new.left + skipped ≡ self.old.left)) }
    {
        if self.run == 0 {
            self.begin_run()?;
        }
        let skipped = self.run.min(most);
        let size = usize::from(self.size) * skipped as usize;
        if self.rest.len() < size {
            return None;
        }
        self.rest = tail(self.rest, size);
        self.run -= skipped;
        self.left -= skipped;
        Some(skipped)
    }

    /// What follows the list; `None` where it is broken.
    pub fn behind(mut self) -> Option<&'a [u8]> {
        let left = self.left;
        self.skip(left)?;
        Some(self.rest)
    }
}

/// How many bytes each delta of a run has, by the byte before the run.
fn delta_size(control: u8) -> u8
    ensures { result ≡ delta_size control }
{
    match control {
        0..=63 => 1,
        64..=127 => 2,
        128..=191 => 0,
        _ => 4,
    }
}

/// The delta of so many bytes at the front.
fn delta_of_size(size: u8, bytes: &[u8]) -> Option<i32>
    ensures { result ≡ delta_of_size size bytes.now }
{
    match size {
        0 => Some(0),
        1 => Some(i32::from(u8_at(bytes, 0)?.cast_signed())),
        2 => Some(i32::from(i16_at(bytes, 0)?)),
        _ => Some(u32_at(bytes, 0)?.cast_signed()),
    }
}
