//! Packed numbers of points (OpenType specification, "OpenType Font Variations Common Table Formats", "Packed point numbers").

ghost use Rattle.std.specs.Prelude.{◌≡◌, ◌+◌, ◌≤◌, None, Some, IfSome, IsSome, option_map};
ghost use Rattle.font_tables.specs.Bytes.{byte_at};
ghost use Rattle.font_variations.specs.PackedPoints.{are_wide, declared_points, points_in_run};

use font_tables::bytes::{tail, u8_at, u16_at};

/// A list of numbers of points, which is read number by number.
#[derive(Clone, Copy)]
pub struct PackedPoints<'a> {
    /// What is not read yet.
    rest: &'a [u8],
    /// How many numbers are not read yet.
    left: u16,
    /// How many of them are left in the run.
    run: u16,
    /// Whether those of the run have two bytes each, and not one.
    is_wide: bool,
    /// The number that was read last.
    point: u32,
}

impl<'a> PackedPoints<'a> {
    /// A list of no numbers.
    pub const NONE: PackedPoints<'static> = PackedPoints {
        rest: &[],
        left: 0,
        run: 0,
        is_wide: false,
        point: 0,
    };

    /// The list at the front of these bytes; `None` where its count is cut short.
    pub fn new(bytes: &'a [u8]) -> Option<Self>
        ensures { option_map (λ points. points.left) result ≡ declared_points bytes.now }
    {
        let first = u16::from(u8_at(bytes, 0)?);
        let (left, size) = if first < 128 {
            (first, 1)
        } else {
            ((first - 128) * 256 + u16::from(u8_at(bytes, 1)?), 2)
        };
        Some(PackedPoints {
            rest: tail(bytes, size),
            left,
            run: 0,
            is_wide: false,
            point: 0,
        })
    }

    /// How many numbers are not read yet. A list that has none at its beginning stands for all points.
    pub fn left(&self) -> u16
        ensures { result ≡ self.now.left }
    {
        self.left
    }

    /// The next number, which is not below the one before it; `None` where there is none, or the list is broken.
    pub fn next(&mut self) -> Option<u32>
        ensures none { self.old.left ≡ 0 → result ≡ None }
        ensures taken { IfSome result (λ _. self.new.left + 1 ≡ self.old.left) }
        ensures rises { IfSome result (λ point. self.old.point ≤ point) }
    {
        if self.left == 0 {
            return None;
        }
        if self.run == 0 {
            self.begin_run()?;
        }
        let (step, size) = if self.is_wide {
            (u32::from(u16_at(self.rest, 0)?), 2)
        } else {
            (u32::from(u8_at(self.rest, 0)?), 1)
        };
        self.rest = tail(self.rest, size);
        self.run = self.run.saturating_sub(1);
        self.left -= 1;
        self.point = self.point.saturating_add(step);
        Some(self.point)
    }

    /// Begins the next run, which may not be longer than what is left.
    fn begin_run(&mut self) -> Option<()>
        ensures left { self.new.left ≡ self.old.left }
        ensures point { self.new.point ≡ self.old.point }
        ensures run { IsSome result → Some self.new.run ≡ option_map points_in_run (byte_at self.old.rest.now 0) }
        ensures wide { IsSome result → Some self.new.is_wide ≡ option_map are_wide (byte_at self.old.rest.now 0) }
        ensures fits { IsSome result → self.new.run ≤ self.old.left }
    {
        let control = u8_at(self.rest, 0)?;
        self.run = u16::from(control % 128) + 1;
        self.is_wide = control >= 128;
        self.rest = tail(self.rest, 1);
        if self.run > self.left { None } else { Some(()) }
    }

    /// Passes over the numbers that are below this one, and says how many these are.
    pub fn skip_below(&mut self, point: u32) -> u32 {
        let mut skipped = 0u32;
        for _ in 0..self.left {
            let mut ahead = *self;
            match ahead.next() {
                Some(next) if next < point => *self = ahead,
                _ => break,
            }
            skipped = skipped.saturating_add(1);
        }
        skipped
    }

    /// Passes over what is left of a run, or else over the next one.
    fn skip_run(&mut self) -> Option<()> {
        if self.run == 0 {
            self.begin_run()?;
        }
        let unit = if self.is_wide { 2 } else { 1 };
        let size = unit * usize::from(self.run);
        if self.rest.len() < size {
            return None;
        }
        self.rest = tail(self.rest, size);
        self.left = self.left.saturating_sub(self.run);
        self.run = 0;
        Some(())
    }

    /// What follows the list; `None` where it is broken.
    pub fn behind(mut self) -> Option<&'a [u8]> {
        for _ in 0..self.left {
            if self.left == 0 {
                break;
            }
            self.skip_run()?;
        }
        Some(self.rest)
    }
}
