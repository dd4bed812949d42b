//! How much work a text may still cost while it is shaped, so that no font makes it endless.

ghost use Rattle.std.specs.Prelude.{◌≤◌, ◌<◌, ◌-◌, ◌≡◌, ◌↔◌, IsTrue, IsFalse};
ghost use Rattle.ot_layout.specs.Budget.{IsNotMore, steps_for};

/// How many steps a subtable costs that is tried.
pub const SUBTABLE_STEPS: u64 = 4;

/// How many glyphs or subtables are passed over by their digests in a step.
pub const PASSED_A_STEP: usize = 16;

/// How many steps a text may cost however short it is: four for each rule of the greatest set of rules that a table can hold.
const STEPS_A_TEXT: u64 = 0x4_0000;

/// How many more it may cost for each of its glyphs.
const STEPS_A_GLYPH: u64 = 0x4000;

/// What is left to spend. It never rises.
#[derive(Clone, Copy)]
pub struct Budget {
    /// How many more lookups may be applied by others, as HarfBuzz counts them in `max_ops`.
    pub nested: u32,
    /// How many more steps may be made: subtables and rules that are tried, and glyphs that are looked at.
    pub steps: u64,
}

impl Budget {
    /// The budget of a text with so many glyphs, in which lookups may apply so many others: 16,384 steps for each glyph, and 262,144
    /// more.
    pub fn new(nested: u32, glyphs: usize) -> Self
        ensures nested { result.nested ≡ nested }
        ensures steps { result.steps ≡ steps_for glyphs }
    {
        let steps = (glyphs as u64).saturating_mul(STEPS_A_GLYPH);
        Budget {
            nested,
            steps: steps.saturating_add(STEPS_A_TEXT),
        }
    }

    /// Pays for steps, where as many are left. Where fewer are left, all of them are spent, and the answer is false.
    pub fn pay(&mut self, steps: u64) -> bool
        ensures left { self.new ≡ record self.old { steps = self.old.steps - steps } }
        ensures paid { IsTrue result ↔ steps ≤ self.old.steps }
        ensures spent { IsNotMore self.old self.new }
        ensures empty { IsFalse result → self.new.steps ≡ 0 }
    {
        if self.steps < steps {
            self.steps = 0;
            return false;
        }
        self.steps -= steps;
        true
    }

    /// Pays for going over so many glyphs, as `pay` does.
    pub fn pay_for(&mut self, glyphs: usize) -> bool
        ensures left { self.new ≡ record self.old { steps = self.old.steps - glyphs } }
        ensures paid { IsTrue result ↔ glyphs ≤ self.old.steps }
        ensures spent { IsNotMore self.old self.new }
        ensures empty { IsFalse result → self.new.steps ≡ 0 }
    {
        self.pay(glyphs as u64)
    }

    /// Pays for a lookup that another one applies. Where none may be applied any more, the answer is false.
    pub fn nest(&mut self) -> bool
        ensures left { self.new ≡ record self.old { nested = self.old.nested - 1 } }
        ensures paid { IsTrue result ↔ 0 < self.old.nested }
        ensures spent { IsNotMore self.old self.new }
    {
        if self.nested == 0 {
            return false;
        }
        self.nested -= 1;
        true
    }

    /// Whether no more steps may be made.
    pub fn is_spent(&self) -> bool
        ensures spent { IsTrue result → self.now.steps ≡ 0 }
        ensures left { IsFalse result → 0 < self.now.steps }
    {
        self.steps == 0
    }
}
