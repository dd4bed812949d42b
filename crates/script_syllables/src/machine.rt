//! Machines that read categories one after the other.

ghost use Rattle.std.specs.Prelude.{◌≡◌, None, get_or};
ghost use Rattle.script_syllables.specs.Machines.{next_state};

/// A machine that reads categories one after the other, and knows of each state the kind of the syllable that ends there.
#[derive(Clone, Copy)]
pub struct Machine<'a> {
    /// The next state of each state, a row for each, by the number of a category; 0 where a syllable goes no further. The first state
    /// is 1.
    pub next: &'a [u8],
    /// How many categories a row has.
    pub width: u8,
    /// The kind of the syllable that each state has read.
    pub ends: &'a [Option<u8>],
    /// The state after a character of any other category.
    pub other: u8,
}

impl<'a> Machine<'a> {
    /// The state after another character; 0 where a syllable goes no further.
    pub fn next_state(&self, state: u8, category: u8) -> u8
        ensures { result ≡ next_state self.now state category }
    {
        if category >= self.width {
            return if state == 1 { self.other } else { 0 };
        }
        let row = usize::from(state) * usize::from(self.width);
        match self.next.get(row + usize::from(category)) {
            Some(next) => *next,
            None => 0,
        }
    }

    /// The kind of the syllable that a state has read; `None` where it has read none whole.
    pub fn kind_read(&self, state: u8) -> Option<u8>
        ensures { result ≡ get_or self.now.ends.now state None }
    {
        match self.ends.get(usize::from(state)) {
            Some(kind) => *kind,
            None => None,
        }
    }
}
