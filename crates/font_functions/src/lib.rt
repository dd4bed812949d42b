//! What shaping asks of a font: the glyphs of characters, and their measures. A caller may answer in place of the font's tables.
#![tactic(auto)]

mod functions;
mod own_functions;

pub use functions::FontFunctions;
pub use own_functions::OwnFunctions;
