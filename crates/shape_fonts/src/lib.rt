//! Fonts as the program `vukhaso_shape` asks them: files, kept advances, bolder and slanted glyphs, and the shaper `fallback`.
#![tactic(auto)]

pub mod fallback;
pub mod font_file;
pub mod kept_advances;
pub mod synthetic_font;
