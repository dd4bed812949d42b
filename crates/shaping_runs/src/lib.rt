//! Lists of calls on a shaping buffer, made in order, with an answer to each.
#![tactic(auto)]

pub use call::{Answer, Call};
pub use call_list::{Stopped, make_call, replay};
pub use rendering::{MAX_FEATURES, RenderFault, render, render_at};
pub use shaping_buffer;

pub mod call;
mod call_list;
pub mod caller_laws;
pub mod headline;
pub mod laws;
mod rendering;
