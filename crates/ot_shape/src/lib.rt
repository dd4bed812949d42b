//! The shaping of texts by a font.
#![tactic(auto)]

mod ending;
mod shaping;
mod verified;
mod with_plans;

pub use font_face::{
    Axis, ColorTables, Face, FaceNames, FaceVariations, Layout, Lookups, Variation,
};
pub use font_functions::{FontFunctions, OwnFunctions};
pub use ot_plan::{KeptPlans, ShapePlan, Step, Unwatched, Watch};
pub use shaping::{shape, shape_watched, shape_with_functions, shape_with_functions_watched};
pub use shaping_verification::{Differences, ShapeError, VerifyError, compare};
pub use with_plans::{
    shape_with_functions_and_plans, shape_with_kept_plans, shape_with_plan, shape_with_plan_watched,
};
