// Sine, cosine, square root and arc tangent of an f64, by its own operations alone, so that their bits are the same everywhere.
#![tactic(auto)]

mod arctangent;
mod checks;
mod horner;
mod sine;

pub use arctangent::{acos_approx, acos_raw, atan2, atan2_raw, root_example_stands, sqrt};
pub use checks::{LARGEST_ANGLE, check_angle, check_angles, check_number, check_size};
pub use sine::{cos, sin, sin_cos, sin_cos_raw};
