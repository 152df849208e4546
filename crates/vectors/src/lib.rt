// Vectors of f64 and masks, after glam's DVec2, DVec3, DVec4 and BVec4: what the quaternions and the Euler orders call of them.
#![tactic(auto)]

mod bvec4;
mod dvec2;
mod dvec3;
mod dvec4;
mod vector;

pub use bvec4::BVec4;
pub use dvec2::DVec2;
pub use dvec3::DVec3;
pub use dvec4::DVec4;
pub use vector::Vector;
