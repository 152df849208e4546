// A 3x3 column major matrix of f64, after glam's DMat3: what the quaternions and the Euler orders call of it.
#![tactic(auto)]

mod dmat3;
mod from_angles;
mod to_angles;

pub use dmat3::DMat3;
