// Turns of a lamp, as a drawing or a desk gives them.
#![tactic(auto)]

use euler::{Axis, EulerRot};
use quaternion::DQuat;

#[derive(Clone, Copy, PartialEq, Debug)]
pub enum Turn {
    // An order and its three angles.
    Order(EulerRot, f64, f64, f64),
    // An axis and its angle.
    Letter(Axis, f64),
    // A quaternion.
    Given(DQuat),
}
