// Rotations as quaternions of f64, after glam's DQuat.
#![tactic(auto)]

ghost use Rattle.drift.specs.Drift.{Beam};
ghost use Rattle.quaternion.specs.Drift.{Step, AxisFair, Drift, Told, Lamp};

mod axes;
mod dquat;
mod euler_angles;
mod interpolation;
mod matrices;
mod sums;

pub use dquat::DQuat;
pub use matrices::FromQuat;

// What a run of turns keeps of the exact product, and its beam.
pub fn drift_stands()
    ensures step { Step }
    ensures fair { AxisFair }
    ensures drift { Drift }
    ensures told { Told }
    ensures lamp { Lamp }
    ensures beam { Beam }
{}
