// The tests of a layer's numbers, and what its turn makes of an orientation.
ghost use Rattle.std.specs.Prelude.{◌≡◌, ℕ, ◌+◌, ◌≤◌, Float};
ghost use Rattle.fault.specs.Answers.{answer};
ghost use Rattle.exact.specs.Fraction.{Frac};
ghost use Rattle.exact.specs.Quat.{Quat, product};
ghost use Rattle.rounding.specs.Value.{floats};
ghost use Rattle.drift.specs.Laws.{Kept, Sound, turned};
ghost use Rattle.drift.specs.Drift.{UnitAt, Stands};
ghost use Rattle.quaternion.specs.Quaternions.{parts};
ghost use Rattle.mount.specs.Facts.{deepest, swings_fault};
ghost use Rattle.mount.specs.Layers.{set_truth, set_floats, aim_truth, aim_floats};
ghost use Rattle.mount.specs.Laws.{set_unit, set_stands, aim_unit, aim_stands};

use crate::settings::{Aim, Setting};
use fault::RotationFault;
use numeric::check_size;
use quaternion::DQuat;

// What pan and tilt are at most, in size.
const LARGEST_SWING: f64 = 10.0;

// Pan and tilt of a yoke, as arguments 1 and 2.
pub(crate) fn check_swings(pan: f64, tilt: f64) -> Result<(), RotationFault>
    ensures { result ≡ answer (swings_fault pan tilt) tt }
{
    check_size(1, pan, LARGEST_SWING)?;
    check_size(2, tilt, LARGEST_SWING)?;
    Ok(())
}

// Each step asks that what it turns is kept, or sound; a type for that would be made and unmade at every step.

// `below` turned by a turn that is kept.
fn step(below: DQuat, turn: DQuat) -> DQuat
    requires below { Sound (parts below) }
    requires turn { Kept (parts turn) }
    ensures { parts result ≡ turned (parts below) (parts turn) }
{
    below.turned(turn).unwrap()
}

// `below` turned by two turns that are kept, normalised once.
fn two_steps(below: DQuat, first: DQuat, second: DQuat) -> DQuat
    requires below { Kept (parts below) }
    requires first { Kept (parts first) }
    requires second { Kept (parts second) }
    ensures { parts result ≡ turned (product floats (parts below) (parts first)) (parts second) }
{
    step(below.mul_quat(first), second)
}

// What a layer can be set to: a turn of the orientation below, in exact numbers and in floats. A new kind of layer is an `impl` of this.
pub trait Turning: Copy {
    // how much deeper the layer stands
    ghost STEPS: { ℕ };

    ghost truth: { Self → Quat Frac → Quat Frac };

    ghost floats: { Self → Quat Float → Quat Float };

    const STEPS: u8;

    // The orientation below, turned.
    fn over(self, below: DQuat) -> DQuat
        requires { Kept (parts below) }
        ensures { parts result ≡ floats self (parts below) };

    ghost unit: { (d : ℕ) (t : Quat Frac) → UnitAt d t → (s : Self) → d + STEPS ≤ deepest → UnitAt (d + STEPS) (truth s t) };

    ghost stands: { (d : ℕ) (t : Quat Frac) (s : Self) (m : Quat Float) → d + STEPS ≤ deepest → Stands d m t → Stands (d + STEPS) (floats s m) (truth s t) };
}

impl Turning for Setting {
    ghost STEPS = { 1 };

    ghost truth = { set_truth };

    ghost floats = { set_floats };

    ghost unit = { set_unit };

    ghost stands = { set_stands };

    const STEPS: u8 = 1;

    #[tactic(auto, unfolding(quaternion::specs::Euler::from_euler))]
    fn over(self, below: DQuat) -> DQuat {
        let turn = DQuat::from_euler(self.name, self.a, self.b, self.c).unwrap();
        step(below, turn)
    }
}

// Pan, then tilt.
impl Turning for Aim {
    ghost STEPS = { 2 };

    ghost truth = { aim_truth };

    ghost floats = { aim_floats };

    ghost unit = { aim_unit };

    ghost stands = { aim_stands };

    const STEPS: u8 = 2;

    #[tactic(auto, using(crate::specs::Passing::aim_turns))]
    fn over(self, below: DQuat) -> DQuat {
        let pan = DQuat::from_rotation_z(self.pan).unwrap();
        let tilt = DQuat::from_rotation_x(self.tilt).unwrap();
        two_steps(below, pan, tilt)
    }
}
