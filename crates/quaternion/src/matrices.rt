// Quaternions and matrices into each other, and the angles of a quaternion.
ghost use Rattle.std.specs.Prelude.{◌≡◌};
ghost use Rattle.fault.specs.Answers.{answer};
ghost use Rattle.matrix.specs.Matrices.{axes_fault};
ghost use Rattle.drift.specs.Tests.{unit_fault4};
ghost use Rattle.quaternion.specs.Quaternions.{parts};
ghost use Rattle.quaternion.specs.Matrices.{to_matrix, of_matrix, to_angles};
ghost use Rattle.quaternion.specs.declared.dquat.DQuat.{DQuat as Q};

use crate::DQuat;
use crate::axes::from_axes;
use euler::{EulerRot, ToEuler};
use fault::RotationFault;
use matrix::DMat3;
use vectors::{DVec3, Vector};

// What a quaternion makes: the original's `DMat3::from_quat`.
pub trait FromQuat: Sized {
    ghost rotated: { Q → Self };

    fn from_quat(rotation: DQuat) -> Result<Self, RotationFault>
        ensures { result ≡ answer (unit_fault4 0 (parts rotation)) (rotated rotation) };
}

// The images of X, Y and Z.
#[tactic(auto, unfolding(crate::specs::Matrices::to_matrix))]
fn to_matrix(rotation: DQuat) -> DMat3
    ensures { result ≡ to_matrix rotation }
{
    let x2 = rotation.x + rotation.x;
    let y2 = rotation.y + rotation.y;
    let z2 = rotation.z + rotation.z;
    let xx = rotation.x * x2;
    let xy = rotation.x * y2;
    let xz = rotation.x * z2;
    let yy = rotation.y * y2;
    let yz = rotation.y * z2;
    let zz = rotation.z * z2;
    let wx = rotation.w * x2;
    let wy = rotation.w * y2;
    let wz = rotation.w * z2;
    DMat3::from_cols(
        DVec3::new(1.0 - (yy + zz), xy + wz, xz - wy),
        DVec3::new(xy - wz, 1.0 - (xx + zz), yz + wx),
        DVec3::new(xz + wy, yz - wx, 1.0 - (xx + yy)),
    )
}

impl FromQuat for DMat3 {
    ghost rotated = { λ q. to_matrix q };

    fn from_quat(rotation: DQuat) -> Result<DMat3, RotationFault> {
        rotation.check_unit(0)?;
        Ok(to_matrix(rotation))
    }
}

impl DQuat {
    // From a rotation matrix, whose columns are to be normalised.
    pub fn from_mat3(mat: DMat3) -> Result<DQuat, RotationFault>
        ensures { result ≡ answer (axes_fault mat) (of_matrix mat) }
    {
        mat.check_axes()?;
        Ok(from_axes(mat))
    }

    // The angles of `self`, which is to be normalised, in the given order.
    pub fn to_euler(self, order: EulerRot) -> Result<(f64, f64, f64), RotationFault>
        ensures { result ≡ answer (unit_fault4 0 (parts self)) (to_angles self order) }
    {
        let matrix = <DMat3 as FromQuat>::from_quat(self)?;
        Ok(<DMat3 as ToEuler>::to_euler_angles(matrix, order))
    }
}
