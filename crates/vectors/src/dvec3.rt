// A 3-dimensional vector. Plain arithmetic takes every f64, and rounds each operation once, in the order written.
ghost use Rattle.std.specs.Prelude.{◌≡◌, [], ◌∷◌};
ghost use Rattle.std.specs.Float.Ieee as Ieee;
ghost use Rattle.std.specs.Float.{binary64};
ghost use Rattle.std.specs.Float as Floats;
ghost use Rattle.fault.specs.Answers.{answer};
ghost use Rattle.exact.specs.Vector.{dot3, cross3, scale3, plus3};
ghost use Rattle.rounding.specs.Value.{floats};
ghost use Rattle.vectors.specs.Masks.{index_fault};
ghost use Rattle.vectors.specs.Vectors.{parts, vec3, listed3, minus3, over3, opposite3, finite3, nan3, unit, unit_fault, recip, orthonormal, component};

use crate::Vector;
use fault::RotationFault;
use std::ops::{Add, Div, Mul, Neg, Sub};

#[derive(Clone, Copy, PartialEq, Debug)]
pub struct DVec3 {
    pub x: f64,
    pub y: f64,
    pub z: f64,
}

impl DVec3 {
    // All zeros.
    pub const ZERO: DVec3 = DVec3 {
        x: 0.0,
        y: 0.0,
        z: 0.0,
    };

    // A unit vector along the positive X axis.
    pub const X: DVec3 = DVec3 {
        x: 1.0,
        y: 0.0,
        z: 0.0,
    };

    // A unit vector along the positive Y axis.
    pub const Y: DVec3 = DVec3 {
        x: 0.0,
        y: 1.0,
        z: 0.0,
    };

    // A unit vector along the positive Z axis.
    pub const Z: DVec3 = DVec3 {
        x: 0.0,
        y: 0.0,
        z: 1.0,
    };

    // A unit vector along the negative Z axis: where a lamp that is not turned sends its beam.
    pub const NEG_Z: DVec3 = DVec3 {
        x: 0.0,
        y: 0.0,
        z: -1.0,
    };

    pub fn new(x: f64, y: f64, z: f64) -> DVec3
        ensures { result ≡ vec3 x y z }
    {
        DVec3 { x, y, z }
    }

    pub fn from_array(a: [f64; 3]) -> DVec3
        ensures { result ≡ listed3 a }
    {
        DVec3::new(a[0], a[1], a[2])
    }

    pub fn to_array(self) -> [f64; 3]
        ensures { result ≡ self.x ∷ self.y ∷ self.z ∷ [] }
    {
        [self.x, self.y, self.z]
    }

    // The original's `self[index]`, which panics where this refuses, so that `Index` would not do.
    pub fn at(self, index: usize) -> Result<f64, RotationFault>
        ensures { result ≡ answer (index_fault 3 index) (component self index) }
    {
        match index {
            0 => Ok(self.x),
            1 => Ok(self.y),
            2 => Ok(self.z),
            _ => Err(RotationFault::TooShort(1)),
        }
    }

    // The cross product of `self` and `rhs`.
    pub fn cross(self, rhs: DVec3) -> DVec3
        ensures { parts result ≡ cross3 floats (parts self) (parts rhs) }
    {
        DVec3::new(
            self.y * rhs.z - rhs.y * self.z,
            self.z * rhs.x - rhs.z * self.x,
            self.x * rhs.y - rhs.x * self.y,
        )
    }

    // A vector of length 1 that is orthogonal to `self`, which is to be normalised. After Duff et al., "Building an Orthonormal Basis, Revisited", 2017.
    pub fn any_orthonormal_vector(self) -> Result<DVec3, RotationFault>
        ensures { result ≡ answer (unit_fault 0 (parts self)) (orthonormal self) }
    {
        self.check_unit(0)?;
        Ok(self.orthonormal_raw())
    }

    // The same with no test, for a caller that has tested the vector.
    pub fn orthonormal_raw(self) -> DVec3
        ensures { result ≡ orthonormal self }
    {
        let sign = self.z.signum();
        let a = -1.0 / (sign + self.z);
        let b = self.x * self.y * a;
        DVec3::new(b, sign + self.y * self.y * a, -self.y)
    }

    // The components in the opposite order.
    pub fn zyx(self) -> DVec3
        ensures { result ≡ vec3 self.z self.y self.x }
    {
        DVec3::new(self.z, self.y, self.x)
    }
}

impl From<[f64; 3]> for DVec3 {
    ghost from_gives = { λ a v. v ≡ listed3 a };

    fn from(a: [f64; 3]) -> DVec3 {
        DVec3::from_array(a)
    }
}

impl From<DVec3> for [f64; 3] {
    ghost from_gives = { λ v a. a ≡ v.x ∷ v.y ∷ v.z ∷ [] };

    fn from(v: DVec3) -> [f64; 3] {
        v.to_array()
    }
}

impl Vector for DVec3 {
    ghost inner = { λ u v. dot3 floats (parts u) (parts v) };

    ghost finite = { λ v. finite3 (parts v) };

    ghost some_nan = { λ v. nan3 (parts v) };

    fn dot(self, rhs: DVec3) -> f64 {
        (self.x * rhs.x) + (self.y * rhs.y) + (self.z * rhs.z)
    }

    fn is_finite(self) -> bool {
        self.x.is_finite() && self.y.is_finite() && self.z.is_finite()
    }

    fn is_nan(self) -> bool {
        self.x.is_nan() || self.y.is_nan() || self.z.is_nan()
    }
}

impl Add for DVec3 {
    type Output = DVec3;

    ghost add_gives = { λ u v r. parts r ≡ plus3 floats (parts u) (parts v) };

    fn add(self, rhs: DVec3) -> DVec3 {
        DVec3::new(self.x + rhs.x, self.y + rhs.y, self.z + rhs.z)
    }
}

impl Sub for DVec3 {
    type Output = DVec3;

    ghost sub_gives = { λ u v r. parts r ≡ minus3 (parts u) (parts v) };

    fn sub(self, rhs: DVec3) -> DVec3 {
        DVec3::new(self.x - rhs.x, self.y - rhs.y, self.z - rhs.z)
    }
}

impl Mul<f64> for DVec3 {
    type Output = DVec3;

    ghost mul_gives = { λ v s r. parts r ≡ scale3 floats (parts v) s };

    fn mul(self, rhs: f64) -> DVec3 {
        DVec3::new(self.x * rhs, self.y * rhs, self.z * rhs)
    }
}

impl Div<f64> for DVec3 {
    type Output = DVec3;

    ghost div_gives = { λ v s r. parts r ≡ over3 (parts v) s };

    fn div(self, rhs: f64) -> DVec3 {
        DVec3::new(self.x / rhs, self.y / rhs, self.z / rhs)
    }
}

impl Neg for DVec3 {
    type Output = DVec3;

    ghost neg_gives = { λ v r. parts r ≡ opposite3 (parts v) };

    fn neg(self) -> DVec3 {
        DVec3::new(-self.x, -self.y, -self.z)
    }
}
