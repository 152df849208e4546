// A 4-dimensional vector.
ghost use Rattle.std.specs.Prelude.{◌≡◌};
ghost use Rattle.std.specs.Float.{binary64};
ghost use Rattle.std.specs.Float as Floats;
ghost use Rattle.fault.specs.Answers.{answer};
ghost use Rattle.exact.specs.Quat.{dot, square, plus, minus, scale};
ghost use Rattle.rounding.specs.Value.{floats};
ghost use Rattle.vectors.specs.Masks.{every};
ghost use Rattle.vectors.specs.Vectors.{vec4, vector4, parts4, finite4, nan4, unit, recip, over4, opposite4, size4, at_most, overflows, underflows, scaled, normal, normal_fault, close4};

use crate::{BVec4, Vector};
use fault::{RotationFault, unless};
use std::ops::{Add, Div, Mul, Neg, Sub};

// 2^600 and 2^-600: a vector whose squared length overflows, or is too small for all its digits, is scaled before it is normalised.
const LARGER: f64 = 4.149515568880993e180;

const SMALLER: f64 = 2.409919865102884e-181;

#[derive(Clone, Copy, PartialEq, Debug)]
pub struct DVec4 {
    pub x: f64,
    pub y: f64,
    pub z: f64,
    pub w: f64,
}

impl DVec4 {
    pub fn new(x: f64, y: f64, z: f64, w: f64) -> DVec4
        ensures { result ≡ vec4 x y z w }
    {
        DVec4 { x, y, z, w }
    }

    // All elements `v`.
    pub fn splat(v: f64) -> DVec4
        ensures { result ≡ vec4 v v v v }
    {
        DVec4 {
            x: v,
            y: v,
            z: v,
            w: v,
        }
    }

    // Which elements of `self` are at most those of `rhs`.
    pub fn cmple(self, rhs: DVec4) -> BVec4
        ensures { result ≡ at_most self rhs }
    {
        BVec4::new(
            self.x <= rhs.x,
            self.y <= rhs.y,
            self.z <= rhs.z,
            self.w <= rhs.w,
        )
    }

    // The size of each element.
    pub fn abs(self) -> DVec4
        ensures { parts4 result ≡ size4 (parts4 self) }
    {
        DVec4::new(self.x.abs(), self.y.abs(), self.z.abs(), self.w.abs())
    }

    // Whether finite components have an infinite squared length.
    fn overflows(self) -> bool
        ensures { result ≡ overflows (parts4 self) }
    {
        self.length_squared().is_infinite() && self.is_finite()
    }

    // Whether the squared length is subnormal, and so has lost digits.
    fn underflows(self) -> bool
        ensures { result ≡ underflows (parts4 self) }
    {
        let square = self.length_squared();
        0.0 < square && square < f64::MIN_POSITIVE
    }

    // `self`, or scaled so that its squared length is a normal number.
    fn in_range(self) -> DVec4
        ensures { parts4 result ≡ scaled (parts4 self) }
    {
        if self.overflows() {
            self * SMALLER
        } else if self.underflows() {
            self * LARGER
        } else {
            self
        }
    }

    // `self` normalised to length 1.
    #[tactic(auto, unfolding(crate::specs::Vectors::normal))]
    pub fn normalize(self) -> Result<DVec4, RotationFault>
        ensures { result ≡ answer (normal_fault (parts4 self)) (vector4 (normal (parts4 self))) }
    {
        let v = self.in_range();
        let normalized = v * v.length_recip();
        unless(normalized.is_finite(), RotationFault::NotNormalizable(0))?;
        Ok(normalized)
    }

    // Whether all components differ by at most `max_abs_diff`.
    pub fn abs_diff_eq(self, rhs: DVec4, max_abs_diff: f64) -> bool
        ensures { result ≡ close4 (parts4 self) (parts4 rhs) max_abs_diff }
    {
        (self - rhs).abs().cmple(DVec4::splat(max_abs_diff)).all()
    }
}

impl Vector for DVec4 {
    ghost inner = { λ u v. dot floats (parts4 u) (parts4 v) };

    ghost finite = { λ v. finite4 (parts4 v) };

    ghost some_nan = { λ v. nan4 (parts4 v) };

    fn dot(self, rhs: DVec4) -> f64 {
        (self.x * rhs.x) + (self.y * rhs.y) + (self.z * rhs.z) + (self.w * rhs.w)
    }

    fn is_finite(self) -> bool {
        self.x.is_finite() && self.y.is_finite() && self.z.is_finite() && self.w.is_finite()
    }

    fn is_nan(self) -> bool {
        self.x.is_nan() || self.y.is_nan() || self.z.is_nan() || self.w.is_nan()
    }
}

impl Add for DVec4 {
    type Output = DVec4;

    ghost add_gives = { λ u v r. parts4 r ≡ plus floats (parts4 u) (parts4 v) };

    fn add(self, rhs: DVec4) -> DVec4 {
        DVec4::new(
            self.x + rhs.x,
            self.y + rhs.y,
            self.z + rhs.z,
            self.w + rhs.w,
        )
    }
}

impl Sub for DVec4 {
    type Output = DVec4;

    ghost sub_gives = { λ u v r. parts4 r ≡ minus floats (parts4 u) (parts4 v) };

    fn sub(self, rhs: DVec4) -> DVec4 {
        DVec4::new(
            self.x - rhs.x,
            self.y - rhs.y,
            self.z - rhs.z,
            self.w - rhs.w,
        )
    }
}

impl Mul<f64> for DVec4 {
    type Output = DVec4;

    ghost mul_gives = { λ v s r. parts4 r ≡ scale floats (parts4 v) s };

    fn mul(self, rhs: f64) -> DVec4 {
        DVec4::new(self.x * rhs, self.y * rhs, self.z * rhs, self.w * rhs)
    }
}

impl Div<f64> for DVec4 {
    type Output = DVec4;

    ghost div_gives = { λ v s r. parts4 r ≡ over4 (parts4 v) s };

    fn div(self, rhs: f64) -> DVec4 {
        DVec4::new(self.x / rhs, self.y / rhs, self.z / rhs, self.w / rhs)
    }
}

impl Neg for DVec4 {
    type Output = DVec4;

    ghost neg_gives = { λ v r. parts4 r ≡ opposite4 (parts4 v) };

    fn neg(self) -> DVec4 {
        DVec4::new(-self.x, -self.y, -self.z, -self.w)
    }
}
