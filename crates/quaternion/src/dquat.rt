// A quaternion representing an orientation. It is meant to be of length 1; products and roundings let it drift. Every call takes every
// quaternion; what is promised of those near length 1 stands under that premise, since a type for them would take fewer.
ghost use Rattle.std.specs.Prelude.{◌≡◌, [], ◌∷◌, IfOk};
ghost use Rattle.fault.specs.Answers.{answer};
ghost use Rattle.exact.specs.Quat.{product, dot, square, conjugate, plus, minus, scale};
ghost use Rattle.exact.specs.Vector.{vector, rotated};
ghost use Rattle.rounding.specs.Value.{floats};
ghost use Rattle.vectors.specs.Vectors as V;
ghost use Rattle.drift.specs.Tests.{unit_fault4, finite_fault4, length_fault4, turn_fault, image_fault, euler_fault};
ghost use Rattle.numeric.specs.Floats.{zero, one, minus_one, two};
ghost use Rattle.quaternion.specs.Quaternions.{quat, parts, whole, listed, four_fault, Wrote, near_identity, about_x, about_y, about_z};
ghost use Rattle.quaternion.specs.Euler.{from_euler};
ghost use Rattle.exact.specs.Turn as Turn;
ghost use Rattle.euler.specs.Orders.{letter};
ghost use Rattle.drift.specs.Turns as Floats;
ghost use Rattle.numeric.specs.Laws.{Angle};
ghost use Rattle.drift.specs.Laws.{Ample, Normalised, IsProduct, Turned, turned, IsTurn, Kept, Sound, Units, IsImage, Gives};
ghost use Rattle.quaternion.specs.EulerLaws.{IsEulerTurn};

use euler::{Axis, EulerRot, FromEuler};
use fault::RotationFault;
use numeric::{check_angle, sin_cos_raw};
use std::ops::{Add, AddAssign, Div, DivAssign, Mul, MulAssign, Neg, Sub, SubAssign};
use vectors::{DVec3, DVec4, Vector};

#[derive(Clone, Copy, PartialEq, Debug)]
pub struct DQuat {
    pub x: f64,
    pub y: f64,
    pub z: f64,
    pub w: f64,
}

impl DQuat {
    // All not a number.
    pub const NAN: DQuat = DQuat {
        x: f64::NAN,
        y: f64::NAN,
        z: f64::NAN,
        w: f64::NAN,
    };

    // The identity quaternion. Corresponds to no rotation.
    pub const IDENTITY: DQuat = DQuat {
        x: 0.0,
        y: 0.0,
        z: 0.0,
        w: 1.0,
    };

    pub fn from_xyzw(x: f64, y: f64, z: f64, w: f64) -> DQuat
        ensures { result ≡ quat x y z w }
    {
        DQuat { x, y, z, w }
    }

    pub fn from_array(a: [f64; 4]) -> DQuat
        ensures { result ≡ listed a }
    {
        DQuat::from_xyzw(a[0], a[1], a[2], a[3])
    }

    // The original's one name for this, as are the two of slices below, which refuse; it has no conversion of them by `From`.
    pub fn from_vec4(v: DVec4) -> DQuat
        ensures { parts result ≡ V.parts4 v }
    {
        DQuat::from_xyzw(v.x, v.y, v.z, v.w)
    }

    // From the first four numbers of a slice.
    pub fn from_slice(slice: &[f64]) -> Result<DQuat, RotationFault>
        ensures { result ≡ answer (four_fault 0 slice.now) (listed slice.now) }
    {
        let a = slice.first_chunk::<4>().ok_or(RotationFault::TooShort(0))?;
        Ok(DQuat::from_array(*a))
    }

    // Into the first four numbers of a slice; nothing is written where it is too short.
    pub fn write_to_slice(self, slice: &mut [f64]) -> Result<(), RotationFault>
        ensures { Wrote (parts self) slice.old result slice.new }
    {
        let four = slice
            .first_chunk_mut::<4>()
            .ok_or(RotationFault::TooShort(1))?;
        *four = self.to_array();
        Ok(())
    }

    pub fn to_array(self) -> [f64; 4]
        ensures { result ≡ self.x ∷ self.y ∷ self.z ∷ self.w ∷ [] }
    {
        [self.x, self.y, self.z, self.w]
    }

    // The turn about the x axis by `angle` in radians.
    pub fn from_rotation_x(angle: f64) -> Result<DQuat, RotationFault>
        ensures value { result ≡ answer (turn_fault angle) (about_x angle) }
        ensures turn { Angle angle → Gives (λ q. IsTurn Turn.X angle (parts q)) result }
    {
        about(Axis::X, angle)
    }

    // The turn about the y axis by `angle` in radians.
    pub fn from_rotation_y(angle: f64) -> Result<DQuat, RotationFault>
        ensures value { result ≡ answer (turn_fault angle) (about_y angle) }
        ensures turn { Angle angle → Gives (λ q. IsTurn Turn.Y angle (parts q)) result }
    {
        about(Axis::Y, angle)
    }

    // The turn about the z axis by `angle` in radians.
    pub fn from_rotation_z(angle: f64) -> Result<DQuat, RotationFault>
        ensures value { result ≡ answer (turn_fault angle) (about_z angle) }
        ensures turn { Angle angle → Gives (λ q. IsTurn Turn.Z angle (parts q)) result }
    {
        about(Axis::Z, angle)
    }

    // The turn of an Euler order by three angles in radians.
    pub fn from_euler(euler: EulerRot, a: f64, b: f64, c: f64) -> Result<DQuat, RotationFault>
        ensures value { result ≡ answer (euler_fault a b c) (from_euler euler a b c) }
        ensures near { IfOk result (λ q. IsEulerTurn euler a b c (parts q)) }
    {
        <DQuat as FromEuler>::from_euler_angles(euler, a, b, c)
    }

    // The vector part of the quaternion.
    pub fn xyz(self) -> DVec3
        ensures { V.parts result ≡ vector (parts self) }
    {
        DVec3::new(self.x, self.y, self.z)
    }

    // The conjugate: the inverse of a quaternion of length 1.
    pub fn conjugate(self) -> DQuat
        ensures { parts result ≡ conjugate floats (parts self) }
    {
        DQuat {
            x: -self.x,
            y: -self.y,
            z: -self.z,
            w: self.w,
        }
    }

    // The inverse of `self`, which is to be normalised.
    pub fn inverse(self) -> Result<DQuat, RotationFault>
        ensures { result ≡ answer (unit_fault4 0 (parts self)) (whole (conjugate floats (parts self))) }
    {
        self.check_unit(0)?;
        Ok(self.conjugate())
    }

    // `self` normalised to length 1.
    pub fn normalize(self) -> Result<DQuat, RotationFault>
        ensures value { result ≡ answer (V.normal_fault (parts self)) (whole (V.normal (parts self))) }
        ensures unit { Ample (parts self) → Gives (λ n. Normalised (parts self) (parts n)) result }
    {
        let v = DVec4::from(self).normalize()?;
        Ok(DQuat::from_vec4(v))
    }

    // Whether the scalar part is so near to 1 in size that the rotation is hardly one.
    pub fn is_near_identity(self) -> bool
        ensures { result ≡ near_identity (parts self) }
    {
        self.w.abs() > 0.99999999999999
    }

    // Whether all components differ by at most `max_abs_diff`.
    pub fn abs_diff_eq(self, rhs: DQuat, max_abs_diff: f64) -> bool
        ensures { result ≡ V.close4 (parts self) (parts rhs) max_abs_diff }
    {
        DVec4::from(self).abs_diff_eq(DVec4::from(rhs), max_abs_diff)
    }

    // The rotation `rhs` followed by `self`.
    pub fn mul_quat(self, rhs: DQuat) -> DQuat
        ensures value { parts result ≡ product floats (parts self) (parts rhs) }
        ensures near { IsProduct (parts self) (parts rhs) (parts result) }
    {
        let DQuat {
            x: x0,
            y: y0,
            z: z0,
            w: w0,
        } = self;
        let DQuat {
            x: x1,
            y: y1,
            z: z1,
            w: w1,
        } = rhs;
        DQuat::from_xyzw(
            w0 * x1 + x0 * w1 + y0 * z1 - z0 * y1,
            w0 * y1 - x0 * z1 + y0 * w1 + z0 * x1,
            w0 * z1 + x0 * y1 - y0 * x1 + z0 * w1,
            w0 * w1 - x0 * x1 - y0 * y1 - z0 * z1,
        )
    }

    // `self` turned by `rhs`: the product, normalised.
    pub fn turned(self, rhs: DQuat) -> Result<DQuat, RotationFault>
        ensures value { result ≡ answer (V.normal_fault (product floats (parts self) (parts rhs))) (whole (turned (parts self) (parts rhs))) }
        ensures near { Sound (parts self) → Kept (parts rhs) → Gives (λ n. Turned (parts self) (parts rhs) (parts n)) result }
    {
        self.mul_quat(rhs).normalize()
    }

    // The vector `rhs` rotated by `self`.
    pub fn mul_vec3(self, rhs: DVec3) -> Result<DVec3, RotationFault>
        ensures value { result ≡ answer (image_fault (parts self) (V.parts rhs)) (V.vector (rotated floats two (parts self) (V.parts rhs))) }
        ensures near { Kept (parts self) → Units (V.parts rhs) → Gives (λ v. IsImage (parts self) (V.parts rhs) (V.parts v)) result }
    {
        self.check_finite(0)?;
        rhs.check_finite(1)?;
        self.check_normalized(0)?;
        let w = self.w;
        let b = self.xyz();
        let b2 = b.dot(b);
        Ok(rhs * (w * w - b2) + b * (rhs.dot(b) * 2.0) + b.cross(rhs) * (w * 2.0))
    }
}

// The sine and the cosine of half an angle, as the turn about an axis.
fn along(axis: Axis, s: f64, c: f64) -> DQuat
    ensures { parts result ≡ Turn.along zero (letter axis) s c }
{
    match axis {
        Axis::X => DQuat::from_xyzw(s, 0.0, 0.0, c),
        Axis::Y => DQuat::from_xyzw(0.0, s, 0.0, c),
        Axis::Z => DQuat::from_xyzw(0.0, 0.0, s, c),
    }
}

// The turn about an axis by an angle, which is the call's first argument.
fn about(axis: Axis, angle: f64) -> Result<DQuat, RotationFault>
    ensures value { result ≡ answer (turn_fault angle) (whole (Floats.about (letter axis) angle)) }
    ensures turn { Angle angle → Gives (λ q. IsTurn (letter axis) angle (parts q)) result }
{
    check_angle(0, angle)?;
    let (s, c) = sin_cos_raw(angle * 0.5);
    Ok(along(axis, s, c))
}

impl From<[f64; 4]> for DQuat {
    ghost from_gives = { λ a q. q ≡ listed a };

    fn from(a: [f64; 4]) -> DQuat {
        DQuat::from_array(a)
    }
}

impl From<DQuat> for [f64; 4] {
    ghost from_gives = { λ q a. a ≡ q.x ∷ q.y ∷ q.z ∷ q.w ∷ [] };

    fn from(q: DQuat) -> [f64; 4] {
        q.to_array()
    }
}

impl From<DQuat> for DVec4 {
    ghost from_gives = { λ q v. V.parts4 v ≡ parts q };

    fn from(q: DQuat) -> DVec4 {
        DVec4::new(q.x, q.y, q.z, q.w)
    }
}

impl Vector for DQuat {
    ghost inner = { λ p q. dot floats (parts p) (parts q) };

    ghost finite = { λ q. V.finite4 (parts q) };

    ghost some_nan = { λ q. V.nan4 (parts q) };

    // The cosine of the angle between two rotations' quaternions.
    fn dot(self, rhs: DQuat) -> f64 {
        DVec4::from(self).dot(DVec4::from(rhs))
    }

    fn is_finite(self) -> bool {
        DVec4::from(self).is_finite()
    }

    fn is_nan(self) -> bool {
        DVec4::from(self).is_nan()
    }
}

// The sum is not guaranteed to be normalised.
impl Add for DQuat {
    type Output = DQuat;

    ghost add_gives = { λ p q r. parts r ≡ plus floats (parts p) (parts q) };

    fn add(self, rhs: DQuat) -> DQuat {
        DQuat::from_vec4(DVec4::from(self) + DVec4::from(rhs))
    }
}

impl Sub for DQuat {
    type Output = DQuat;

    ghost sub_gives = { λ p q r. parts r ≡ minus floats (parts p) (parts q) };

    fn sub(self, rhs: DQuat) -> DQuat {
        DQuat::from_vec4(DVec4::from(self) - DVec4::from(rhs))
    }
}

impl Mul for DQuat {
    type Output = DQuat;

    ghost mul_gives = { λ p q r. parts r ≡ product floats (parts p) (parts q) };

    fn mul(self, rhs: DQuat) -> DQuat {
        DQuat::mul_quat(self, rhs)
    }
}

impl Mul<f64> for DQuat {
    type Output = DQuat;

    ghost mul_gives = { λ q s r. parts r ≡ scale floats (parts q) s };

    fn mul(self, rhs: f64) -> DQuat {
        DQuat::from_vec4(DVec4::from(self) * rhs)
    }
}

impl Div<f64> for DQuat {
    type Output = DQuat;

    ghost div_gives = { λ q s r. parts r ≡ V.over4 (parts q) s };

    fn div(self, rhs: f64) -> DQuat {
        DQuat::from_vec4(DVec4::from(self) / rhs)
    }
}

impl Neg for DQuat {
    type Output = DQuat;

    ghost neg_gives = { λ q r. parts r ≡ scale floats (parts q) minus_one };

    fn neg(self) -> DQuat {
        self * -1.0
    }
}

impl Default for DQuat {
    ghost is_default = { λ q. q ≡ quat zero zero zero one };

    fn default() -> DQuat {
        DQuat::IDENTITY
    }
}

impl AddAssign for DQuat {
    ghost add_assign_gives = { λ p q r. parts r ≡ plus floats (parts p) (parts q) };

    fn add_assign(&mut self, rhs: DQuat) {
        *self = *self + rhs;
    }
}

impl SubAssign for DQuat {
    ghost sub_assign_gives = { λ p q r. parts r ≡ minus floats (parts p) (parts q) };

    fn sub_assign(&mut self, rhs: DQuat) {
        *self = *self - rhs;
    }
}

impl MulAssign for DQuat {
    ghost mul_assign_gives = { λ p q r. parts r ≡ product floats (parts p) (parts q) };

    fn mul_assign(&mut self, rhs: DQuat) {
        *self = self.mul_quat(rhs);
    }
}

impl MulAssign<f64> for DQuat {
    ghost mul_assign_gives = { λ q s r. parts r ≡ scale floats (parts q) s };

    fn mul_assign(&mut self, rhs: f64) {
        *self = *self * rhs;
    }
}

impl DivAssign<f64> for DQuat {
    ghost div_assign_gives = { λ q s r. parts r ≡ V.over4 (parts q) s };

    fn div_assign(&mut self, rhs: f64) {
        *self = *self / rhs;
    }
}
