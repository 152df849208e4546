// Quaternions from and to axes and angles, from three axes, and from one direction to another.
ghost use Rattle.std.specs.Prelude.{◌≡◌};
ghost use Rattle.fault.specs.Answers.{answer, tested};
ghost use Rattle.exact.specs.Vector.{scale3, dot3};
ghost use Rattle.rounding.specs.Value.{floats};
ghost use Rattle.vectors.specs.Vectors as V;
ghost use Rattle.numeric.specs.Floats.{minus_one};
ghost use Rattle.quaternion.specs.Quaternions.{parts, whole};
ghost use Rattle.quaternion.specs.Axes.{finite_fault, length_fault, axis_turn, axis_fault, at_most_angle, scaled_fault, about_scaled, scaled_turn, at_most_1e100, axis_angle_fault, axis_angle, scaled_axis, axes_fault, most_x, most_y, most_z, most_w, from_axes, opposed, arc_fault, around, across_answer, arc_answer, arc_to, colinear, arc_fault2, cross2, across2, arc2};

use crate::DQuat;
use fault::{NumberFault, RotationFault, unless};
use matrix::DMat3;
use numeric::{LARGEST_ANGLE, atan2_raw, check_angle, sin_cos_raw, sqrt};
use std::f64::consts::PI;
use vectors::{DVec2, DVec3, DVec4, Vector};

// ---- an axis and an angle

fn axis_turn(axis: DVec3, angle: f64) -> DQuat
    ensures { parts result ≡ axis_turn (V.parts axis) angle }
{
    let (s, c) = sin_cos_raw(angle * 0.5);
    let v = axis * s;
    DQuat::from_xyzw(v.x, v.y, v.z, c)
}

fn at_most_angle(v: DVec3) -> bool
    ensures { result ≡ at_most_angle (V.parts v) }
{
    v.x.abs() <= LARGEST_ANGLE
        && v.y.abs() <= LARGEST_ANGLE
        && v.z.abs() <= LARGEST_ANGLE
        && v.length() <= LARGEST_ANGLE
}

fn about_scaled(v: DVec3) -> DQuat
    ensures { parts result ≡ about_scaled (V.parts v) }
{
    let length = v.length();
    let axis = v / length;
    if axis.is_normalized() {
        axis_turn(axis, length)
    } else {
        DQuat::from_xyzw(v.x * 0.5, v.y * 0.5, v.z * 0.5, 1.0)
    }
}

#[tactic(auto, unfolding(crate::specs::Axes::scaled_turn))]
fn scaled_turn(v: DVec3) -> DQuat
    ensures { result ≡ scaled_turn (V.parts v) }
{
    if v.length() == 0.0 {
        DQuat::IDENTITY
    } else {
        about_scaled(v)
    }
}

fn at_most_1e100(q: DQuat) -> bool
    ensures { result ≡ at_most_1e100 (parts q) }
{
    DVec4::from(q).abs().cmple(DVec4::splat(1e100)).all()
}

#[tactic(auto, unfolding(crate::specs::Axes::axis_angle))]
fn axis_angle(q: DQuat) -> (DVec3, f64)
    ensures { result ≡ axis_angle (parts q) }
{
    let v = q.xyz();
    let length = v.length();
    if length >= 1.0e-8 {
        let angle = 2.0 * atan2_raw(length, q.w);
        (v / length, angle)
    } else {
        (DVec3::X, 0.0)
    }
}

impl DQuat {
    // The turn about a normalised `axis` by `angle` in radians.
    pub fn from_axis_angle(axis: DVec3, angle: f64) -> Result<DQuat, RotationFault>
        ensures { result ≡ answer (axis_fault (V.parts axis) angle) (whole (axis_turn (V.parts axis) angle)) }
    {
        axis.check_finite(0)?;
        check_angle(1, angle)?;
        axis.check_normalized(0)?;
        Ok(axis_turn(axis, angle))
    }

    // The turn about `v` by its length in radians.
    pub fn from_scaled_axis(v: DVec3) -> Result<DQuat, RotationFault>
        ensures { result ≡ answer (scaled_fault (V.parts v)) (scaled_turn (V.parts v)) }
    {
        v.check_finite(0)?;
        unless(at_most_angle(v), NumberFault::TooLarge(0))?;
        Ok(scaled_turn(v))
    }

    // The axis (normalised) and the angle (in radians) of `self`; the X axis and 0 where the vector part is shorter than 1e-8.
    pub fn to_axis_angle(self) -> Result<(DVec3, f64), RotationFault>
        ensures { result ≡ answer (axis_angle_fault (parts self)) (axis_angle (parts self)) }
    {
        self.check_finite(0)?;
        unless(at_most_1e100(self), NumberFault::TooLarge(0))?;
        Ok(axis_angle(self))
    }

    // The axis scaled by the angle in radians.
    pub fn to_scaled_axis(self) -> Result<DVec3, RotationFault>
        ensures { result ≡ answer (axis_angle_fault (parts self)) (scaled_axis (parts self)) }
    {
        let (axis, angle) = self.to_axis_angle()?;
        Ok(axis * angle)
    }
}

// ---- three axes

fn most_x(m: DMat3) -> DQuat
    ensures { parts result ≡ most_x (V.parts m.x_axis) (V.parts m.y_axis) (V.parts m.z_axis) }
{
    let (x, y, z) = (m.x_axis, m.y_axis, m.z_axis);
    let four_xsq = (1.0 - z.z) - (y.y - x.x);
    DQuat::from_xyzw(four_xsq, x.y + y.x, x.z + z.x, y.z - z.y) * (0.5 / sqrt(four_xsq))
}

fn most_y(m: DMat3) -> DQuat
    ensures { parts result ≡ most_y (V.parts m.x_axis) (V.parts m.y_axis) (V.parts m.z_axis) }
{
    let (x, y, z) = (m.x_axis, m.y_axis, m.z_axis);
    let four_ysq = (1.0 - z.z) + (y.y - x.x);
    DQuat::from_xyzw(x.y + y.x, four_ysq, y.z + z.y, z.x - x.z) * (0.5 / sqrt(four_ysq))
}

fn most_z(m: DMat3) -> DQuat
    ensures { parts result ≡ most_z (V.parts m.x_axis) (V.parts m.y_axis) (V.parts m.z_axis) }
{
    let (x, y, z) = (m.x_axis, m.y_axis, m.z_axis);
    let four_zsq = (1.0 + z.z) - (y.y + x.x);
    DQuat::from_xyzw(x.z + z.x, y.z + z.y, four_zsq, x.y - y.x) * (0.5 / sqrt(four_zsq))
}

fn most_w(m: DMat3) -> DQuat
    ensures { parts result ≡ most_w (V.parts m.x_axis) (V.parts m.y_axis) (V.parts m.z_axis) }
{
    let (x, y, z) = (m.x_axis, m.y_axis, m.z_axis);
    let four_wsq = (1.0 + z.z) + (y.y + x.x);
    DQuat::from_xyzw(y.z - z.y, z.x - x.z, x.y - y.x, four_wsq) * (0.5 / sqrt(four_wsq))
}

// By the largest of x², y², z² and w². After DirectXMath's XMQuaternionRotationMatrix.
#[tactic(auto, unfolding(crate::specs::Axes::from_axes))]
pub(crate) fn from_axes(m: DMat3) -> DQuat
    ensures { parts result ≡ from_axes (V.parts m.x_axis) (V.parts m.y_axis) (V.parts m.z_axis) }
{
    if m.z_axis.z <= 0.0 {
        if m.y_axis.y - m.x_axis.x <= 0.0 {
            most_x(m)
        } else {
            most_y(m)
        }
    } else if m.y_axis.y + m.x_axis.x <= 0.0 {
        most_z(m)
    } else {
        most_w(m)
    }
}

impl DQuat {
    // From the columns of a rotation matrix, which are to be normalised. Of axes that no rotation has it makes some quaternion.
    pub fn from_rotation_axes(
        x_axis: DVec3,
        y_axis: DVec3,
        z_axis: DVec3,
    ) -> Result<DQuat, RotationFault>
        ensures { result ≡ answer (axes_fault (V.parts x_axis) (V.parts y_axis) (V.parts z_axis)) (whole (from_axes (V.parts x_axis) (V.parts y_axis) (V.parts z_axis))) }
    {
        x_axis.check_finite(0)?;
        y_axis.check_finite(1)?;
        z_axis.check_finite(2)?;
        x_axis.check_normalized(0)?;
        y_axis.check_normalized(1)?;
        z_axis.check_normalized(2)?;
        Ok(from_axes(DMat3::from_cols(x_axis, y_axis, z_axis)))
    }
}

// ---- from one direction to another

// 1 − 2^-51
const NEARLY_ONE: f64 = 0.9999999999999996;

// 2^-48, which has nothing to do with the border of a pole, of the same size
const TINY_SQUARE: f64 = 3.552713678800501e-15;

fn opposed(dot: f64, square: f64) -> bool
    ensures { result ≡ opposed dot square }
{
    dot < -NEARLY_ONE || (dot < 0.0 && square <= TINY_SQUARE)
}

// Half a turn about an axis that is orthogonal to `from`.
#[tactic(auto, unfolding(crate::specs::Axes::around))]
fn around(from: DVec3) -> Result<DQuat, RotationFault>
    ensures { result ≡ around from }
{
    let axis = from.orthonormal_raw();
    axis.check_normalized(0)?;
    Ok(axis_turn(axis, PI))
}

#[tactic(auto, unfolding(crate::specs::Axes::across_answer))]
fn across(from: DVec3, to: DVec3) -> Result<DQuat, RotationFault>
    ensures { result ≡ across_answer (V.parts from) (V.parts to) }
{
    let c = from.cross(to);
    DQuat::from_xyzw(c.x, c.y, c.z, 1.0 + from.dot(to)).normalize()
}

#[tactic(auto, unfolding(crate::specs::Axes::arc_answer))]
fn arc(from: DVec3, to: DVec3) -> Result<DQuat, RotationFault>
    ensures { result ≡ arc_answer from to }
{
    let dot = from.dot(to);
    let c = from.cross(to);
    if dot > NEARLY_ONE {
        Ok(DQuat::IDENTITY)
    } else if opposed(dot, c.dot(c)) {
        around(from)
    } else {
        across(from, to)
    }
}

// The third component of the cross product of two vectors in the plane.
fn cross2(from: DVec2, to: DVec2) -> f64
    ensures { result ≡ cross2 from to }
{
    from.x * to.y - to.x * from.y
}

// In the plane the sum is normalised on the spot and never refused, so that this and `arc2` are no case of the two above.
fn across2(from: DVec2, to: DVec2) -> DQuat
    ensures { result ≡ across2 from to }
{
    let z = cross2(from, to);
    let w = 1.0 + from.dot(to);
    let len_rcp = 1.0 / sqrt(z * z + w * w);
    DQuat::from_xyzw(0.0, 0.0, z * len_rcp, w * len_rcp)
}

#[tactic(auto, unfolding(crate::specs::Axes::arc2))]
fn arc2(from: DVec2, to: DVec2) -> DQuat
    ensures { result ≡ arc2 from to }
{
    let dot = from.dot(to);
    let z = cross2(from, to);
    if dot > NEARLY_ONE {
        DQuat::IDENTITY
    } else if opposed(dot, z * z) {
        DQuat::from_xyzw(0.0, 0.0, 1.0, 0.0)
    } else {
        across2(from, to)
    }
}

impl DQuat {
    // The minimal rotation for transforming `from` to `to`, which are to be normalised.
    #[tactic(auto, unfolding(crate::specs::Axes::arc_to))]
    pub fn from_rotation_arc(from: DVec3, to: DVec3) -> Result<DQuat, RotationFault>
        ensures { result ≡ arc_to from to }
    {
        from.check_units(to)?;
        arc(from, to)
    }

    // The minimal rotation for transforming `from` to either `to` or `-to`.
    pub fn from_rotation_arc_colinear(from: DVec3, to: DVec3) -> Result<DQuat, RotationFault>
        ensures { result ≡ colinear from to }
    {
        if from.dot(to) < 0.0 {
            DQuat::from_rotation_arc(from, -to)
        } else {
            DQuat::from_rotation_arc(from, to)
        }
    }

    // The minimal rotation, around the z axis, for transforming `from` to `to`, which are to be normalised.
    pub fn from_rotation_arc_2d(from: DVec2, to: DVec2) -> Result<DQuat, RotationFault>
        ensures { result ≡ answer (arc_fault2 from to) (arc2 from to) }
    {
        from.check_units(to)?;
        Ok(arc2(from, to))
    }
}
