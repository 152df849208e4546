// Ways from one rotation to another: the angle between two, and lerp and slerp. Both ends and the share stand one by one, as in the
// original's signatures.
ghost use Rattle.std.specs.Prelude.{◌≡◌};
ghost use Rattle.fault.specs.Answers.{answer, tested};
ghost use Rattle.quaternion.specs.Quaternions.{parts, whole};
ghost use Rattle.quaternion.specs.Interpolation.{way_fault, pair_fault, between_fault, towards_fault, between, mixed_answer, lerp_answer, swept, nearer, reaches, way, slerp_answer, slerp_long_answer, towards_answer};

use crate::DQuat;
use fault::RotationFault;
use numeric::{LARGEST_ANGLE, acos_raw, check_size, sin_cos_raw};
use vectors::Vector;

// A share of more than 300 in size is refused: the angles that it makes stay below 1000.
const LARGEST_SHARE: f64 = 300.0;

impl DQuat {
    // Tests for a way from `self` to `end` by a number of at most `largest` in size.
    fn check_way(self, end: DQuat, s: f64, largest: f64) -> Result<(), RotationFault>
        ensures { result ≡ answer (way_fault largest (parts self) (parts end) s) tt }
    {
        self.check_finite(0)?;
        end.check_finite(1)?;
        check_size(2, s, largest)?;
        self.check_normalized(0)?;
        end.check_normalized(1)
    }

    // The angle (in radians) for the minimal rotation from `self` to `rhs`, which are to be normalised.
    pub fn angle_between(self, rhs: DQuat) -> Result<f64, RotationFault>
        ensures { result ≡ answer (between_fault (parts self) (parts rhs)) (between (parts self) (parts rhs)) }
    {
        self.check_units(rhs)?;
        Ok(self.angle_raw(rhs))
    }

    // The same with no test.
    fn angle_raw(self, rhs: DQuat) -> f64
        ensures { result ≡ between (parts self) (parts rhs) }
    {
        acos_raw(self.dot(rhs).abs()) * 2.0
    }

    // Rotates towards `rhs` up to `max_angle` (in radians): at 0 the answer is `self`, at the angle between them or more `rhs`;
    // a negative one turns the other way.
    pub fn rotate_towards(self, rhs: DQuat, max_angle: f64) -> Result<DQuat, RotationFault>
        ensures { result ≡ tested (towards_fault (parts self) (parts rhs) max_angle) (towards_answer (parts self) (parts rhs) max_angle) }
    {
        self.check_way(rhs, max_angle, LARGEST_ANGLE)?;
        self.towards(rhs, max_angle)
    }

    #[tactic(auto, unfolding(crate::specs::Interpolation::towards_answer))]
    fn towards(self, rhs: DQuat, max_angle: f64) -> Result<DQuat, RotationFault>
        ensures { result ≡ towards_answer (parts self) (parts rhs) max_angle }
    {
        let angle = self.angle_raw(rhs);
        if reaches(angle, max_angle) {
            return Ok(rhs);
        }
        let s = (max_angle / angle).clamp(-1.0, 1.0);
        self.slerp_raw(rhs, s)
    }

    // The mean of `self` and `end`, weighted by 1 - s and s, and normalised.
    #[tactic(auto, unfolding(crate::specs::Interpolation::mixed_answer))]
    fn lerp_impl(self, end: DQuat, s: f64) -> Result<DQuat, RotationFault>
        ensures { result ≡ mixed_answer (parts self) (parts end) s }
    {
        (self * (1.0 - s) + end * s).normalize()
    }

    // Linear interpolation between `self` and `end` by the share `s`.
    pub fn lerp(self, end: DQuat, s: f64) -> Result<DQuat, RotationFault>
        ensures { result ≡ tested (pair_fault (parts self) (parts end) s) (lerp_answer (parts self) (parts end) s) }
    {
        self.check_way(end, s, LARGEST_SHARE)?;
        self.lerp_raw(end, s)
    }

    #[tactic(auto, unfolding(crate::specs::Interpolation::lerp_answer))]
    fn lerp_raw(self, end: DQuat, s: f64) -> Result<DQuat, RotationFault>
        ensures { result ≡ lerp_answer (parts self) (parts end) s }
    {
        let bias = if self.dot(end) >= 0.0 { 1.0 } else { -1.0 };
        self.lerp_impl(end * bias, s)
    }

    #[tactic(auto, unfolding(crate::specs::Interpolation::swept))]
    fn slerp_impl(self, end: DQuat, dot: f64, s: f64) -> DQuat
        ensures { parts result ≡ swept (parts self) (parts end) dot s }
    {
        let theta = acos_raw(dot);
        let scale1 = sin_cos_raw(theta * (1.0 - s)).0;
        let scale2 = sin_cos_raw(theta * s).0;
        let theta_sin = sin_cos_raw(theta).0;
        (self * scale1 + end * scale2) * (1.0 / theta_sin)
    }

    // Spherical interpolation between `self` and `end` by the share `s`, along the shorter way.
    pub fn slerp(self, end: DQuat, s: f64) -> Result<DQuat, RotationFault>
        ensures { result ≡ tested (pair_fault (parts self) (parts end) s) (slerp_answer (parts self) (parts end) s) }
    {
        self.check_way(end, s, LARGEST_SHARE)?;
        self.slerp_raw(end, s)
    }

    #[tactic(auto, unfolding(crate::specs::Interpolation::slerp_answer))]
    fn slerp_raw(self, end: DQuat, s: f64) -> Result<DQuat, RotationFault>
        ensures { result ≡ slerp_answer (parts self) (parts end) s }
    {
        let dot = self.dot(end);
        if dot < 0.0 {
            self.sweep(-end, -dot, s, -dot)
        } else {
            self.sweep(end, dot, s, dot)
        }
    }

    // Spherical interpolation between `self` and `end` by the share `s`, along the way that their signs give, which may be the longer one.
    pub fn slerp_long(self, end: DQuat, s: f64) -> Result<DQuat, RotationFault>
        ensures { result ≡ tested (pair_fault (parts self) (parts end) s) (slerp_long_answer (parts self) (parts end) s) }
    {
        self.check_way(end, s, LARGEST_SHARE)?;
        self.slerp_long_raw(end, s)
    }

    #[tactic(auto, unfolding(crate::specs::Interpolation::slerp_long_answer))]
    fn slerp_long_raw(self, end: DQuat, s: f64) -> Result<DQuat, RotationFault>
        ensures { result ≡ slerp_long_answer (parts self) (parts end) s }
    {
        let dot = self.dot(end);
        self.sweep(end, dot, s, dot.abs())
    }

    // Straight where `near` is so near to 1 that the sine of the angle between the two is lost.
    fn sweep(self, end: DQuat, dot: f64, s: f64, near: f64) -> Result<DQuat, RotationFault>
        ensures { result ≡ way (parts self) (parts end) dot s (nearer near) }
    {
        if nearer(near) {
            self.lerp_impl(end, s)
        } else {
            Ok(self.slerp_impl(end, dot, s))
        }
    }
}

// 1 - 2^-52: beyond it the arc cosine has lost its digits.
fn nearer(dot: f64) -> bool
    ensures { result ≡ nearer dot }
{
    dot > 0.9999999999999998
}

// So near, `rhs` itself is the answer, if the angle allowed reaches it.
fn reaches(angle: f64, max_angle: f64) -> bool
    ensures { result ≡ reaches angle max_angle }
{
    angle <= 1e-4 && angle <= max_angle
}
