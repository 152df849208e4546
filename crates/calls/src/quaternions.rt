// The calls of DQuat.
use crate::answers::{Answer, answer, plain};
use crate::arguments::Call;
use quaternion::DQuat;
use vectors::{DVec4, Vector};

impl Call<'_> {
    pub(crate) fn on_quaternions(&mut self) -> Option<Answer> {
        self.made()
            .or_else(|| self.of_one())
            .or_else(|| self.of_two())
    }

    // What makes a quaternion.
    fn made(&mut self) -> Option<Answer> {
        Some(match self.name {
            "q.from_xyzw" => plain(DQuat::from_xyzw(self.f(), self.f(), self.f(), self.f())),
            "q.from_array" => plain(DQuat::from_array(self.a())),
            "q.from_vec4" => plain(DQuat::from_vec4(self.v4())),
            "q.from_slice" => answer(DQuat::from_slice(&self.a())),
            "q.from_axis_angle" => answer(DQuat::from_axis_angle(self.v3(), self.f())),
            "q.from_scaled_axis" => answer(DQuat::from_scaled_axis(self.v3())),
            "q.from_rotation_x" => answer(DQuat::from_rotation_x(self.f())),
            "q.from_rotation_y" => answer(DQuat::from_rotation_y(self.f())),
            "q.from_rotation_z" => answer(DQuat::from_rotation_z(self.f())),
            "q.from_euler" => answer(DQuat::from_euler(self.order(), self.f(), self.f(), self.f())),
            "q.from_rotation_axes" => answer(DQuat::from_rotation_axes(
                self.v3(),
                self.v3(),
                self.v3(),
            )),
            "q.from_mat3" => answer(DQuat::from_mat3(self.m())),
            "q.from_rotation_arc" => answer(DQuat::from_rotation_arc(self.v3(), self.v3())),
            "q.from_rotation_arc_colinear" => answer(DQuat::from_rotation_arc_colinear(
                self.v3(),
                self.v3(),
            )),
            "q.from_rotation_arc_2d" => answer(DQuat::from_rotation_arc_2d(self.v2(), self.v2())),
            _ => return None,
        })
    }

    // What one quaternion answers, perhaps with something that is none.
    fn of_one(&mut self) -> Option<Answer> {
        Some(match self.name {
            "q.to_array" => plain(self.q().to_array()),
            "q.to_vec4" => plain(DVec4::from(self.q())),
            "q.write_to_slice" => {
                let q = self.q();
                let mut four = self.a();
                answer(q.write_to_slice(&mut four).map(|()| four))
            }
            "q.to_axis_angle" => answer(self.q().to_axis_angle()),
            "q.to_scaled_axis" => answer(self.q().to_scaled_axis()),
            "q.to_euler" => answer(self.q().to_euler(self.order())),
            "q.xyz" => plain(self.q().xyz()),
            "q.conjugate" => plain(self.q().conjugate()),
            "q.inverse" => answer(self.q().inverse()),
            "q.length" => plain(self.q().length()),
            "q.length_squared" => plain(self.q().length_squared()),
            "q.length_recip" => plain(self.q().length_recip()),
            "q.normalize" => answer(self.q().normalize()),
            "q.is_finite" => plain(self.q().is_finite()),
            "q.is_nan" => plain(self.q().is_nan()),
            "q.is_normalized" => plain(self.q().is_normalized()),
            "q.is_near_identity" => plain(self.q().is_near_identity()),
            "q.mul_vec3" => answer(self.q().mul_vec3(self.v3())),
            "q.mul_f" => plain(self.q() * self.f()),
            "q.div_f" => plain(self.q() / self.f()),
            "q.neg" => plain(-self.q()),
            _ => return None,
        })
    }

    // What two quaternions answer, perhaps with a number.
    fn of_two(&mut self) -> Option<Answer> {
        Some(match self.name {
            "q.dot" => plain(self.q().dot(self.q())),
            "q.angle_between" => answer(self.q().angle_between(self.q())),
            "q.rotate_towards" => answer(self.q().rotate_towards(self.q(), self.f())),
            "q.abs_diff_eq" => plain(self.q().abs_diff_eq(self.q(), self.f())),
            "q.lerp" => answer(self.q().lerp(self.q(), self.f())),
            "q.slerp" => answer(self.q().slerp(self.q(), self.f())),
            "q.slerp_long" => answer(self.q().slerp_long(self.q(), self.f())),
            "q.mul_quat" => plain(self.q().mul_quat(self.q())),
            "q.add" => plain(self.q() + self.q()),
            "q.sub" => plain(self.q() - self.q()),
            "q.eq" => plain(self.q() == self.q()),
            "q.sum" => plain(DQuat::sum(&[self.q(), self.q()])),
            "q.product" => plain(DQuat::product(&[self.q(), self.q()])),
            _ => return None,
        })
    }
}
