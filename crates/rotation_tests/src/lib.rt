// Examples at the edges, run after they are proved safe.
#![tactic(auto)]

#[cfg(test)]
mod tests {
    use euler::{EulerRot, Order};
    use fault::{Fault, NumberFault, RotationFault};
    use numeric::{acos_approx, atan2, cos, sin, sqrt};
    use quaternion::DQuat;
    use std::num::f64_to_bits_with_nan;
    use vectors::DVec3;

    fn bits(r: Result<f64, NumberFault>) -> Result<u64, NumberFault> {
        r.map(|x| f64_to_bits_with_nan(x))
    }

    #[test]
    fn angles_end_at_a_thousand(rt: HostRuntime) {
        assert!(rt; sin(1000.0).is_ok());
        assert!(rt; sin(-1000.0).is_ok());
        assert_eq!(rt;
            sin(1000.0000000000001).map_err(|fault| fault.number()),
            Err(2)
        );
        assert_eq!(rt; cos(f64::INFINITY).map_err(|fault| fault.number()), Err(1));
        assert_eq!(rt;
            DQuat::from_euler(EulerRot::ZYX, 2000.0, f64::NAN, 0.0).map_err(|fault| fault.number()),
            Err(2)
        );
        assert_eq!(rt;
            DQuat::from_euler(EulerRot::ZYX, 0.0, f64::NAN, 2000.0).map_err(|fault| fault.number()),
            Err(1)
        );
    }

    #[test]
    fn roots_and_angles_at_known_places(rt: HostRuntime) {
        assert_eq!(rt; f64_to_bits_with_nan(sqrt(2.0)), 0x3FF6_A09E_667F_3BCD);
        assert_eq!(rt;
            bits(atan2(0.0, -1.0)),
            Ok(0x4009_21FB_5444_2D18),
            "a half turn"
        );
        assert_eq!(rt;
            bits(atan2(-0.0, -1.0)),
            Ok(0x4009_21FB_5444_2D18),
            "positive for either zero"
        );
        assert_eq!(rt; bits(atan2(-0.0, -0.0)), Ok(0), "two zeros");
        assert_eq!(rt;
            bits(atan2(1.0, 1.0)),
            Ok(0x3FE9_21FB_5444_2D18),
            "an eighth turn"
        );
        assert_eq!(rt; bits(acos_approx(2.0)), Ok(0), "brought into -1..1");
        assert_eq!(rt;
            bits(sin(-0.0)),
            Ok(0x8000_0000_0000_0000),
            "the sine keeps the sign of zero"
        );
    }

    #[test]
    fn names_are_spelled_exactly(rt: HostRuntime) {
        assert_eq!(rt; "XZXEx".parse::<EulerRot>(), Ok(EulerRot::XZXEx));
        assert_eq!(rt;
            "XZXex".parse::<EulerRot>(),
            Err(RotationFault::UnknownOrder(0))
        );
        assert_eq!(rt; "".parse::<EulerRot>(), Err(RotationFault::UnknownOrder(0)));
        assert_eq!(rt; EulerRot::YZXEx.name(), "YZXEx");
        assert_eq!(rt; Order::from(EulerRot::YZXEx).angle_order(), (0, 2, 1));
    }

    #[test]
    fn short_slices_are_refused_and_stay(rt: HostRuntime) {
        let q = DQuat::from_xyzw(1.0, 2.0, 3.0, 4.0);
        assert_eq!(rt;
            DQuat::from_slice(&[1.0, 2.0, 3.0]),
            Err(RotationFault::TooShort(0))
        );
        assert_eq!(rt; DQuat::from_slice(&[1.0, 2.0, 3.0, 4.0, 5.0]), Ok(q));
        let mut three = [7.0, 8.0, 9.0];
        assert_eq!(rt;
            q.write_to_slice(&mut three),
            Err(RotationFault::TooShort(1))
        );
        assert_eq!(rt; three, [7.0, 8.0, 9.0], "nothing is written");
        let mut five = [0.0, 0.0, 0.0, 0.0, 5.0];
        assert_eq!(rt; q.write_to_slice(&mut five), Ok(()));
        assert_eq!(rt; five, [1.0, 2.0, 3.0, 4.0, 5.0]);
    }

    #[test]
    fn products_do_not_commute(rt: HostRuntime) {
        let i = DQuat::from_xyzw(1.0, 0.0, 0.0, 0.0);
        let j = DQuat::from_xyzw(0.0, 1.0, 0.0, 0.0);
        assert_eq!(rt; i.mul_quat(j), DQuat::from_xyzw(0.0, 0.0, 1.0, 0.0));
        assert_eq!(rt; j.mul_quat(i), DQuat::from_xyzw(0.0, 0.0, -1.0, 0.0));
        assert_eq!(rt; i.mul_vec3(DVec3::NEG_Z), Ok(DVec3::Z));
        let long = DQuat::from_xyzw(0.0, 0.0, 0.0, 1.1);
        assert_eq!(rt;
            long.mul_vec3(DVec3::NEG_Z),
            Err(RotationFault::NotNormalized(0))
        );
    }
}
