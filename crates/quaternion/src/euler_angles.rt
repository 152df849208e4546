// The quaternion of an Euler order and three angles.
ghost use Rattle.std.specs.Prelude.{◌≡◌};
ghost use Rattle.rounding.specs.Value.{floats};
ghost use Rattle.quaternion.specs.Quaternions.{parts};
ghost use Rattle.drift.specs.Tests.{euler_fault};
ghost use Rattle.drift.specs.Turns.{by_order, angle, parity, assembled};
ghost use Rattle.quaternion.specs.Euler.{from_euler};

use crate::DQuat;
use euler::{EulerRot, FromEuler, Order};
use fault::RotationFault;
use numeric::{check_angles, sin_cos_raw};

// From the sines and cosines of half the angles, as they stand to the axes i, j and k. The products are the original's lines, as in
// the matrix's text.
fn from_halves(order: Order, first: (f64, f64), middle: (f64, f64), last: (f64, f64)) -> DQuat
    ensures { parts result ≡ assembled floats (parity order.parity_even) order (angle first) (angle middle) (angle last) }
{
    let (i, j, k) = order.angle_order();
    let (si, ci) = first;
    let (sj, cj) = middle;
    let (sh, ch) = last;
    let cc = ci * ch;
    let cs = ci * sh;
    let sc = si * ch;
    let ss = si * sh;
    let parity = if !order.parity_even { 1.0 } else { -1.0 };
    let mut a = [0.0; 4];
    if order.initial_repeated {
        a[i] = cj * (cs + sc);
        a[j] = sj * (cc + ss) * parity;
        a[k] = sj * (cs - sc);
        a[3] = cj * (cc - ss);
    } else {
        a[i] = cj * sc - sj * cs;
        a[j] = (cj * ss + sj * cc) * parity;
        a[k] = cj * cs - sj * sc;
        a[3] = cj * cc + sj * ss;
    }
    DQuat::from_array(a)
}

// As the matrix has such a text of its own: the original has one for each, behind `FromEuler`.
// With Ex the angles are read backwards; the middle one is taken at the opposite where the parity is even.
#[tactic(auto, using(euler::proofs::Angles::each_read), unfolding(drift::specs::Turns::by_order))]
fn by_order(order: Order, x: f64, y: f64, z: f64) -> DQuat
    ensures { parts result ≡ by_order order x y z }
{
    let (first, middle, last) = order.as_read((x, y, z));
    from_halves(
        order,
        sin_cos_raw(first * 0.5),
        sin_cos_raw(order.signed(middle) * 0.5),
        sin_cos_raw(last * 0.5),
    )
}

impl FromEuler for DQuat {
    type Scalar = f64;

    ghost refusal = { λ _ x y z. euler_fault x y z };

    ghost rotation = { λ n x y z. from_euler n x y z };

    #[tactic(auto, unfolding(crate::specs::Euler::from_euler))]
    fn from_euler_angles(euler: EulerRot, x: f64, y: f64, z: f64) -> Result<DQuat, RotationFault> {
        check_angles(1, x, y, z)?;
        Ok(by_order(Order::from(euler), x, y, z))
    }
}
