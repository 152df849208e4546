// The matrix of an Euler order and three angles.
ghost use Rattle.std.specs.Prelude.{◌≡◌, IfOk};
ghost use Rattle.fault.specs.Answers.{answer};
ghost use Rattle.rounding.specs.Value.{floats};
ghost use Rattle.drift.specs.Tests.{euler_fault};
ghost use Rattle.drift.specs.Columns.{nine};
ghost use Rattle.matrix.specs.Angles.{placed, by_order, from_euler};
ghost use Rattle.matrix.specs.EulerLaws.{IsEulerMatrix};

use crate::DMat3;
use euler::{EulerRot, FromEuler, Order};
use fault::RotationFault;
use numeric::{check_angles, sin_cos_raw};

// From the sines and cosines of the angles, as they stand to the axes i, j and k. The products are the original's lines, as in the
// quaternion's text.
fn from_sines(order: Order, first: (f64, f64), middle: (f64, f64), last: (f64, f64)) -> DMat3
    ensures { result ≡ placed order (nine floats order.initial_repeated first middle last) }
{
    let (i, j, k) = order.angle_order();
    let (si, ci) = first;
    let (sj, cj) = middle;
    let (sh, ch) = last;
    let cc = ci * ch;
    let cs = ci * sh;
    let sc = si * ch;
    let ss = si * sh;
    let mut m = [[0.0; 3]; 3];
    if order.initial_repeated {
        m[i][i] = cj;
        m[i][j] = sj * si;
        m[i][k] = sj * ci;
        m[j][i] = sj * sh;
        m[j][j] = -cj * ss + cc;
        m[j][k] = -cj * cs - sc;
        m[k][i] = -sj * ch;
        m[k][j] = cj * sc + cs;
        m[k][k] = cj * cc - ss;
    } else {
        m[i][i] = cj * ch;
        m[i][j] = sj * sc - cs;
        m[i][k] = sj * cc + ss;
        m[j][i] = cj * sh;
        m[j][j] = sj * ss + cc;
        m[j][k] = sj * cs - sc;
        m[k][i] = -sj;
        m[k][j] = cj * si;
        m[k][k] = cj * ci;
    }
    DMat3::from_cols_array_2d(m)
}

// As the quaternion has such a text of its own: the original has one for each, behind `FromEuler`.
// With Ex the angles are read backwards; all are taken at the opposite where the parity is even.
#[tactic(auto, using(euler::proofs::Angles::each_read), unfolding(crate::specs::Angles::by_order))]
fn by_order(order: Order, x: f64, y: f64, z: f64) -> DMat3
    ensures { result ≡ by_order order x y z }
{
    let (first, middle, last) = order.as_read((x, y, z));
    from_sines(
        order,
        sin_cos_raw(order.signed(first)),
        sin_cos_raw(order.signed(middle)),
        sin_cos_raw(order.signed(last)),
    )
}

impl FromEuler for DMat3 {
    type Scalar = f64;

    ghost refusal = { λ _ x y z. euler_fault x y z };

    ghost rotation = { λ n x y z. from_euler n x y z };

    #[tactic(auto, unfolding(crate::specs::Angles::from_euler))]
    fn from_euler_angles(euler: EulerRot, x: f64, y: f64, z: f64) -> Result<DMat3, RotationFault> {
        check_angles(1, x, y, z)?;
        Ok(by_order(Order::from(euler), x, y, z))
    }
}

impl DMat3 {
    // The matrix of an Euler order and three angles in radians.
    pub fn from_euler(order: EulerRot, a: f64, b: f64, c: f64) -> Result<DMat3, RotationFault>
        ensures value { result ≡ answer (euler_fault a b c) (from_euler order a b c) }
        ensures near { IfOk result (λ m. IsEulerMatrix order a b c m) }
    {
        <DMat3 as FromEuler>::from_euler_angles(order, a, b, c)
    }
}
