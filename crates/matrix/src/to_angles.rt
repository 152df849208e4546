// The three angles of a matrix in an Euler order.
ghost use Rattle.std.specs.Prelude.{◌≡◌};
ghost use Rattle.fault.specs.Answers.{answer};
ghost use Rattle.euler.specs.Orders.{angle_order};
ghost use Rattle.matrix.specs.Matrices.{entry, axes_fault};
ghost use Rattle.matrix.specs.Angles.{repeated_angles, plain_angles, angles_of, to_euler, pole};

use crate::DMat3;
use euler::{EulerRot, Order, ToEuler};
use fault::RotationFault;
use numeric::{atan2_raw, sqrt};

// Below this a cosine or a sine of the middle angle counts as lost: 16 times the distance from 1 to the next f64.
const POLE: f64 = 3.552713678800501e-15;

// The two formulas take the axis numbers one by one, as the original writes them; a struct of the three would be no plainer.
impl DMat3 {
    fn repeated_angles(self, i: usize, j: usize, k: usize, border: f64) -> (f64, f64, f64)
        ensures { result ≡ repeated_angles (entry self) i j k border }
    {
        let sy = sqrt(self.entry(i, j) * self.entry(i, j) + self.entry(i, k) * self.entry(i, k));
        if sy > border {
            (
                atan2_raw(self.entry(i, j), self.entry(i, k)),
                atan2_raw(sy, self.entry(i, i)),
                atan2_raw(self.entry(j, i), -self.entry(k, i)),
            )
        } else {
            (
                atan2_raw(-self.entry(j, k), self.entry(j, j)),
                atan2_raw(sy, self.entry(i, i)),
                0.0,
            )
        }
    }

    fn plain_angles(self, i: usize, j: usize, k: usize, border: f64) -> (f64, f64, f64)
        ensures { result ≡ plain_angles (entry self) i j k border }
    {
        let cy = sqrt(self.entry(i, i) * self.entry(i, i) + self.entry(j, i) * self.entry(j, i));
        if cy > border {
            (
                atan2_raw(self.entry(k, j), self.entry(k, k)),
                atan2_raw(-self.entry(k, i), cy),
                atan2_raw(self.entry(j, i), self.entry(i, i)),
            )
        } else {
            (
                atan2_raw(-self.entry(j, k), self.entry(j, j)),
                atan2_raw(-self.entry(k, i), cy),
                0.0,
            )
        }
    }

    fn angles(self, order: Order, border: f64) -> (f64, f64, f64)
        ensures { result ≡ angles_of order.initial_repeated (entry self) (angle_order order) border }
    {
        let (i, j, k) = order.angle_order();
        if order.initial_repeated {
            self.repeated_angles(i, j, k, border)
        } else {
            self.plain_angles(i, j, k, border)
        }
    }

    // The angles with no test of the matrix, for a caller that has tested it; `border` stands for the pole's.
    #[tactic(auto, using(euler::proofs::Angles::each_signed), unfolding(crate::specs::Angles::to_euler))]
    pub fn to_euler_raw(self, euler: EulerRot, border: f64) -> (f64, f64, f64)
        ensures { result ≡ to_euler border self euler }
    {
        let order = Order::from(euler);
        let (first, middle, last) = self.angles(order, border);
        order.as_read((
            order.signed(first),
            order.signed(middle),
            order.signed(last),
        ))
    }

    // The angles of a matrix with normalised columns in the given order. Near the pole, where the middle angle is a quarter turn
    // (or, for an order that repeats its first letter, none), only a combination of the other two is known.
    pub fn to_euler(self, order: EulerRot) -> Result<(f64, f64, f64), RotationFault>
        ensures { result ≡ answer (axes_fault self) (to_euler pole self order) }
    {
        self.check_axes()?;
        Ok(<DMat3 as ToEuler>::to_euler_angles(self, order))
    }
}

impl ToEuler for DMat3 {
    type Scalar = f64;

    ghost angles = { λ m n. to_euler pole m n };

    fn to_euler_angles(self, order: EulerRot) -> (f64, f64, f64) {
        self.to_euler_raw(order, POLE)
    }
}
