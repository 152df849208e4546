// What vectors of every size have, and quaternions: lengths, and the tests of an argument.
ghost use Rattle.std.specs.Prelude.{◌≡◌, Bool, Float};
ghost use Rattle.std.specs.Float.{binary64, sqrt as root};
ghost use Rattle.fault.specs.Answers.{unless, within, ◌⨾◌, answer};
ghost use Rattle.fault.specs.declared.NumberFault.TheVariants.{NotFinite};
ghost use Rattle.fault.specs.declared.RotationFault.TheVariants.{Number, NotNormalized};
ghost use Rattle.vectors.specs.Lengths.{unit, recip};

use fault::{NumberFault, RotationFault, unless};
use numeric::sqrt;

pub trait Vector: Copy {
    ghost inner: { Self → Self → Float };

    ghost finite: { Self → Bool };

    ghost some_nan: { Self → Bool };

    // The dot product of `self` and `rhs`.
    fn dot(self, rhs: Self) -> f64
        ensures { result ≡ inner self rhs };

    // Whether every component is finite.
    fn is_finite(self) -> bool
        ensures { result ≡ finite self };

    // Whether some component is no number.
    fn is_nan(self) -> bool
        ensures { result ≡ some_nan self };

    // The length of `self`.
    fn length(self) -> f64
        ensures { result ≡ root binary64 (inner self self) }
    {
        sqrt(self.dot(self))
    }

    // The squared length of `self`.
    fn length_squared(self) -> f64
        ensures { result ≡ inner self self }
    {
        self.dot(self)
    }

    // `1.0 / length()`.
    fn length_recip(self) -> f64
        ensures { result ≡ recip (inner self self) }
    {
        1.0 / self.length()
    }

    // Whether the squared length is within 2e-4 of 1.
    fn is_normalized(self) -> bool
        ensures { result ≡ unit (inner self self) }
    {
        (self.length_squared() - 1.0).abs() <= 2e-4
    }

    // 1 where an argument of a call is not finite.
    fn check_finite(self, argument: u8) -> Result<(), NumberFault>
        ensures { result ≡ answer (unless (finite self) (NotFinite argument)) tt }
    {
        unless(self.is_finite(), NumberFault::NotFinite(argument))
    }

    // 3 where an argument that has to be normalised is not.
    fn check_normalized(self, argument: u8) -> Result<(), RotationFault>
        ensures { result ≡ answer (unless (unit (inner self self)) (NotNormalized argument)) tt }
    {
        unless(self.is_normalized(), RotationFault::NotNormalized(argument))
    }

    // What has to be normalised: 1, then 3.
    fn check_unit(self, argument: u8) -> Result<(), RotationFault>
        ensures { result ≡ answer (within Number (unless (finite self) (NotFinite argument)) ⨾ unless (unit (inner self self)) (NotNormalized argument)) tt }
    {
        self.check_finite(argument)?;
        self.check_normalized(argument)
    }

    // Two that have to be normalised, as arguments 0 and 1: 1 of each, then 3 of each.
    fn check_units(self, rhs: Self) -> Result<(), RotationFault>
        ensures { result ≡ answer (within Number (unless (finite self) (NotFinite 0) ⨾ unless (finite rhs) (NotFinite 1)) ⨾ unless (unit (inner self self)) (NotNormalized 0) ⨾ unless (unit (inner rhs rhs)) (NotNormalized 1)) tt }
    {
        self.check_finite(0)?;
        rhs.check_finite(1)?;
        self.check_normalized(0)?;
        rhs.check_normalized(1)
    }
}
