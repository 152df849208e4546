// What turns a number away, named as the argument that it is of the call.
ghost use Rattle.std.specs.Prelude.{◌≡◌, IsTrue, OnOk};
ghost use Rattle.std.specs.Float.Ieee.{le};
ghost use Rattle.rounding.specs.Value.{Is};
ghost use Rattle.fault.specs.Answers.{answer};
ghost use Rattle.numeric.specs.Floats.{size};
ghost use Rattle.numeric.specs.Tests.{number_fault, size_fault, angle_fault, angles_fault};
ghost use Rattle.numeric.specs.Laws.{Angle};

use fault::{NumberFault, unless};

// What an angle is at most, in size.
pub const LARGEST_ANGLE: f64 = 1000.0;

// A number is finite.
#[tactic(auto, using(crate::proofs::Tests::number_is))]
pub fn check_number(argument: u8, v: f64) -> Result<(), NumberFault>
    ensures value { result ≡ answer (number_fault argument v) tt }
    ensures passed { OnOk result (Is v) }
{
    unless(v.is_finite(), NumberFault::NotFinite(argument))
}

// A number is at most `largest` in size.
pub fn check_size(argument: u8, v: f64, largest: f64) -> Result<(), NumberFault>
    ensures value { result ≡ answer (size_fault largest argument v) tt }
    ensures passed { OnOk result (Is v × IsTrue (le (size v) largest)) }
{
    check_number(argument, v)?;
    unless(v.abs() <= largest, NumberFault::TooLarge(argument))
}

// An angle is a number of at most 1000 in size.
#[tactic(auto, using(crate::proofs::Tests::angle_is))]
pub fn check_angle(argument: u8, v: f64) -> Result<(), NumberFault>
    ensures value { result ≡ answer (angle_fault argument v) tt }
    ensures passed { OnOk result (Angle v) }
{
    check_size(argument, v, LARGEST_ANGLE)
}

// Three angles, as the argument `first` and the two after it.
pub fn check_angles(first: u8, a: f64, b: f64, c: f64) -> Result<(), NumberFault>
    ensures value { result ≡ answer (angles_fault first a b c) tt }
    ensures passed { OnOk result (Angle a × Angle b × Angle c) }
{
    check_angle(first, a)?;
    check_angle(first.saturating_add(1), b)?;
    check_angle(first.saturating_add(2), c)
}
