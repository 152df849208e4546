// The arc tangent of two numbers, the arc cosine by it, and the square root.
ghost use Rattle.std.specs.Prelude.{◌≡◌, IfOk};
ghost use Rattle.std.specs.Float.{binary64};
ghost use Rattle.std.specs.Float as Floats;
ghost use Rattle.fault.specs.Answers.{answer, ◌⨾◌};
ghost use Rattle.rounding.specs.Value.{Is};
ghost use Rattle.numeric.specs.Tests.{number_fault};
ghost use Rattle.numeric.specs.ArcTangent.{atan_kernel, atan_near, atan_unit, angle_up, atan2_float, acos_float};
ghost use Rattle.numeric.specs.Laws.{IsAngle, IsArcCosine, RootExample};

use crate::checks::check_number;
use crate::horner::{TINY, odd_polynomial};
use fault::NumberFault;
use std::f64::consts::{FRAC_PI_2, FRAC_PI_4, PI};

// The root of any f64, rounded once to the nearest.
pub fn sqrt(v: f64) -> f64
    ensures { result ≡ Floats.sqrt binary64 v }
{
    v.sqrt()
}

// Outwards from 1/13 to 1/3; 1/15 is the innermost.
const ODD_PARTS: [f64; 6] = [
    0.07692307692307693, // 1/13
    0.09090909090909091, // 1/11
    0.1111111111111111, // 1/9
    0.14285714285714285, // 1/7
    0.2, // 1/5
    0.3333333333333333, // 1/3
];

// u − u³/3 + … − u¹⁵/15
fn atan_kernel(u: f64) -> f64
    ensures { result ≡ atan_kernel u }
{
    odd_polynomial(u, 0.06666666666666667, &ODD_PARTS) // 1/15
}

// The arc tangent of a q near b, whose own is a.
#[tactic(auto, unfolding(crate::specs::ArcTangent::atan_near))]
fn atan_near(q: f64, b: f64, a: f64) -> f64
    ensures { result ≡ atan_near q b a }
{
    a + atan_kernel((q - b) / (1.0 + q * b))
}

// The arc tangent of a q from 0 to 1.
fn atan_unit(q: f64) -> f64
    ensures { result ≡ atan_unit q }
{
    if q < TINY {
        q
    } else if q < 0.125 {
        atan_kernel(q)
    } else if q < 0.375 {
        atan_near(q, 0.25, 0.24497866312686414)
    } else if q < 0.625 {
        atan_near(q, 0.5, 0.4636476090008061)
    } else if q < 0.875 {
        atan_near(q, 0.75, 0.6435011087932844)
    } else {
        atan_near(q, 1.0, FRAC_PI_4)
    }
}

// The angle of the point (x, y), for a y that is not negative; 0 at the origin. The two numbers stand apart, here and in what follows, as the C interface passes them.
fn angle_up(y: f64, x: f64) -> f64
    ensures { result ≡ angle_up y x }
{
    if x < 0.0 {
        if y <= -x {
            PI - atan_unit(y / -x)
        } else {
            FRAC_PI_2 + atan_unit(-x / y)
        }
    } else if y <= x {
        if 0.0 < x { atan_unit(y / x) } else { 0.0 }
    } else {
        FRAC_PI_2 - atan_unit(x / y)
    }
}

// The angle of the point (x, y) with no test of the numbers, for a caller that has tested them.
#[tactic(auto, unfolding(crate::specs::ArcTangent::atan2_float))]
pub fn atan2_raw(y: f64, x: f64) -> f64
    ensures value { result ≡ atan2_float y x }
    ensures near { Is y → Is x → IsAngle result y x }
{
    if y < 0.0 {
        -angle_up(-y, x)
    } else {
        angle_up(y, x)
    }
}

// The angle of the point (x, y) in radians, from −P to P; positive zero at the origin.
pub fn atan2(y: f64, x: f64) -> Result<f64, NumberFault>
    ensures value { result ≡ answer (number_fault 0 y ⨾ number_fault 1 x) (atan2_float y x) }
    ensures near { IfOk result (λ t. IsAngle t y x) }
{
    check_number(0, y)?;
    check_number(1, x)?;
    Ok(atan2_raw(y, x))
}

// The angle whose cosine is f with no test of f, for a caller that has tested it.
#[tactic(auto, using(crate::proofs::ArcCosine::arc_cosine_law))]
pub fn acos_raw(f: f64) -> f64
    ensures value { result ≡ acos_float f }
    ensures near { Is f → IsArcCosine result f }
{
    let g = f.clamp(-1.0, 1.0);
    atan2_raw(sqrt((1.0 - g) * (1.0 + g)), g)
}

// The angle in radians whose cosine is f, brought into −1..1 first.
pub fn acos_approx(f: f64) -> Result<f64, NumberFault>
    ensures value { result ≡ answer (number_fault 0 f) (acos_float f) }
    ensures near { IfOk result (λ t. IsArcCosine t f) }
{
    check_number(0, f)?;
    Ok(acos_raw(f))
}

// By the definition alone, √2 has the bits 3FF6A09E667F3BCD.
#[tactic(auto, using(crate::proofs::Roots::root_two))]
pub fn root_example_stands()
    ensures { RootExample }
{}
