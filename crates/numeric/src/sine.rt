// Sine and cosine: the nearest number of quarter turns is taken off, and a polynomial is left.
ghost use Rattle.std.specs.Prelude.{◌≡◌, IfOk};
ghost use Rattle.fault.specs.Answers.{answer};
ghost use Rattle.numeric.specs.Tests.{angle_fault};
ghost use Rattle.numeric.specs.Sine.{sin_kernel, cos_kernel, quarter_turns, remainder, turned, upward, signed, sin_float, cos_float};
ghost use Rattle.numeric.specs.Laws.{Angle, IsSine, IsCosine};

use crate::checks::check_angle;
use crate::horner::{TINY, horner, odd_polynomial};
use fault::NumberFault;
use std::f64::consts::FRAC_2_PI;
use std::num::saturating_f64_to_u32;

// P/2 in two parts: its leading 31 binary digits, and the nearest f64 to the rest
const QUARTER_HIGH: f64 = 1.5707963267341256;

const QUARTER_LOW: f64 = 6.077100506506192e-11;

// Outwards from 1/13! to 1/3!; 1/15! is the innermost.
const ODD_INVERSES: [f64; 6] = [
    1.6059043836821613e-10, // 1/13!
    2.505210838544172e-08, // 1/11!
    2.7557319223985893e-06, // 1/9!
    0.0001984126984126984, // 1/7!
    0.008333333333333333, // 1/5!
    0.16666666666666666, // 1/3!
];

// Outwards from 1/14! to 1; 1/16! is the innermost.
const EVEN_INVERSES: [f64; 8] = [
    1.1470745597729725e-11, // 1/14!
    2.08767569878681e-09, // 1/12!
    2.755731922398589e-07, // 1/10!
    2.48015873015873e-05, // 1/8!
    0.001388888888888889, // 1/6!
    0.041666666666666664, // 1/4!
    0.5, // 1/2!
    1.0,
];

// r − r³/3! + … − r¹⁵/15!
fn sin_kernel(r: f64) -> f64
    ensures { result ≡ sin_kernel r }
{
    odd_polynomial(r, 7.647163731819816e-13, &ODD_INVERSES) // 1/15!
}

// 1 − r²/2! + … + r¹⁶/16!
fn cos_kernel(r: f64) -> f64
    ensures { result ≡ cos_kernel r }
{
    horner(r * r, 4.779477332387385e-14, &EVEN_INVERSES) // 1/16!
}

// The quarter turns of an angle that is not negative: the nearest number of them, or its neighbour.
fn quarter_turns(a: f64) -> u32
    ensures { result ≡ quarter_turns a }
{
    saturating_f64_to_u32(a * FRAC_2_PI + 0.5)
}

// What k quarter turns leave of a.
fn remainder(a: f64, k: u32) -> f64
    ensures { result ≡ remainder a k }
{
    let q = k as f64;
    a - q * QUARTER_HIGH - q * QUARTER_LOW
}

// The sine s and the cosine c of an angle, after k quarter turns more.
fn turned(k: u32, s: f64, c: f64) -> (f64, f64)
    ensures { result ≡ turned k s c }
{
    match k % 4 {
        0 => (s, c),
        1 => (c, -s),
        2 => (-s, -c),
        _ => (-c, s),
    }
}

// The sine and the cosine of an angle that is not negative.
#[tactic(auto, unfolding(crate::specs::Sine::upward))]
fn upward(a: f64) -> (f64, f64)
    ensures { result ≡ upward a }
{
    let k = quarter_turns(a);
    let r = remainder(a, k);
    turned(k, sin_kernel(r), cos_kernel(r))
}

// The sine of v by that of its size: v itself where it is tiny, or else with its sign.
fn signed(v: f64, s: f64) -> f64
    ensures { result ≡ signed v s }
{
    if v.abs() < TINY {
        v
    } else if v < 0.0 {
        -s
    } else {
        s
    }
}

// The sine and the cosine with no test of the angle, for a caller that has tested it. Beyond 1000 they are floats, and no more.
pub fn sin_cos_raw(v: f64) -> (f64, f64)
    ensures value { result ≡ (sin_float v, cos_float v) }
    ensures near { Angle v → IsSine result.0 v × IsCosine result.1 v }
{
    let (s, c) = upward(v.abs());
    (signed(v, s), c)
}

// The sine and the cosine of an angle in radians.
pub fn sin_cos(v: f64) -> Result<(f64, f64), NumberFault>
    ensures value { result ≡ answer (angle_fault 0 v) (sin_float v, cos_float v) }
    ensures near { IfOk result (λ p. IsSine p.0 v × IsCosine p.1 v) }
{
    check_angle(0, v)?;
    Ok(sin_cos_raw(v))
}

// The sine of an angle in radians.
pub fn sin(v: f64) -> Result<f64, NumberFault>
    ensures value { result ≡ answer (angle_fault 0 v) (sin_float v) }
    ensures near { IfOk result (λ s. IsSine s v) }
{
    sin_cos(v).map(|(s, _)| s)
}

// The cosine of an angle in radians.
pub fn cos(v: f64) -> Result<f64, NumberFault>
    ensures value { result ≡ answer (angle_fault 0 v) (cos_float v) }
    ensures near { IfOk result (λ c. IsCosine c v) }
{
    sin_cos(v).map(|(_, c)| c)
}
