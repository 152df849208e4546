// The numeric functions with C names, as a static library for programs in other languages. They test nothing.
#![tactic(auto)]

ghost use Rattle.std.specs.Prelude.{◌≡◌};
ghost use Rattle.std.specs.Float.{binary64};
ghost use Rattle.std.specs.Float as Floats;
ghost use Rattle.numeric.specs.Sine.{sin_float, cos_float};
ghost use Rattle.numeric.specs.ArcTangent.{atan2_float};

use numeric::{atan2_raw, sin_cos_raw, sqrt};

#[unsafe(no_mangle)]
pub extern "C" fn wz_sin(v: f64) -> f64
    ensures { result ≡ sin_float v }
{
    sin_cos_raw(v).0
}

#[unsafe(no_mangle)]
pub extern "C" fn wz_cos(v: f64) -> f64
    ensures { result ≡ cos_float v }
{
    sin_cos_raw(v).1
}

#[unsafe(no_mangle)]
pub extern "C" fn wz_sqrt(v: f64) -> f64
    ensures { result ≡ Floats.sqrt binary64 v }
{
    sqrt(v)
}

#[unsafe(no_mangle)]
pub extern "C" fn wz_atan2(y: f64, x: f64) -> f64
    ensures { result ≡ atan2_float y x }
{
    atan2_raw(y, x)
}
