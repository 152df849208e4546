// What a layer was set to: numbers that passed its tests.
ghost use Rattle.std.specs.Prelude.{◌≡◌, true, T};
ghost use Rattle.std.specs.Float.{binary64};
ghost use Rattle.std.specs.Float.Ieee.{fits};
ghost use Rattle.fault.specs.Answers.{clear};
ghost use Rattle.mount.specs.Facts.{angles_fault, swings_fault};

use euler::EulerRot;

// A bracket's turn.
#[derive(Clone, Copy)]
pub struct Setting {
    pub(crate) name: EulerRot,
    pub(crate) a: f64,
    pub(crate) b: f64,
    pub(crate) c: f64,
    ghost fits_a: { T (fits binary64 a) },
    ghost fits_b: { T (fits binary64 b) },
    ghost fits_c: { T (fits binary64 c) },
    ghost fine: { clear (angles_fault a b c) ≡ true },
}

// Where a yoke points.
#[derive(Clone, Copy)]
pub struct Aim {
    pub(crate) pan: f64,
    pub(crate) tilt: f64,
    ghost fits_pan: { T (fits binary64 pan) },
    ghost fits_tilt: { T (fits binary64 tilt) },
    ghost fine: { clear (swings_fault pan tilt) ≡ true },
}
