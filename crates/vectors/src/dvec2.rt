// A 2-dimensional vector.
ghost use Rattle.std.specs.Prelude.{◌≡◌};
ghost use Rattle.vectors.specs.Vectors.{vec2, dot2, finite2, nan2};

use crate::Vector;

#[derive(Clone, Copy, PartialEq, Debug)]
pub struct DVec2 {
    pub x: f64,
    pub y: f64,
}

impl DVec2 {
    pub fn new(x: f64, y: f64) -> DVec2
        ensures { result ≡ vec2 x y }
    {
        DVec2 { x, y }
    }
}

impl Vector for DVec2 {
    ghost inner = { dot2 };

    ghost finite = { finite2 };

    ghost some_nan = { nan2 };

    fn dot(self, rhs: DVec2) -> f64 {
        (self.x * rhs.x) + (self.y * rhs.y)
    }

    fn is_finite(self) -> bool {
        self.x.is_finite() && self.y.is_finite()
    }

    fn is_nan(self) -> bool {
        self.x.is_nan() || self.y.is_nan()
    }
}
