// The three columns of a matrix: the images of X, Y and Z.
ghost use Rattle.std.specs.Prelude.{◌≡◌};
ghost use Rattle.fault.specs.Answers.{answer};
ghost use Rattle.vectors.specs.Masks.{index_fault};
ghost use Rattle.matrix.specs.Matrices.{matrix, listed, column, entry, finite9, axes_fault};

use fault::{NumberFault, RotationFault, unless};
use vectors::{DVec3, Vector};

#[derive(Clone, Copy, PartialEq, Debug)]
pub struct DMat3 {
    pub x_axis: DVec3,
    pub y_axis: DVec3,
    pub z_axis: DVec3,
}

impl DMat3 {
    pub fn from_cols(x_axis: DVec3, y_axis: DVec3, z_axis: DVec3) -> DMat3
        ensures { result ≡ matrix x_axis y_axis z_axis }
    {
        DMat3 {
            x_axis,
            y_axis,
            z_axis,
        }
    }

    // From a table of columns: the original's one name for this.
    pub fn from_cols_array_2d(m: [[f64; 3]; 3]) -> DMat3
        ensures { result ≡ listed m }
    {
        let [x, y, z] = m;
        DMat3::from_cols(
            DVec3::from_array(x),
            DVec3::from_array(y),
            DVec3::from_array(z),
        )
    }

    // The matrix column for the given `index`. A match, as in `DVec3::at`: each names what it holds.
    pub fn col(self, index: usize) -> Result<DVec3, RotationFault>
        ensures { result ≡ answer (index_fault 3 index) (column self index) }
    {
        match index {
            0 => Ok(self.x_axis),
            1 => Ok(self.y_axis),
            2 => Ok(self.z_axis),
            _ => Err(RotationFault::TooShort(1)),
        }
    }

    // Whether every entry is finite.
    pub fn is_finite(self) -> bool
        ensures { result ≡ finite9 self }
    {
        self.x_axis.is_finite() && self.y_axis.is_finite() && self.z_axis.is_finite()
    }

    // The entry in column `c` and row `r`; 2 stands for what is higher. Axes are numbers here, as in the original's tables.
    pub(crate) fn entry(self, c: usize, r: usize) -> f64
        ensures { result ≡ entry self c r }
    {
        let column = match c {
            0 => self.x_axis,
            1 => self.y_axis,
            _ => self.z_axis,
        };
        match r {
            0 => column.x,
            1 => column.y,
            _ => column.z,
        }
    }

    // Whether the three columns are finite and normalised: 1 or 3 if not.
    pub fn check_axes(self) -> Result<(), RotationFault>
        ensures { result ≡ answer (axes_fault self) tt }
    {
        unless(self.is_finite(), NumberFault::NotFinite(0))?;
        self.x_axis.check_normalized(0)?;
        self.y_axis.check_normalized(0)?;
        self.z_axis.check_normalized(0)
    }
}
