// A list of triples of angles becomes a list of rotations of any kind.
ghost use Rattle.std.specs.Prelude.{◌≡◌};
ghost use Rattle.euler.specs.Lists.{Listed};

use crate::{EulerRot, FromEuler};
use fault::RotationFault;

// The rotations of the triples in the given order, into the first places of `out`; how many there are. Where `out` is too short, or
// a triple is refused, nothing is written. The places are the caller's: a Vec would need an allocator, and could
// be refused for want of memory.
pub fn from_euler_list<R: FromEuler<Scalar = f64> + Copy>(
    order: EulerRot,
    angles: &[(f64, f64, f64)],
    out: &mut [R],
) -> Result<usize, RotationFault>
    ensures { Listed (R.FromEuler.refusal order) (R.FromEuler.rotation order) angles.now out.old result out.new }
{
    if out.len() < angles.len() {
        return Err(RotationFault::TooShort(2));
    }
    for &(a, b, c) in angles {
        R::from_euler_angles(order, a, b, c)?;
    }
    for (i, &(a, b, c)) in angles.iter().enumerate() {
        out[i] = R::from_euler_angles(order, a, b, c).unwrap();
    }
    Ok(angles.len())
}
