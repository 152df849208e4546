// Sums and products of many quaternions, from the first to the last.
ghost use Rattle.std.specs.Prelude.{◌≡◌};
ghost use Rattle.quaternion.specs.Sums.{summed, multiplied};

use crate::DQuat;

impl DQuat {
    // The sum of all; zeros where there is none.
    pub fn sum(quats: &[DQuat]) -> DQuat
        ensures { result ≡ summed quats.now }
    {
        let zero = DQuat::from_xyzw(0.0, 0.0, 0.0, 0.0);
        quats.iter().fold(zero, |total, &q| total + q)
    }

    // The product of all; the identity where there is none.
    pub fn product(quats: &[DQuat]) -> DQuat
        ensures { result ≡ multiplied quats.now }
    {
        quats.iter().fold(DQuat::IDENTITY, |total, &q| total * q)
    }
}
