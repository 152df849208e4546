// The trait of all mounts, and the floor.
ghost use Rattle.std.specs.Prelude.{◌≡◌, ℕ, ◌≤◌, Float};
ghost use Rattle.exact.specs.Fraction.{Frac};
ghost use Rattle.exact.specs.Quat.{Quat};
ghost use Rattle.exact.specs.Facts.{one};
ghost use Rattle.drift.specs.Drift.{UnitAt, Stands, hung};
ghost use Rattle.quaternion.specs.Quaternions.{parts};
ghost use Rattle.mount.specs.Facts.{deepest};
ghost use Rattle.drift.proofs.Standing.{floor_stands};
ghost use Rattle.mount.specs.Laws.{floor_shallow, floor_unit};

use quaternion::DQuat;

// The depth of a mount at most.
pub(crate) const DEEPEST: u8 = 12;

// A mount means a true orientation and a depth, both fixed by what it holds now. Its answer lies near the true orientation.
pub trait Mount {
    ghost truth: { Self → Quat Frac };

    ghost deep: { Self → ℕ };

    // what the orientation may be answered as: of the kinds here, one quaternion
    ghost answers: { Self → Quat Float → Type 0 };

    fn orientation(&self) -> DQuat
        ensures { answers self.now (parts result) };

    fn depth(&self) -> u8
        ensures { result ≡ deep self.now };

    ghost shallow: { (m : Self) → deep m ≤ deepest };

    ghost unit: { (m : Self) → UnitAt (deep m) (truth m) };

    ghost stands: { (m : Self) (q : Quat Float) → answers m q → Stands (deep m) q (truth m) };
}

// The floor: no turn.
#[derive(Clone, Copy)]
pub struct Floor {}

impl Mount for Floor {
    ghost truth = { λ _. one };

    ghost deep = { λ _. 0 };

    ghost answers = { λ _ q. q ≡ hung };

    ghost shallow = { λ _. floor_shallow };

    ghost unit = { λ _. floor_unit };

    ghost stands = { λ m q e. floor_stands q e };

    fn orientation(&self) -> DQuat {
        DQuat::IDENTITY
    }

    fn depth(&self) -> u8 {
        0
    }
}
