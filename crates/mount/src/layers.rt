// Layers over any mount. A layer holds the mount below by value and lends it to nobody, so that what stands below it stays as it is.
ghost use Rattle.std.specs.Prelude.{◌≡◌, ◌≤◌, None};
ghost use Rattle.fault.specs.Answers.{answer};
ghost use Rattle.mount.specs.Facts.{deepest, angles_fault, swings_fault};
ghost use Rattle.mount.specs.Layers.{over, deeper, room, room_fault, layer_fault, Over, IsSet, IsPointed, Decided};
ghost use Rattle.mount.specs.Laws.{layer_shallow, layer_unit, layer_stands};

use crate::below::{DEEPEST, Mount};
use crate::settings::{Aim, Setting};
use crate::turning::{Turning, check_swings};
use euler::EulerRot;
use fault::{RigFault, RotationFault, unless};
use numeric::check_angles;
use quaternion::DQuat;

// A layer over a mount: set to nothing, and then as the mount below, or set to a turn. That there is room for the turn is no ghost
// field, since a struct of a caller's that holds a layer over a layer, or itself beside one, could then not be checked.
#[derive(Drop)]
pub struct Layer<M: Mount, T: Turning> {
    below: M,
    set: Option<T>,
}

// A bracket: flat, or set to a turn of an order.
pub type Bracket<M> = Layer<M, Setting>;

// A yoke: parked, or pointed by pan and tilt.
pub type Yoke<M> = Layer<M, Aim>;

impl<M: Mount, T: Turning> Layer<M, T> {
    // A layer that is set to nothing, and answers as the mount below.
    pub fn new(below: M) -> Layer<M, T>
        ensures { (result.below ≡ below) × (result.set ≡ None) }
    {
        Layer { below, set: None }
    }

    // Refuses a turn that would pass the deepest depth.
    fn check_room(&self) -> Result<(), RigFault>
        ensures { result ≡ answer (room_fault T.Turning.STEPS (M.Mount.deep self.now.below)) tt }
    {
        unless(has_room::<T>(self.below.depth()), RigFault::TooDeep(0))
    }
}

// Whether a turn of this kind has room over a mount of this depth.
fn has_room<T: Turning>(below: u8) -> bool
    requires { below ≤ deepest }
    ensures { result ≡ room T.Turning.STEPS below }
{
    T::STEPS <= DEEPEST - below
}

// Each kind has a call of its own, for it takes and refuses other numbers.

impl<M: Mount> Layer<M, Setting> {
    // Sets the bracket, in the place of what it was set to.
    pub fn set(&mut self, name: EulerRot, a: f64, b: f64, c: f64) -> Result<(), RigFault>
        ensures { Decided (layer_fault 1 (M.Mount.deep self.old.below) (angles_fault a b c)) result ((self.new.below ≡ self.old.below) × IsSet self.new.set name a b c) (self.new ≡ self.old) }
    {
        check_angles(2, a, b, c).map_err(RotationFault::from)?;
        self.check_room()?;
        self.set = Some(Setting { name, a, b, c });
        Ok(())
    }
}

impl<M: Mount> Layer<M, Aim> {
    // Points the yoke, in the place of where it pointed.
    pub fn point(&mut self, pan: f64, tilt: f64) -> Result<(), RigFault>
        ensures { Decided (layer_fault 2 (M.Mount.deep self.old.below) (swings_fault pan tilt)) result ((self.new.below ≡ self.old.below) × IsPointed self.new.set pan tilt) (self.new ≡ self.old) }
    {
        check_swings(pan, tilt)?;
        self.check_room()?;
        self.set = Some(Aim { pan, tilt });
        Ok(())
    }
}

impl<M: Mount, T: Turning> Mount for Layer<M, T> {
    ghost truth = { λ l. over T.Turning.STEPS (M.Mount.deep l.below) T.Turning.truth l.set (M.Mount.truth l.below) };

    ghost deep = { λ l. deeper T.Turning.STEPS l.set (M.Mount.deep l.below) };

    ghost answers = { λ l. Over T.Turning.STEPS (M.Mount.deep l.below) T.Turning.floats l.set (M.Mount.answers l.below) };

    ghost shallow = { λ l. layer_shallow T.Turning.STEPS (M.Mount.deep l.below) l.set (M.Mount.shallow l.below) };

    ghost unit = { λ l. layer_unit T.Turning.STEPS (M.Mount.deep l.below) T.Turning.truth (M.Mount.truth l.below) l.set (M.Mount.unit l.below) (T.Turning.unit (M.Mount.deep l.below) (M.Mount.truth l.below) (M.Mount.unit l.below)) };

    ghost stands = { λ l q h. layer_stands T.Turning.STEPS (M.Mount.deep l.below) T.Turning.truth (M.Mount.truth l.below) T.Turning.floats l.set (M.Mount.answers l.below) q h (M.Mount.stands l.below) (T.Turning.stands (M.Mount.deep l.below) (M.Mount.truth l.below)) };

    fn orientation(&self) -> DQuat {
        let below = self.below.orientation();
        match self.set {
            None => below,
            Some(turn) => {
                if has_room::<T>(self.below.depth()) {
                    turn.over(below)
                } else {
                    below
                }
            }
        }
    }

    fn depth(&self) -> u8 {
        let below = self.below.depth();
        match self.set {
            None => below,
            Some(_) => {
                if has_room::<T>(below) {
                    below + T::STEPS
                } else {
                    below
                }
            }
        }
    }
}
