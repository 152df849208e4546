// Mounts: what a lamp stands on. A floor, a measured orientation, and layers over any mount.
#![tactic(auto)]

mod below;
mod layers;
mod settings;
mod turning;

pub use below::{Floor, Mount};
pub use layers::{Bracket, Layer, Yoke};
pub use settings::{Aim, Setting};

#[cfg(test)]
mod tests {
    use crate::{Bracket, Floor, Mount, Yoke};
    use euler::EulerRot;

    // What a rig may hold: a layer over a layer over any mount.
    #[derive(Drop)]
    struct Arm<M: Mount> {
        base: Bracket<Yoke<M>>,
    }

    impl<M: Mount> Arm<M> {
        fn depth(&self) -> u8 {
            self.base.depth()
        }
    }

    // A layer beside more of its own kind.
    #[derive(Drop)]
    struct Chain<M: Mount + Drop> {
        here: Bracket<M>,
        rest: Option<Box<Chain<M>>>,
    }

    impl<M: Mount + Drop> Chain<M> {
        fn is_last(&self) -> bool {
            self.rest.is_none()
        }
    }

    #[test]
    fn layers_stand_in_types_of_a_caller(rt: HostRuntime) {
        let mut yoke = Yoke::new(Floor {});
        assert_eq!(rt; yoke.point(0.5, -0.5), Ok(()));
        let mut arm = Arm {
            base: Bracket::new(yoke),
        };
        assert_eq!(rt; arm.depth(), 2);
        assert_eq!(rt; arm.base.set(EulerRot::ZYX, 0.1, 0.2, 0.3), Ok(()));
        assert_eq!(rt; arm.depth(), 3);
        let chain = Chain {
            here: Bracket::new(Floor {}),
            rest: None,
        };
        assert!(rt; chain.is_last());
        assert_eq!(rt; chain.here.depth(), 0);
    }
}
