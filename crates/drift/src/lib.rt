// How far rotations in floats lie from the exact ones: the laws, which the calls of the port carry, and what a run of turns keeps of its exact product.
#![tactic(auto)]

ghost use Rattle.drift.specs.Laws.{ProductLaw, NormalLaw, TurnedLaw, TurnLaw, ImageLaw};
ghost use Rattle.drift.specs.EulerLaws.{OrderTurnLaw, EulerColumnLaw};
ghost use Rattle.drift.specs.Drift.{AxisFair, Hung, TurnDrifts, Told, Beam};

// Products, normalising, turns about an axis, images.
pub fn laws_stand()
    ensures product { ProductLaw }
    ensures normal { NormalLaw }
    ensures turned { TurnedLaw }
    ensures turn { TurnLaw }
    ensures image { ImageLaw }
{}

// The turns and the matrices of all Euler orders.
pub fn orders_stand()
    ensures turn { OrderTurnLaw }
    ensures column { EulerColumnLaw }
{}

// What is turned n times, over a mount of depth d, and its beam.
pub fn drift_stands()
    ensures axis { AxisFair }
    ensures hung { Hung }
    ensures turn { TurnDrifts }
    ensures told { Told }
    ensures beam { Beam }
{}
