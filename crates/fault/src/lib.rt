// Why a call was turned away: a numbered refusal, the place that it is about, and the layer that refused.
// A number's fault sits whole inside a rotation's, and that inside a rig's; `From` and `?` carry it up.
#![tactic(auto)]

ghost use Rattle.std.specs.Prelude.{◌≡◌};
ghost use Rattle.fault.specs.Answers.{answer, unless};
ghost use Rattle.fault.specs.Faults.{number, refusal, place, layer, rotation_refusal, rotation_place, rotation_layer, rig_refusal, rig_place, rig_layer};
ghost use Rattle.fault.specs.declared.Refusal.{Refusal as Reason};
ghost use Rattle.fault.specs.declared.Place.{Place as About};
ghost use Rattle.fault.specs.declared.Layer.{Layer as Within};
ghost use Rattle.fault.specs.declared.RotationFault.TheVariants.{Number as OfNumber};
ghost use Rattle.fault.specs.declared.RigFault.TheVariants.{Rotation as OfRotation};

// Every reason that there is, by its number.
#[derive(Clone, Copy, PartialEq, Eq, Debug)]
pub enum Refusal {
    NotFinite = 1,
    TooLarge = 2,
    NotNormalized = 3,
    NotNormalizable = 4,
    NoPosition = 5,
    Taken = 6,
    Bare = 7,
    TooManyTurns = 8,
    TooDeep = 9,
    TooManyLoose = 10,
    NoneLoose = 11,
    UnknownOrder = 12,
    NotUnit = 13,
    BookLength = 14,
    BookCheck = 15,
    BookContent = 16,
    TooShort = 17,
}

impl From<Refusal> for u8 {
    ghost from_gives = { λ why n. n ≡ number why };

    fn from(refusal: Refusal) -> u8 {
        refusal as u8
    }
}

// What a fault is about: an argument of the call, counted from 0 with the receiver first; a position of a rig; a block of a book, and
// the record there if it is about one.
#[derive(Clone, Copy, PartialEq, Eq, Debug)]
pub enum Place {
    Argument(u8),
    Position(usize),
    Record(u8, Option<u8>),
}

#[derive(Clone, Copy, PartialEq, Eq, Debug)]
pub enum Layer {
    Number,
    Rotation,
    Rig,
}

// What every fault tells, of whichever layer.
pub trait Fault: Copy {
    ghost reason: { Self → Reason };

    ghost about: { Self → About };

    ghost within: { Self → Within };

    fn refusal(self) -> Refusal
        ensures { result ≡ reason self };

    fn place(self) -> Place
        ensures { result ≡ about self };

    fn layer(self) -> Layer
        ensures { result ≡ within self };

    // The number of its refusal.
    fn number(self) -> u8
        ensures { result ≡ number (reason self) }
    {
        u8::from(self.refusal())
    }
}

// The answer to one test: nothing where it is passed, and else its fault.
pub fn unless<F: Fault>(passed: bool, fault: F) -> Result<(), F>
    ensures { result ≡ answer (unless passed fault) tt }
{
    if passed { Ok(()) } else { Err(fault) }
}

// The fault of a number, with the argument that it is.
#[derive(Clone, Copy, PartialEq, Eq, Debug)]
pub enum NumberFault {
    NotFinite(u8),
    TooLarge(u8),
}

impl Fault for NumberFault {
    ghost reason = { refusal };

    ghost about = { place };

    ghost within = { layer };

    fn refusal(self) -> Refusal {
        match self {
            NumberFault::NotFinite(_) => Refusal::NotFinite,
            NumberFault::TooLarge(_) => Refusal::TooLarge,
        }
    }

    fn place(self) -> Place {
        match self {
            NumberFault::NotFinite(a) | NumberFault::TooLarge(a) => Place::Argument(a),
        }
    }

    fn layer(self) -> Layer {
        Layer::Number
    }
}

// The fault of a rotation: a number's, or one of its own.
#[derive(Clone, Copy, PartialEq, Eq, Debug)]
pub enum RotationFault {
    Number(NumberFault),
    NotNormalized(u8),
    NotNormalizable(u8),
    UnknownOrder(u8),
    TooShort(u8),
}

// Written by hand, for a contract names the fault that a `?` makes.
impl From<NumberFault> for RotationFault {
    ghost from_gives = { λ f r. r ≡ OfNumber f };

    fn from(fault: NumberFault) -> RotationFault {
        RotationFault::Number(fault)
    }
}

impl Fault for RotationFault {
    ghost reason = { rotation_refusal };

    ghost about = { rotation_place };

    ghost within = { rotation_layer };

    fn refusal(self) -> Refusal {
        match self {
            RotationFault::Number(f) => f.refusal(),
            RotationFault::NotNormalized(_) => Refusal::NotNormalized,
            RotationFault::NotNormalizable(_) => Refusal::NotNormalizable,
            RotationFault::UnknownOrder(_) => Refusal::UnknownOrder,
            RotationFault::TooShort(_) => Refusal::TooShort,
        }
    }

    fn place(self) -> Place {
        match self {
            RotationFault::Number(f) => f.place(),
            RotationFault::NotNormalized(a) | RotationFault::UnknownOrder(a) => Place::Argument(a),
            RotationFault::NotNormalizable(a) | RotationFault::TooShort(a) => Place::Argument(a),
        }
    }

    fn layer(self) -> Layer {
        match self {
            RotationFault::Number(f) => f.layer(),
            _ => Layer::Rotation,
        }
    }
}

// The fault of a rig, its mounts and its book: a rotation's, one of its own, or one in a record of a book, which is named by its block and its place there.
#[derive(Clone, Copy, PartialEq, Eq, Debug)]
pub enum RigFault {
    Rotation(RotationFault),
    NoPosition(usize),
    Taken(usize),
    Bare(usize),
    TooManyTurns(usize),
    TooDeep(u8),
    TooManyLoose(usize),
    NoneLoose(u8),
    NotUnit(u8),
    BookLength(u8),
    BookCheck(u8),
    BookContent(u8, Option<u8>),
    InRecord(u8, u8, RotationFault),
}

// As above.
impl From<RotationFault> for RigFault {
    ghost from_gives = { λ f r. r ≡ OfRotation f };

    fn from(fault: RotationFault) -> RigFault {
        RigFault::Rotation(fault)
    }
}

impl Fault for RigFault {
    ghost reason = { rig_refusal };

    ghost about = { rig_place };

    ghost within = { rig_layer };

    fn refusal(self) -> Refusal {
        match self {
            RigFault::Rotation(f) | RigFault::InRecord(_, _, f) => f.refusal(),
            RigFault::NoPosition(_) => Refusal::NoPosition,
            RigFault::Taken(_) => Refusal::Taken,
            RigFault::Bare(_) => Refusal::Bare,
            RigFault::TooManyTurns(_) => Refusal::TooManyTurns,
            RigFault::TooDeep(_) => Refusal::TooDeep,
            RigFault::TooManyLoose(_) => Refusal::TooManyLoose,
            RigFault::NoneLoose(_) => Refusal::NoneLoose,
            RigFault::NotUnit(_) => Refusal::NotUnit,
            RigFault::BookLength(_) => Refusal::BookLength,
            RigFault::BookCheck(_) => Refusal::BookCheck,
            RigFault::BookContent(_, _) => Refusal::BookContent,
        }
    }

    fn place(self) -> Place {
        match self {
            RigFault::Rotation(f) => f.place(),
            RigFault::NoPosition(p) | RigFault::Taken(p) | RigFault::Bare(p) => Place::Position(p),
            RigFault::TooManyTurns(p) | RigFault::TooManyLoose(p) => Place::Position(p),
            RigFault::TooDeep(a) | RigFault::NoneLoose(a) => Place::Argument(a),
            RigFault::NotUnit(a) => Place::Argument(a),
            RigFault::BookLength(block) | RigFault::BookCheck(block) => Place::Record(block, None),
            RigFault::BookContent(block, record) => Place::Record(block, record),
            RigFault::InRecord(block, record, _) => Place::Record(block, Some(record)),
        }
    }

    fn layer(self) -> Layer {
        match self {
            RigFault::Rotation(f) | RigFault::InRecord(_, _, f) => f.layer(),
            _ => Layer::Rig,
        }
    }
}
