// Euler orders: which axes, in which sequence, about fixed or moving axes. After Shoemake, "Euler angle conversion", Graphics Gems IV, 1994.
#![tactic(auto)]

ghost use Rattle.std.specs.Prelude.{◌≡◌, Option, Some};
ghost use Rattle.std.specs.Fmt.{padded};
ghost use Rattle.fault.specs.Answers.{answer};
ghost use Rattle.fault.specs.declared.RotationFault.{RotationFault as Fault};
ghost use Rattle.euler.specs.Orders.{order, angle_order, made, signed, as_read, LettersLaw, Examples};
ghost use Rattle.euler.specs.Names.{name, named, NamesLaw};
ghost use Rattle.euler.specs.declared.EulerRot.{EulerRot as Rot};
ghost use Rattle.euler.specs.declared.EulerRot.TheVariants.{YXZ};

mod list;

use fault::RotationFault;
pub use list::from_euler_list;
use std::fmt;
use std::str::FromStr;

// Euler rotation sequences. The turns of a plain name are about the axes of the body, which each turn moves (intrinsic);
// those of a name ending in Ex are about the axes that stay (extrinsic).
#[derive(Clone, Copy, PartialEq, Eq, Debug)]
pub enum EulerRot {
    ZYX,
    ZXY,
    YXZ,
    YZX,
    XYZ,
    XZY,
    ZYZ,
    ZXZ,
    YXY,
    YZY,
    XYX,
    XZX,
    ZYXEx,
    ZXYEx,
    YXZEx,
    YZXEx,
    XYZEx,
    XZYEx,
    ZYZEx,
    ZXZEx,
    YXYEx,
    YZYEx,
    XYXEx,
    XZXEx,
}

// The order of a name, spelled exactly so.
impl FromStr for EulerRot {
    type Err = RotationFault;

    ghost from_str_gives = { λ text r. r ≡ named text };

    fn from_str(name: &str) -> Result<EulerRot, RotationFault> {
        match name {
            "ZYX" => Ok(EulerRot::ZYX),
            "ZXY" => Ok(EulerRot::ZXY),
            "YXZ" => Ok(EulerRot::YXZ),
            "YZX" => Ok(EulerRot::YZX),
            "XYZ" => Ok(EulerRot::XYZ),
            "XZY" => Ok(EulerRot::XZY),
            "ZYZ" => Ok(EulerRot::ZYZ),
            "ZXZ" => Ok(EulerRot::ZXZ),
            "YXY" => Ok(EulerRot::YXY),
            "YZY" => Ok(EulerRot::YZY),
            "XYX" => Ok(EulerRot::XYX),
            "XZX" => Ok(EulerRot::XZX),
            "ZYXEx" => Ok(EulerRot::ZYXEx),
            "ZXYEx" => Ok(EulerRot::ZXYEx),
            "YXZEx" => Ok(EulerRot::YXZEx),
            "YZXEx" => Ok(EulerRot::YZXEx),
            "XYZEx" => Ok(EulerRot::XYZEx),
            "XZYEx" => Ok(EulerRot::XZYEx),
            "ZYZEx" => Ok(EulerRot::ZYZEx),
            "ZXZEx" => Ok(EulerRot::ZXZEx),
            "YXYEx" => Ok(EulerRot::YXYEx),
            "YZYEx" => Ok(EulerRot::YZYEx),
            "XYXEx" => Ok(EulerRot::XYXEx),
            "XZXEx" => Ok(EulerRot::XZXEx),
            _ => Err(RotationFault::UnknownOrder(0)),
        }
    }
}

impl EulerRot {
    pub fn name(self) -> &'static str
        ensures { result.now ≡ name self }
    {
        match self {
            EulerRot::ZYX => "ZYX",
            EulerRot::ZXY => "ZXY",
            EulerRot::YXZ => "YXZ",
            EulerRot::YZX => "YZX",
            EulerRot::XYZ => "XYZ",
            EulerRot::XZY => "XZY",
            EulerRot::ZYZ => "ZYZ",
            EulerRot::ZXZ => "ZXZ",
            EulerRot::YXY => "YXY",
            EulerRot::YZY => "YZY",
            EulerRot::XYX => "XYX",
            EulerRot::XZX => "XZX",
            EulerRot::ZYXEx => "ZYXEx",
            EulerRot::ZXYEx => "ZXYEx",
            EulerRot::YXZEx => "YXZEx",
            EulerRot::YZXEx => "YZXEx",
            EulerRot::XYZEx => "XYZEx",
            EulerRot::XZYEx => "XZYEx",
            EulerRot::ZYZEx => "ZYZEx",
            EulerRot::ZXZEx => "ZXZEx",
            EulerRot::YXYEx => "YXYEx",
            EulerRot::YZYEx => "YZYEx",
            EulerRot::XYXEx => "XYXEx",
            EulerRot::XZXEx => "XZXEx",
        }
    }
}

impl fmt::Display for EulerRot {
    ghost output = { λ euler. Some (name euler) };

    ghost styled_output = { λ euler spec. Some (padded spec (name euler)) };

    fn fmt<W: fmt::Write>(&self, f: &mut fmt::Formatter<W>) -> fmt::Result {
        f.pad(self.name())
    }
}

// The original's default.
impl Default for EulerRot {
    ghost is_default = { λ euler. euler ≡ YXZ };

    fn default() -> EulerRot {
        EulerRot::YXZ // yaw, pitch, roll
    }
}

// What three angles in an order make. The angles stand one by one, here and in all that take them, as in the original.
pub trait FromEuler: Sized {
    type Scalar;

    ghost refusal: { Rot → Self.Scalar → Self.Scalar → Self.Scalar → Option Fault };

    ghost rotation: { Rot → Self.Scalar → Self.Scalar → Self.Scalar → Self };

    fn from_euler_angles(
        order: EulerRot,
        i: Self::Scalar,
        j: Self::Scalar,
        k: Self::Scalar,
    ) -> Result<Self, RotationFault>
        ensures { result ≡ answer (refusal order i j k) (rotation order i j k) };
}

// The three angles of a rotation in an order.
pub trait ToEuler: Sized {
    type Scalar;

    ghost angles: { Self → Rot → Self.Scalar × Self.Scalar × Self.Scalar };

    fn to_euler_angles(self, order: EulerRot) -> (Self::Scalar, Self::Scalar, Self::Scalar)
        ensures { result ≡ angles self order };
}

#[derive(Copy, Clone, Debug, PartialEq, Eq)]
pub enum Axis {
    X = 0,
    Y = 1,
    Z = 2,
}

#[derive(Copy, Clone, Debug, PartialEq, Eq)]
pub enum Parity {
    Odd = 0,
    Even = 1,
}

#[derive(Copy, Clone, Debug, PartialEq, Eq)]
pub enum Repeated {
    No = 0,
    Yes = 1,
}

#[derive(Copy, Clone, Debug, PartialEq, Eq)]
pub enum Frame {
    Relative = 0,
    Static = 1,
}

// An order by four facts: the axis that it begins with, whether the next follows it in the cycle X, Y, Z (even parity),
// whether the last repeats the first, and whether the letters are read forwards (static) or backwards. Flags, as in the original.
#[derive(Copy, Clone, Debug, PartialEq, Eq)]
pub struct Order {
    pub initial_axis: Axis,
    pub parity_even: bool,
    pub initial_repeated: bool,
    pub frame_static: bool,
}

impl Order {
    pub fn new(
        initial_axis: Axis,
        parity: Parity,
        initial_repeated: Repeated,
        frame: Frame,
    ) -> Order
        ensures { result ≡ made initial_axis parity initial_repeated frame }
    {
        Order {
            initial_axis,
            parity_even: parity == Parity::Even,
            initial_repeated: initial_repeated == Repeated::Yes,
            frame_static: frame == Frame::Static,
        }
    }

    // The three axes i, j and k.
    pub fn angle_order(self) -> (usize, usize, usize)
        ensures { result ≡ angle_order self }
    {
        let i = self.initial_axis as usize;
        let next = (i + 1) % 3;
        let prev = if i > 0 { i - 1 } else { 2 };
        if self.parity_even {
            (i, next, prev)
        } else {
            (i, prev, next)
        }
    }

    // An angle of a turn, taken at the opposite where the parity is even.
    pub fn signed(self, angle: f64) -> f64
        ensures { result ≡ signed self.parity_even angle }
    {
        if self.parity_even { -angle } else { angle }
    }

    // Three angles as they are written, or with Ex read backwards.
    pub fn as_read(self, angles: (f64, f64, f64)) -> (f64, f64, f64)
        ensures { result ≡ as_read self.frame_static angles }
    {
        if self.frame_static {
            angles
        } else {
            (angles.2, angles.1, angles.0)
        }
    }
}

impl From<EulerRot> for Order {
    ghost from_gives = { λ euler o. o ≡ order euler };

    fn from(euler: EulerRot) -> Order {
        match euler {
            EulerRot::XYZ => Order::new(Axis::X, Parity::Even, Repeated::No, Frame::Static),
            EulerRot::XYX => Order::new(Axis::X, Parity::Even, Repeated::Yes, Frame::Static),
            EulerRot::XZY => Order::new(Axis::X, Parity::Odd, Repeated::No, Frame::Static),
            EulerRot::XZX => Order::new(Axis::X, Parity::Odd, Repeated::Yes, Frame::Static),
            EulerRot::YZX => Order::new(Axis::Y, Parity::Even, Repeated::No, Frame::Static),
            EulerRot::YZY => Order::new(Axis::Y, Parity::Even, Repeated::Yes, Frame::Static),
            EulerRot::YXZ => Order::new(Axis::Y, Parity::Odd, Repeated::No, Frame::Static),
            EulerRot::YXY => Order::new(Axis::Y, Parity::Odd, Repeated::Yes, Frame::Static),
            EulerRot::ZXY => Order::new(Axis::Z, Parity::Even, Repeated::No, Frame::Static),
            EulerRot::ZXZ => Order::new(Axis::Z, Parity::Even, Repeated::Yes, Frame::Static),
            EulerRot::ZYX => Order::new(Axis::Z, Parity::Odd, Repeated::No, Frame::Static),
            EulerRot::ZYZ => Order::new(Axis::Z, Parity::Odd, Repeated::Yes, Frame::Static),
            EulerRot::ZYXEx => Order::new(Axis::X, Parity::Even, Repeated::No, Frame::Relative),
            EulerRot::XYXEx => Order::new(Axis::X, Parity::Even, Repeated::Yes, Frame::Relative),
            EulerRot::YZXEx => Order::new(Axis::X, Parity::Odd, Repeated::No, Frame::Relative),
            EulerRot::XZXEx => Order::new(Axis::X, Parity::Odd, Repeated::Yes, Frame::Relative),
            EulerRot::XZYEx => Order::new(Axis::Y, Parity::Even, Repeated::No, Frame::Relative),
            EulerRot::YZYEx => Order::new(Axis::Y, Parity::Even, Repeated::Yes, Frame::Relative),
            EulerRot::ZXYEx => Order::new(Axis::Y, Parity::Odd, Repeated::No, Frame::Relative),
            EulerRot::YXYEx => Order::new(Axis::Y, Parity::Odd, Repeated::Yes, Frame::Relative),
            EulerRot::YXZEx => Order::new(Axis::Z, Parity::Even, Repeated::No, Frame::Relative),
            EulerRot::ZXZEx => Order::new(Axis::Z, Parity::Even, Repeated::Yes, Frame::Relative),
            EulerRot::XYZEx => Order::new(Axis::Z, Parity::Odd, Repeated::No, Frame::Relative),
            EulerRot::ZYZEx => Order::new(Axis::Z, Parity::Odd, Repeated::Yes, Frame::Relative),
        }
    }
}

// Each name's letters are those of its order, and each name names its order (specs/Orders, specs/Names).
pub fn names_stand()
    ensures letters { LettersLaw }
    ensures names { NamesLaw }
{}

// ZYX has the axes (2, 1, 0), ZXZ (2, 0, 1), YZXEx (0, 2, 1).
pub fn examples_stand()
    ensures { Examples }
{}
