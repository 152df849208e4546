// What a call gives, and how it is written.
use fault::RotationFault;
use matrix::DMat3;
use quaternion::DQuat;
use std::fmt;
use std::num::f64_to_bits_with_nan;
use vectors::{BVec4, DVec3, DVec4};

#[derive(Clone, Copy)]
pub(crate) enum Value {
    Flag(bool),
    Count(u32),
    Axes(usize, usize, usize),
    One(f64),
    Two(f64, f64),
    Three(DVec3),
    Four(DVec4),
    Nine(DMat3),
    Flags(BVec4),
}

pub(crate) type Answer = Result<Value, RotationFault>;

// Of what cannot be refused.
pub(crate) fn plain<T>(given: T) -> Answer
where
    Value: From<T>,
{
    Ok(Value::from(given))
}

pub(crate) fn answer<T, E>(given: Result<T, E>) -> Answer
where
    Value: From<T>,
    RotationFault: From<E>,
{
    Ok(Value::from(given?))
}

impl From<bool> for Value {
    fn from(b: bool) -> Value {
        Value::Flag(b)
    }
}

impl From<u32> for Value {
    fn from(n: u32) -> Value {
        Value::Count(n)
    }
}

impl From<(usize, usize, usize)> for Value {
    fn from((i, j, k): (usize, usize, usize)) -> Value {
        Value::Axes(i, j, k)
    }
}

impl From<f64> for Value {
    fn from(x: f64) -> Value {
        Value::One(x)
    }
}

impl From<(f64, f64)> for Value {
    fn from((x, y): (f64, f64)) -> Value {
        Value::Two(x, y)
    }
}

impl From<(f64, f64, f64)> for Value {
    fn from((a, b, c): (f64, f64, f64)) -> Value {
        Value::Three(DVec3::new(a, b, c))
    }
}

impl From<DVec3> for Value {
    fn from(v: DVec3) -> Value {
        Value::Three(v)
    }
}

impl From<(DVec3, f64)> for Value {
    fn from((axis, angle): (DVec3, f64)) -> Value {
        Value::Four(DVec4::new(axis.x, axis.y, axis.z, angle))
    }
}

impl From<DVec4> for Value {
    fn from(v: DVec4) -> Value {
        Value::Four(v)
    }
}

impl From<[f64; 4]> for Value {
    fn from(a: [f64; 4]) -> Value {
        Value::Four(DVec4::new(a[0], a[1], a[2], a[3]))
    }
}

impl From<DQuat> for Value {
    fn from(q: DQuat) -> Value {
        Value::Four(DVec4::from(q))
    }
}

impl From<DMat3> for Value {
    fn from(m: DMat3) -> Value {
        Value::Nine(m)
    }
}

impl From<BVec4> for Value {
    fn from(mask: BVec4) -> Value {
        Value::Flags(mask)
    }
}

impl fmt::Display for Value {
    fn fmt<W: fmt::Write>(&self, f: &mut fmt::Formatter<W>) -> fmt::Result {
        match *self {
            Value::Flag(b) => write!(f, "{}", u8::from(b)),
            Value::Count(n) => write!(f, "{n}"),
            Value::Axes(i, j, k) => write!(f, "{i} {j} {k}"),
            Value::One(x) => write!(f, "{}", Bits(x)),
            Value::Two(x, y) => write!(f, "{} {}", Bits(x), Bits(y)),
            Value::Three(v) => write!(f, "{}", Column(v)),
            Value::Four(v) => write!(f, "{} {}", Column(DVec3::new(v.x, v.y, v.z)), Bits(v.w)),
            Value::Nine(m) => write!(
                f,
                "{} {} {}",
                Column(m.x_axis),
                Column(m.y_axis),
                Column(m.z_axis)
            ),
            Value::Flags(b) => write!(
                f,
                "{} {} {} {}",
                u8::from(b.x),
                u8::from(b.y),
                u8::from(b.z),
                u8::from(b.w)
            ),
        }
    }
}

// A number, written by its bits.
#[derive(Clone, Copy)]
struct Bits(f64);

impl fmt::Display for Bits {
    fn fmt<W: fmt::Write>(&self, f: &mut fmt::Formatter<W>) -> fmt::Result {
        if self.0.is_nan() {
            f.write_str("NAN")
        } else {
            write!(f, "{:016X}", f64_to_bits_with_nan(self.0))
        }
    }
}

#[derive(Clone, Copy)]
struct Column(DVec3);

impl fmt::Display for Column {
    fn fmt<W: fmt::Write>(&self, f: &mut fmt::Formatter<W>) -> fmt::Result {
        write!(
            f,
            "{} {} {}",
            Bits(self.0.x),
            Bits(self.0.y),
            Bits(self.0.z)
        )
    }
}
