// Replays values from outside: each line has a function, the bits of its arguments and the bits of the f64 nearest to the exact value.
// Prints every line whose answer is not within the bound, and of each function how many lines there were and the largest error.
#![tactic(auto)]

use numeric::{acos_approx, atan2, cos, sin, sqrt};
use std::fmt;
use std::num::f64_from_bits_with_nan;
use std::str::FromStr;

// 2^-45: half of what is promised, since the expected value is itself rounded
const BOUND: f64 = 2.842170943040401e-14;

#[derive(Clone, Copy)]
enum Function {
    Sin,
    Cos,
    Atan2,
    Sqrt,
    Acos,
}

#[derive(Clone, Copy)]
struct UnknownFunction;

impl Function {
    const ALL: [Function; 5] = [
        Function::Sin,
        Function::Cos,
        Function::Atan2,
        Function::Sqrt,
        Function::Acos,
    ];
}

impl FromStr for Function {
    type Err = UnknownFunction;

    fn from_str(name: &str) -> Result<Function, UnknownFunction> {
        match name {
            "sin" => Ok(Function::Sin),
            "cos" => Ok(Function::Cos),
            "atan2" => Ok(Function::Atan2),
            "sqrt" => Ok(Function::Sqrt),
            "acos" => Ok(Function::Acos),
            _ => Err(UnknownFunction),
        }
    }
}

impl fmt::Display for Function {
    fn fmt<W: fmt::Write>(&self, f: &mut fmt::Formatter<W>) -> fmt::Result {
        f.write_str(match self {
            Function::Sin => "sin",
            Function::Cos => "cos",
            Function::Atan2 => "atan2",
            Function::Sqrt => "sqrt",
            Function::Acos => "acos_approx",
        })
    }
}

// A line replayed: how far the answer is from the value expected, and how far it may be.
#[derive(Clone, Copy)]
struct Replay {
    function: Function,
    error: f64,
    bound: f64,
}

impl Replay {
    fn is_within(&self) -> bool {
        self.error <= self.bound
    }
}

impl FromStr for Replay {
    type Err = UnknownFunction;

    fn from_str(line: &str) -> Result<Replay, UnknownFunction> {
        let mut words = line.split_whitespace();
        let function = words.next().ok_or(UnknownFunction)?.parse::<Function>()?;
        let a = number(words.next());
        let b = number(words.next());
        let c = number(words.next());
        let (answer, expected, bound) = match function {
            Function::Sin => (sin(a), b, sharp(a)),
            Function::Cos => (cos(a), b, BOUND),
            Function::Atan2 => (atan2(a, b), c, sharp_angle(a, b, c)),
            Function::Sqrt => (Ok(sqrt(a)), b, 0.0),
            Function::Acos => (acos_approx(a), b, BOUND),
        };
        // What is refused lies outside every bound, as what is no number does; a Result to be compared would be no plainer.
        Ok(Replay {
            function,
            error: distance(answer.unwrap_or(f64::NAN), expected),
            bound,
        })
    }
}

// What is no number lies outside every bound. As `calls` reads its numbers; two programs share no crate for one line.
fn number(word: Option<&str>) -> f64 {
    word.and_then(|text| u64::from_str_radix(text, 16).ok())
        .map_or(f64::NAN, |bits| f64_from_bits_with_nan(bits))
}

fn distance(x: f64, y: f64) -> f64 {
    if x == y { 0.0 } else { (x - y).abs() }
}

// In proportion to v where v is at most 1 in size.
fn sharp(v: f64) -> f64 {
    if v.abs() <= 1.0 {
        BOUND * v.abs()
    } else {
        BOUND
    }
}

// In proportion to the angle t where 0 < x and 2^-60 x ≤ |y| ≤ x.
fn sharp_angle(y: f64, x: f64, t: f64) -> f64 {
    if 0.0 < x && 8.673617379884035e-19 * x <= y.abs() && y.abs() <= x {
        BOUND * t.abs()
    } else {
        BOUND
    }
}

// Of the lines of one function.
#[derive(Clone, Copy, Default)]
struct Tally {
    lines: u64,
    outside: u64,
    largest: f64,
}

impl Tally {
    fn note(&mut self, replay: Replay) {
        self.lines = self.lines.saturating_add(1);
        if !replay.is_within() {
            self.outside = self.outside.saturating_add(1);
        }
        if replay.error > self.largest {
            self.largest = replay.error;
        }
    }
}

impl fmt::Display for Tally {
    fn fmt<W: fmt::Write>(&self, f: &mut fmt::Formatter<W>) -> fmt::Result {
        let Tally {
            lines,
            outside,
            largest,
        } = *self;
        write!(
            f,
            "{lines} lines, {outside} outside, largest error {largest:e}"
        )
    }
}

fn main(rt: HostRuntime) -> anyhow::Result<()> {
    // By function, in the order of `ALL`; an array, since a map would want memory before the first line is read.
    let mut tallies = [Tally::default(); 5];
    for line in rt.lines(rt.alloc()) {
        let line = line?;
        let Ok(replay) = line.parse::<Replay>() else {
            println!(rt; "no function: {line}")?;
            continue;
        };
        tallies[replay.function as usize].note(replay);
        if !replay.is_within() {
            println!(rt; "outside: {line}")?;
        }
    }
    for function in Function::ALL {
        println!(rt; "{function}: {}", tallies[function as usize])?;
    }
    Ok(())
}
