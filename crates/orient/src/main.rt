// Reads lamps from standard input, one to a line: an order's name and three angles in radians.
// Prints of each what was read, the axes of its order, its rotation and its beam; or why it is refused.
#![tactic(auto)]

use euler::{EulerRot, Order};
use fault::{Fault, NumberFault, RotationFault};
use quaternion::DQuat;
use std::fmt;
use std::io::{BufRead, BufReader};
use std::num::f64_to_bits_with_nan;
use std::str::FromStr;
use vectors::DVec3;

#[derive(Clone, Copy)]
struct Lamp {
    axes: (usize, usize, usize),
    rotation: DQuat,
    beam: DVec3,
}

// A word that spells no number, and one that is missing, stand for a number that is not finite.
fn angle(word: Option<&str>) -> f64 {
    word.and_then(|text| text.parse().ok()).unwrap_or(f64::NAN)
}

impl FromStr for Lamp {
    type Err = RotationFault;

    fn from_str(line: &str) -> Result<Lamp, RotationFault> {
        let mut words = line.split_whitespace();
        let order = words.next().unwrap_or("").parse::<EulerRot>()?;
        let a = angle(words.next());
        let b = angle(words.next());
        let c = angle(words.next());
        let rotation = DQuat::from_euler(order, a, b, c)?;
        if words.next().is_some() {
            return Err(RotationFault::from(NumberFault::NotFinite(4)));
        }
        Ok(Lamp {
            axes: Order::from(order).angle_order(),
            rotation,
            beam: rotation.mul_vec3(DVec3::NEG_Z)?,
        })
    }
}

impl fmt::Display for Lamp {
    fn fmt<W: fmt::Write>(&self, f: &mut fmt::Formatter<W>) -> fmt::Result {
        let (i, j, k) = self.axes;
        writeln!(f, "axes {i} {j} {k}")?;
        let DQuat { x, y, z, w } = self.rotation;
        writeln!(f, "rotation {x} {y} {z} {w}")?;
        writeln!(
            f,
            "bits {:016X} {:016X} {:016X} {:016X}",
            f64_to_bits_with_nan(x),
            f64_to_bits_with_nan(y),
            f64_to_bits_with_nan(z),
            f64_to_bits_with_nan(w)
        )?;
        let DVec3 { x, y, z } = self.beam;
        write!(f, "beam {x} {y} {z}")
    }
}

fn answer(rt: &HostRuntime, line: &str) -> anyhow::Result<()> {
    println!(rt; "read {line}")?;
    match line.parse::<Lamp>() {
        Ok(lamp) => println!(rt; "{lamp}")?,
        Err(fault) => println!(rt; "refused {}", fault.number())?,
    }
    Ok(())
}

fn main(rt: HostRuntime) -> anyhow::Result<()> {
    let input = BufReader::new(rt.alloc(), rt.stdin())?;
    for bytes in input.split(rt.alloc(), b'\n') {
        let bytes = bytes?;
        let line = std::str::from_utf8(bytes.as_slice())
            .unwrap_or("(no text)")
            .trim();
        if !line.is_empty() {
            answer(&rt, line)?;
        }
    }
    Ok(())
}
