// Answers calls of the library, one to a line: the call's name, each f64 as its bits in hexadecimal, an order by its name, a count in decimal.
// Prints the bits of the answer in sixteen hexadecimal digits each, NAN, a flag as 1 or 0, REFUSED and the number, or UNKNOWN.
#![tactic(auto)]

mod answers;
mod arguments;
mod numbers;
mod quaternions;
mod vectors_and_matrices;

use answers::Answer;
use arguments::Call;
use fault::Fault;
use std::io::{BufRead, BufReader, BufWriter, Write};

// None where the name is no call's. Each step too answers None to the name of another.
fn answered(line: &str) -> Option<Answer> {
    let mut call = Call::new(line);
    call.on_numbers()
        .or_else(|| call.on_quaternions())
        .or_else(|| call.on_vectors_and_matrices())
}

fn main(rt: HostRuntime) -> anyhow::Result<()> {
    let input = BufReader::new(rt.alloc(), rt.stdin())?;
    let mut output = BufWriter::new(rt.alloc(), rt.stdout())?;
    for line in input.lines(rt.alloc()) {
        match answered(line?.as_str()) {
            Some(Ok(value)) => writeln!(output, "{value}")?,
            Some(Err(fault)) => writeln!(output, "REFUSED {}", fault.number())?,
            None => writeln!(output, "UNKNOWN")?,
        }
    }
    output.flush()?;
    Ok(())
}
