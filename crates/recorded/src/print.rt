// A call's line: its kind, the numbers that it handed over, and what else tells its answer apart.
ghost use Rattle.std.specs.Prelude.{◌≤◌};

use crate::kind::Kind;
use playback::{print_call, print_end, print_floats, print_more, print_numbers};
use std::io;

// The first n of an answer's numbers.
pub fn first(out: &[i64; 64], n: usize) -> &[i64]
    requires { n ≤ 64 }
{
    &out[..n]
}

pub fn line(rt: &impl Print, kind: Kind, out: &[i64]) -> io::Result<()> {
    print_call(rt, kind as u64, out)?;
    print_end(rt)
}

// With the sums of its rooms, before the call and after it.
pub fn line_with_sums(rt: &impl Print, kind: Kind, out: &[i64], sums: &[u64]) -> io::Result<()> {
    print_call(rt, kind as u64, out)?;
    for sum in sums {
        print_more(rt, *sum)?;
    }
    print_end(rt)
}

// With the guider's numbers as they stand after the call.
pub fn line_with_guider(
    rt: &impl Print,
    kind: Kind,
    out: &[i64],
    guider: &[i64],
) -> io::Result<()> {
    print_call(rt, kind as u64, out)?;
    print_numbers(rt, guider)?;
    print_end(rt)
}

// With floats, by their bits.
pub fn line_with_floats(
    rt: &impl Print,
    kind: Kind,
    out: &[i64],
    floats: &[f64],
) -> io::Result<()> {
    print_call(rt, kind as u64, out)?;
    print_floats(rt, floats)?;
    print_end(rt)
}
