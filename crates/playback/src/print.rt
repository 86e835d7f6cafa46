// Lines of numbers on standard output.
ghost use Rattle.std.specs.Prelude.{◌≡◌};
ghost use Rattle.playback.specs.Sum.{sum_of};

use std::io;

// Some numbers, each behind a space.
pub fn print_numbers(rt: &impl Print, numbers: &[i64]) -> io::Result<()> {
    for x in numbers {
        print!(rt; " {x}")?;
    }
    Ok(())
}

// The kind of a call and the numbers that it handed over.
pub fn print_call(rt: &impl Print, kind: u64, out: &[i64]) -> io::Result<()> {
    print!(rt; "{kind}")?;
    print_numbers(rt, out)
}

// One more number of a line.
pub fn print_more(rt: &impl Print, n: u64) -> io::Result<()> {
    print!(rt; " {n}")
}

// A float by its bits. Any pattern that is not a number stands for any other, and all ones are printed for it.
fn print_float(rt: &impl Print, x: f64) -> io::Result<()> {
    if x.is_nan() {
        print_more(rt, u64::MAX)
    } else {
        print_more(rt, floats::bits_of(x))
    }
}

pub fn print_floats(rt: &impl Print, floats: &[f64]) -> io::Result<()> {
    for x in floats {
        print_float(rt, *x)?;
    }
    Ok(())
}

pub fn print_end(rt: &impl Print) -> io::Result<()> {
    println!(rt; "")
}

// A sum that tells rooms apart.
pub fn checksum(room: &[u16]) -> u64
    ensures { result ≡ sum_of room.now }
{
    let mut sum: u64 = 0;
    for sample in room {
        sum = (sum * 31 + u64::from(*sample) + 1) % 1000003;
    }
    sum
}

// The same of a room of bytes.
// Stays: a loop for each kind of room: a `fold` would prove the loop's bound on the sum as what its closure asks, and one function for both would need a law
// that ties each element of a type parameter to its number.
pub fn bytes_checksum(room: &[u8]) -> u64
    ensures { result ≡ sum_of room.now }
{
    let mut sum: u64 = 0;
    for byte in room {
        sum = (sum * 31 + u64::from(*byte) + 1) % 1000003;
    }
    sum
}
