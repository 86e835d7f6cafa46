// What the program prints: words and numbers, each after a space, on lines that start with the case's letter.
use attitude_gimbal::Triple;
use refusal::Refusal;
use std::fmt::Display;
use std::io;
use vectors::Vec3;

pub fn text(rt: &impl Print, text: &str) -> io::Result<()> {
    rt.print(text)
}

pub fn end(rt: &impl Print) -> io::Result<()> {
    text(rt, "\n")
}

// A number of any type.
pub fn number(rt: &impl Print, n: impl Display + Drop) -> io::Result<()> {
    print!(rt; " {n}")
}

pub fn vector(rt: &impl Print, v: Vec3) -> io::Result<()> {
    number(rt, v.x)?;
    number(rt, v.y)?;
    number(rt, v.z)
}

pub fn triple(rt: &impl Print, t: Triple) -> io::Result<()> {
    number(rt, floats::bits_of(t.x))?;
    number(rt, floats::bits_of(t.y))?;
    number(rt, floats::bits_of(t.z))
}

pub fn refused(rt: &impl Print, refusal: Refusal) -> io::Result<()> {
    text(rt, " refused")?;
    number(rt, refusal.number)?;
    number(rt, refusal.place)
}
