// Whole numbers: the size of a signed number, two's complement, and the root of an unsigned one.
#![tactic(auto)]

ghost use Rattle.std.specs.Prelude.{◌≡◌, ◌≤◌, ◌<◌, leb, nat_abs, negsuc};
ghost use Rattle.numbers.specs.Root.{root as root_of};
ghost use Rattle.numbers.specs.TwosComplement.{half64, signed_of, signed32_of};
ghost use Rattle.numbers.specs.Steps.{guess, steps, settle};

// The size of x. The least number has one too.
pub fn abs(x: i64) -> u64
    ensures { result ≡ nat_abs x }
{
    x.unsigned_abs()
}

// Whether x lies within `bound` of 0.
pub fn within(x: i64, bound: u64) -> bool
    ensures { result ≡ leb (nat_abs x) bound }
{
    abs(x) <= bound
}

// The number n + 1 below zero.
pub fn negative(n: u64) -> i64
    requires { n < half64 }
    ensures { result ≡ negsuc n }
{
    !(n as i64)
}

// Two's complement: the signed number that has the same 64 bits.
pub fn signed(word: u64) -> i64
    ensures { result ≡ signed_of word }
{
    u64::cast_signed(word)
}

// The one that has the same 32 bits.
pub fn signed_32(word: u32) -> i32
    ensures { result ≡ signed32_of word }
{
    u32::cast_signed(word)
}

// How many passes the root takes. T-02 asks for at most 16; after three the guess is the root or one more.
const PASSES: u64 = 3;

// A root, and the number of passes through the loop that found it.
// Stays: the passes are handed out, since the promise of `root_in_passes` and the edit root_false_count speak of them.
#[derive(Clone, Copy)]
struct Rooted {
    root: u64,
    passes: u64,
}

// The mean of the power of two at half of n's length and of n divided by it: at most a twelfth of the root, and 3 / 2, above the root.
fn first_guess(n: u64) -> u64
    requires { 0 < n }
    ensures { result ≡ guess n }
{
    let half = (64 - n.leading_zeros()) / 2;
    ((1u64 << half) + (n >> half)) / 2
}

// The guess after so many passes through the loop, the only one: each is a step of Heron's rule, which about doubles the number of right digits.
fn guess_after(n: u64, passes: u64) -> u64
    requires { 0 < n }
    ensures { result ≡ steps passes n (guess n) }
{
    let mut x = first_guess(n);
    for _ in 0..passes {
        x = (x + n / x) / 2;
    }
    x
}

// The root of n by Heron's rule, and the passes that it took.
fn root_in_passes(n: u64) -> Rooted
    ensures { (result.root ≡ root_of n) × (result.root ≡ settle n (steps result.passes n (guess n))) × (result.passes ≤ 16) }
{
    if n == 0 {
        return Rooted { root: 0, passes: 0 };
    }
    let x = guess_after(n, PASSES);
    // the square of the guess, less 1, fits where the square may not
    let root = if (x - 1) * (x + 1) < n { x } else { x - 1 };
    Rooted {
        root,
        passes: PASSES,
    }
}

// The root of n: the greatest whole number whose square does not exceed n.
pub fn root(n: u64) -> u64
    ensures { result ≡ root_of n }
{
    root_in_passes(n).root
}

// The root for C and Rust: the benchmark times it by itself.
#[unsafe(no_mangle)]
pub extern "C" fn mnemathor_root(n: u64) -> u64
    ensures { result ≡ root_of n }
{
    root(n)
}
