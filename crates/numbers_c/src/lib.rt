// The root for C and Rust: the benchmark times it by itself.
// Stays: a twin of `numbers::mnemathor_root`, since C links this archive and calls it by its name.
#![tactic(auto)]

ghost use Rattle.std.specs.Prelude.{◌≡◌};
ghost use Rattle.numbers.specs.Root.{root as root_of};

// The root for C and Rust: the benchmark times it by itself.
#[unsafe(no_mangle)]
pub extern "C" fn mnemathor_root(n: u64) -> u64
    ensures { result ≡ root_of n }
{
    numbers::mnemathor_root(n)
}
