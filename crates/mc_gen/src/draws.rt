// Numbers that are drawn.
ghost use Rattle.std.specs.Prelude.{◌≡◌, ◌<◌};
ghost use Rattle.mc_gen.specs.Draws.{drawn, next_of};

// What a number is multiplied with for the next one, and what is added.
const FACTOR: u64 = 1_664_525;

const STEP: u64 = 1_013_904_223;

// How many numbers there are.
const NUMBERS: u64 = 4_294_967_296;

/// The number that comes after another.
pub fn next_of(x: u32) -> u32
    ensures { result ≡ next_of x }
{
    ((u64::from(x) * FACTOR + STEP) % NUMBERS) as u32
}

/// What a number gives, below another.
pub fn drawn(x: u32, below: u32) -> u32
    requires { 0 < below }
    ensures value { result ≡ drawn x below }
    ensures small { result < below }
{
    (x / 65_536) % below
}
