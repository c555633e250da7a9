// The generator of drawn cards (document 02, wish 2): state = 1664525 × state + 1013904223, modulo 2^32, stepping before each use.
//
// `draw_numbers` has a `requires`: it is for the crates above, whose calls show it.
#![tactic(auto)]

ghost use Rattle.std.specs.Prelude.{◌≡◌, ◌+◌, ◌*◌, ◌%◌, ◌^◌, ◌<◌, ◌≤◌, length};
ghost use Rattle.std.proofs.lemmas.List.Edits.{sets};
ghost use Rattle.generator.specs.Generator.{step, after, below, draws};

const MULTIPLIER: u32 = 1664525;

const INCREMENT: u32 = 1013904223;

const DIVISOR: u32 = 65536; // of a state, before a draw is taken from it

// The next state.
fn step(state: u32) -> u32
    ensures { result ≡ step state }
{
    MULTIPLIER.wrapping_mul(state).wrapping_add(INCREMENT)
}

// The draw below m that a state gives.
fn below(state: u32, m: u32) -> u32
    requires { 0 < m }
    ensures { (result ≡ below m state) × (result < m) }
{
    state / DIVISOR % m
}

// Draws n numbers below m, less `less`, into out from place `at` on. Returns the state after them.
pub fn draw_numbers(state: u32, m: u32, less: u32, out: &mut [i64], at: usize, n: usize) -> u32
    requires { (0 < m) × (at + n ≤ length out.old) }
    ensures { (result ≡ after n state) × (out.new ≡ sets out.old at (draws m less n state)) }
{
    let mut next = state;
    for k in 0..n {
        next = step(next);
        out[at + k] = below(next, m) as i64 - less as i64;
    }
    next
}
