// The numbers of a linear congruential generator.
ghost use Rattle.std.specs.Prelude.{◌≡◌, ◌<◌};
ghost use Rattle.demo_summary.specs.Numbers.{drawn, next_state, state_at};

fn next_state(x: u32) -> u32
    requires { x < 2147483648 }
    ensures value { result ≡ next_state x }
    ensures small { result < 2147483648 }
{
    ((1103515245 * x as u64 + 12345) % 2147483648) as u32
}

fn state_at(number: u32, i: u32) -> u32
    ensures value { result ≡ state_at number i }
    ensures small { result < 2147483648 }
{
    let mut x = number % 2147483648;
    for step in 0..i {
        x = next_state(x);
    }
    x
}

/// The number that is drawn after `i` steps, below 32,768.
pub(crate) fn drawn(number: u32, i: u32) -> u32
    ensures value { result ≡ drawn number i }
    ensures small { result < 32768 }
{
    state_at(number, i) / 65536
}
