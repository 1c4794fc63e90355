// Whole square roots by Newton's steps, from above down to the root.
ghost use Rattle.std.specs.Prelude.{◌≡◌, ◌+◌, ◌*◌, ◌/◌, ◌^◌, ◌<◌};
ghost use Rattle.fixed_interval.specs.Enclosure.{whole_root as the_whole_root};

/// The square root of `n`, rounded down. The steps begin with the root of the higher word, and ones below.
pub fn whole_root(n: u128) -> u64
    ensures { result ≡ the_whole_root n }
{
    let high = (n >> 64) as u64;
    if high == 0 {
        return root_of_word(n as u64);
    }
    let mut root = (root_of_word(high) << 32) + 0xffff_ffff;
    while n < square(root) {
        root = next_root(n, root);
    }
    root
}

/// The square root of `n`, rounded down. The steps begin with as many ones as half of its digits.
fn root_of_word(n: u64) -> u64
    ensures value { result ≡ the_whole_root n }
    ensures bound { result < 2 ^ 32 }
{
    let mut root = (1 << ((65 - n.leading_zeros()) / 2)) - 1;
    while n < root * root {
        root = (root + n / root) / 2;
    }
    root
}

/// Newton's next step from a number above the root of `n`.
fn next_root(n: u128, root: u64) -> u64
    requires { n < root * root }
    ensures { result ≡ (root + n / root) / 2 }
{
    let quotient = (n / u128::from(root)) as u64;
    quotient + (root - quotient) / 2
}

/// The square.
pub fn square(root: u64) -> u128
    ensures { result ≡ root * root }
{
    u128::from(root) * u128::from(root)
}
