// Sunrise and sunset as seen from a height.
ghost use Rattle.std.specs.Prelude.{◌≡◌, ◌≤◌, ◌*◌};
ghost use Rattle.method_table.specs.Horizon.{floor_root, horizon};
ghost use Rattle.method_table.specs.Kind.{IsAngleRange};

const SUNSET: i64 = 119_952_000_000;

const DIP_SQUARED: u128 = 24_968_010_240_000_000_000;

/// The least range of whole angle units that holds 0.833 + 0.0347·√height degrees, height in metres
/// up to 9,000: how far the sun is below the horizon at sunrise and sunset, after the manual.
pub fn horizon(height: u32) -> (i64, i64)
    requires { height ≤ 9000 }
    ensures value { result ≡ horizon height }
    ensures range { IsAngleRange result.0 result.1 }
{
    let dip_squared = DIP_SQUARED * height as u128;
    let dip = floor_root(dip_squared);
    let low = SUNSET + dip as i64;
    let high = if dip * dip == dip_squared {
        low
    } else {
        low + 1
    };
    (low, high)
}

// the floor of the square root
fn floor_root(n: u128) -> u128
    requires { n ≤ 9000 * 24968010240000000000 }
    ensures value { result ≡ floor_root n }
    ensures bound { result ≤ 500000000000 }
{
    n.isqrt()
}
