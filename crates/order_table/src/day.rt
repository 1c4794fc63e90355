// A day of a table, and its night.
ghost use Rattle.std.specs.Prelude.{◌≡◌, ◌≤ℤ◌, length};
ghost use Rattle.cell_judge.specs.Limits.{AreInLimits};
ghost use Rattle.order_rule.specs.Offsets.{first_day, last_day};

use method_table::{Method, Problem};
use night_rule::NightRule;

/// What Fajr and Isha of a night are bounded by: a rule, the method of the table, and the problems of sunrise and sunset.
#[derive(Clone, Copy)]
pub struct Night {
    pub rule: NightRule,
    pub method: Method,
    pub problems: [Problem; 2],
    pub ghost two: { length problems ≡ 2 },
    pub ghost limits: { AreInLimits problems },
}

/// A day since 1970-01-01, its problems, and its night where the order has a rule.
#[derive(Clone, Copy)]
pub struct Day {
    pub number: i32,
    pub problems: [Problem; 7],
    pub night: Option<Night>,
    pub ghost not_early: { first_day ≤ℤ number },
    pub ghost not_late: { number ≤ℤ last_day },
    pub ghost seven: { length problems ≡ 7 },
    pub ghost limits: { AreInLimits problems },
}
