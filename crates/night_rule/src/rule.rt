// A rule for the nights of high latitudes, with its word.
ghost use Rattle.std.specs.Prelude.{◌≡◌, IfSome};
ghost use Rattle.night_rule.specs.Rule.{NightWordsAreRead, night_rule_of, night_word};

/// Which part of the night lies between sunset and Isha at most, and between Fajr and sunrise, where the sun doesn't go
/// as deep as their angles: the rules for high latitudes of the manual of PrayTimes.org.
#[derive(Clone, Copy, Debug, PartialEq, Eq)]
pub enum NightRule {
    /// Half of it: to the middle of the night.
    Half,
    /// One seventh.
    Seventh,
    /// One sixtieth for each degree of the prayer's angle.
    ByAngle,
}

const RULES: [NightRule; 3] = [NightRule::Half, NightRule::Seventh, NightRule::ByAngle];

/// The rule that a word of an order names, `None` exactly where the word is no rule's.
pub fn night_rule_of(word: &str) -> Option<NightRule>
    ensures value { result ≡ night_rule_of word.now }
    ensures found { IfSome result (λ rule. word.now ≡ night_word rule) }
{
    RULES.iter().copied().find(|rule| night_word(*rule) == word)
}

/// The word of a rule in orders.
pub fn night_word(rule: NightRule) -> &'static str
    ensures { result.now ≡ night_word rule }
{
    match rule {
        NightRule::Half => "half",
        NightRule::Seventh => "seventh",
        NightRule::ByAngle => "angle",
    }
}

/// Law: the word of a rule is read as that rule.
pub fn night_words_are_read()
    ensures { NightWordsAreRead }
{}
