// A choice of the sun, with its word.
ghost use Rattle.std.specs.Prelude.{◌≡◌, IfSome};
ghost use Rattle.method_table.specs.Sun.{SunWordsAreRead, sun_of, sun_word};

/// Whose sun the entries are judged by: the US Naval Observatory's approximate one, or that of Meeus, Astronomical
/// Algorithms (1998), chapter 25.
#[derive(Clone, Copy, Debug, PartialEq, Eq)]
pub enum SunChoice {
    Usno,
    Meeus,
}

const SUNS: [SunChoice; 2] = [SunChoice::Usno, SunChoice::Meeus];

/// The sun that a word of an order names, `None` exactly where the word is no sun's.
pub fn sun_of(word: &str) -> Option<SunChoice>
    ensures value { result ≡ sun_of word.now }
    ensures found { IfSome result (λ sun. word.now ≡ sun_word sun) }
{
    SUNS.iter().copied().find(|sun| sun_word(*sun) == word)
}

/// The word of a sun in orders and tables.
pub fn sun_word(sun: SunChoice) -> &'static str
    ensures { result.now ≡ sun_word sun }
{
    match sun {
        SunChoice::Usno => "usno",
        SunChoice::Meeus => "meeus",
    }
}

/// Law: the word of a sun is read as that sun.
pub fn sun_words_are_read()
    ensures { SunWordsAreRead }
{}
