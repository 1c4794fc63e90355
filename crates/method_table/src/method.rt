// The methods and the two rules for Asr, with their words.
ghost use Rattle.std.specs.Prelude.{◌≡◌, IfSome};
ghost use Rattle.method_table.specs.Method.{MethodWordsAreRead, asr_word, method_of, method_word};

/// A method of the table, after the manual of PrayTimes.org; its numbers are this project's own.
#[derive(Clone, Copy, Debug, PartialEq, Eq)]
pub enum Method {
    Mwl,
    Isna,
    Egypt,
    Karachi,
    Makkah,
    Tehran,
    Jafari,
}

/// How long the shadow is at Asr: once or twice the object, beside its noon shadow.
#[derive(Clone, Copy, Debug, PartialEq, Eq)]
pub enum Asr {
    Standard,
    Hanafi,
}

const METHODS: [Method; 7] = [
    Method::Mwl,
    Method::Isna,
    Method::Egypt,
    Method::Karachi,
    Method::Makkah,
    Method::Tehran,
    Method::Jafari,
];

/// The method that a word of an order names, `None` exactly where the word is no method's.
pub fn method_of(word: &str) -> Option<Method>
    ensures value { result ≡ method_of word.now }
    ensures found { IfSome result (λ m. word.now ≡ method_word m) }
{
    METHODS.iter().copied().find(|m| method_word(*m) == word)
}

/// The word of a method in orders and tables.
pub fn method_word(m: Method) -> &'static str
    ensures { result.now ≡ method_word m }
{
    match m {
        Method::Mwl => "mwl",
        Method::Isna => "isna",
        Method::Egypt => "egypt",
        Method::Karachi => "karachi",
        Method::Makkah => "makkah",
        Method::Tehran => "tehran",
        Method::Jafari => "jafari",
    }
}

/// Law: the word of a method is read as that method.
pub fn method_words_are_read()
    ensures { MethodWordsAreRead }
{}

/// The word of a rule for Asr in orders and tables.
pub fn asr_word(a: Asr) -> &'static str
    ensures { result.now ≡ asr_word a }
{
    match a {
        Asr::Standard => "standard",
        Asr::Hanafi => "hanafi",
    }
}
