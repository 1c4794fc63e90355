// Letters and their places.
ghost use Rattle.std.specs.Prelude.{◌≡◌, ◌≤◌};
ghost use Rattle.covering_check.specs.Left.{most_digits};

/// A letter of a covering, and the place of its byte.
#[derive(Clone, Copy)]
pub(crate) struct Mark {
    pub letter: u8,
    pub place: usize,
}

/// So many times the same letter.
#[derive(Clone, Copy)]
pub(crate) struct Run {
    pub count: u32,
    pub mark: Mark,
}

/// How letters are spelled: one by one, or in runs.
#[derive(Clone, Copy)]
pub(crate) enum Form {
    Tree,
    Runs,
}

impl Form {
    /// The most digits of a count.
    pub(crate) fn most_digits(self) -> u32
        ensures value { result ≡ most_digits self }
        ensures few { result ≤ 9 }
    {
        match self {
            Form::Tree => 0,
            Form::Runs => 9,
        }
    }
}
