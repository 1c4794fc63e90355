// The letters of a line, read one after another.
ghost use Rattle.std.specs.Prelude.{◌≡◌, ◌<◌, ◌+◌, ◌*◌, true, length, drop, option_map, MatchResult, ⊤};
ghost use Rattle.std.specs.Char.{digit_value, is_ascii_digit};
ghost use Rattle.serde_json.specs.View.{view};
ghost use Rattle.covering.specs.Letters.{is_letter};
ghost use Rattle.covering_check.specs.Checks.{is_spent};
ghost use Rattle.covering_check.specs.Left.{IsAtEnd, left, most_digits};
ghost use Rattle.covering_check.specs.Marks.{goes_on, marks_from, marks_in, with_mark, with_marks};

use crate::fault::CoverFault;
use crate::mark::{Form, Mark, Run};
use serde_json::Value;

/// The letters of a text from a byte on, behind those that are left of a run.
#[derive(Clone, Copy)]
pub(crate) struct Letters<'v> {
    pub text: &'v [u8],
    pub form: Form,
    pub at: usize,
    pub run: Run,
}

/// The letters of a line: in runs where it has a member `runs`, else one by one.
#[tactic(auto, unfolding(crate::specs::Marks::marks_in))]
pub(crate) fn letters_in(value: &Value) -> Option<Letters<'_>>
    ensures { option_map left result ≡ marks_in (view value.now) }
{
    if let Some(runs) = value.get("runs") {
        return Some(all_letters(runs.as_str()?.as_bytes(), Form::Runs));
    }
    let tree = value.get("tree")?;
    Some(all_letters(tree.as_str()?.as_bytes(), Form::Tree))
}

fn all_letters(text: &[u8], form: Form) -> Letters<'_>
    ensures { left result ≡ marks_from (most_digits form) 0 0 0 text.now }
{
    let mark = Mark {
        letter: b'k',
        place: 0,
    };
    Letters {
        text,
        form,
        at: 0,
        run: Run { count: 0, mark },
    }
}

impl Letters<'_> {
    /// The next letter.
    #[tactic(auto, using(crate::proofs::Reading::one_taken, crate::proofs::Reading::first_taken))]
    pub(crate) fn next(&mut self) -> Result<Mark, CoverFault>
        ensures { MatchResult result (λ m. left self.old ≡ with_mark m (left self.new)) (IsAtEnd (left self.old)) }
    {
        if self.run.count > 0 {
            self.run.count -= 1;
            return Ok(self.run.mark);
        }
        let run = match run_at(self.text, self.form, self.at) {
            Ok(run) => run,
            Err(fault) => return Err(fault),
        };
        self.at = run.mark.place + 1;
        self.run = Run {
            count: run.count - 1,
            mark: run.mark,
        };
        Ok(run.mark)
    }

    /// Whether no letter and no byte is left.
    pub(crate) fn are_spent(&self) -> bool
        ensures { result ≡ is_spent (left self.now) }
    {
        self.run.count == 0 && self.at >= self.text.len()
    }
}

// The run at a byte: a count, if there is one, and a letter.
fn run_at(text: &[u8], form: Form, from: usize) -> Result<Run, CoverFault>
    ensures run { MatchResult result
        (λ r. marks_from (most_digits form) 0 0 from (drop from text.now)
        ≡ with_marks r.count r.mark (marks_from (most_digits form) 0 0 (r.mark.place + 1) (drop (r.mark.place + 1) text.now)))
        (IsAtEnd (marks_from (most_digits form) 0 0 from (drop from text.now))) }
    ensures some { MatchResult result (λ r. (0 < r.count) × (r.mark.place < length text.now)) (λ _. ⊤) }
{
    let most = form.most_digits();
    let mut at = from;
    let mut digits = 0;
    let mut count = 0;
    while at < text.len() {
        let byte = text[at];
        if is_letter(byte) {
            return Ok(Run {
                count: if digits == 0 { 1 } else { count },
                mark: Mark {
                    letter: byte,
                    place: at,
                },
            });
        }
        if !goes_on(most, digits, byte) {
            return Err(CoverFault::Letter(at));
        }
        count = with_digit(count, byte);
        digits += 1;
        at += 1;
    }
    Err(CoverFault::Short)
}

fn with_digit(count: u32, digit: u8) -> u32
    requires small { count < 100000000 }
    requires digit { is_ascii_digit digit ≡ true }
    ensures value { result ≡ count * 10 + digit_value digit }
    ensures below { result < count * 10 + 10 }
{
    count * 10 + (digit - b'0') as u32
}

// whether a count of so many digits may go on with this byte
fn goes_on(most: u32, digits: u32, byte: u8) -> bool
    ensures { result ≡ goes_on most digits byte }
{
    byte.is_ascii_digit() && digits < most && !(digits == 0 && byte == b'0')
}

fn is_letter(byte: u8) -> bool
    ensures { result ≡ is_letter byte }
{
    byte == b'k' || byte == b'x' || byte == b'p' || byte == b'o' || byte == b's'
}
