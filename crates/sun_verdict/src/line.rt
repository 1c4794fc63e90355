// The line of a request with its verdict.
ghost use Rattle.std.specs.Prelude.{◌≡◌, IfOk, string_bytes};
ghost use Rattle.outcome.specs.Writing.{Writes};
ghost use Rattle.sun_verdict.specs.Line.{question_text, sun_text, line_text, verdict_line, open_count, undecided_in};
ghost use Rattle.sun_verdict.specs.Request.{IsInRange};
ghost use Rattle.sun_verdict.specs.Truth.{IsTrueOfSky};

use crate::decimals::decimal_string;
use crate::request::{Question, Request};
use crate::verdict::{Verdict, verdict_on};
use method_table::SunChoice;
use outcome::{Stop, write_text};
use source_sink::Sink;
use std::alloc::{AllocError, Global};

#[tactic(auto, unfolding(crate::specs::Line::question_text))]
fn question_string(alloc: Global, question: Question) -> Result<String, AllocError>
    ensures { IfOk result (λ text. string_bytes text ≡ question_text question) }
{
    match question {
        Question::Altitude { angle } => {
            let angle = decimal_string(alloc, angle)?;
            format!(in alloc; "angle {angle}")
        }
        Question::Meridian => format!(in alloc; "meridian"),
        Question::Shadow { factor } => format!(in alloc; "asr {factor}"),
    }
}

fn sun_text(sun: SunChoice) -> &'static str
    ensures { result.now ≡ sun_text sun }
{
    match sun {
        SunChoice::Usno => "",
        SunChoice::Meeus => " meeus",
    }
}

#[tactic(auto, unfolding(crate::specs::Line::line_text))]
fn line(alloc: Global, request: &Request, verdict: Verdict) -> Result<String, AllocError>
    ensures { IfOk result (λ text. string_bytes text ≡ line_text request.now verdict) }
{
    let minute = request.minute;
    let lon = decimal_string(alloc, request.lon)?;
    let lat = decimal_string(alloc, request.lat)?;
    let question = question_string(alloc, request.question)?;
    let sun = sun_text(request.sun);
    let word = verdict.word(request.question);
    format!(in alloc; "minute {minute} lon {lon} lat {lat} {question}{sun} {word}\n")
}

fn open_count(verdict: Verdict) -> u32
    ensures { result ≡ open_count verdict }
{
    match verdict {
        Verdict::Above | Verdict::Below => 0,
        Verdict::Open => 1,
    }
}

/// Writes the line of a request with the verdict on it; answers how many verdicts in it are undecided, 0 or 1.
pub fn write_verdict<K: Sink>(alloc: Global, request: &Request, out: &mut K) -> Result<u32, Stop>
    requires { IsInRange request.now }
    ensures writes { Writes (verdict_line request.now) result
        (K.faults out.old) (K.faults out.new) (K.held out.old) (K.held out.new) }
    ensures count { IfOk result (λ count. count ≡ undecided_in request.now) }

    // The verdict is true of the sky at that place and minute.
    ensures truth { IsTrueOfSky request.now }
{
    let verdict = verdict_on(request);
    let Ok(line) = line(alloc, request, verdict) else {
        return Err(Stop::NoMemory);
    };
    write_text(out, line.as_bytes(), open_count(verdict))
}
