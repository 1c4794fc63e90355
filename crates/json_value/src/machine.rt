//! The machine that reads a value, a byte at a time.

ghost use Rattle.std.specs.Prelude.{◌≡◌, ◌≢◌, ◌<◌, ◌^◌, ℕ, List, [], ◌∷◌, Some, length, IfOk, OnOk, IsTrue, map, option_map, string_bytes};
ghost use Rattle.json_character.specs.Ascii as ascii;
ghost use Rattle.json_value.specs.Machine as spec;
ghost use Rattle.json_value.specs.Seen.{frames_of, state_of, literal_of, seen_with, AfterOutcome, IsReady, Steps};
ghost use Rattle.json_character.specs.Within as within_spec;
ghost use Rattle.json_value.specs.Tree.{number, text as text_tree, list_of, table_of};
ghost use Rattle.json_value.specs.View.{tree_of, entry_of};

use crate::value::{Json, JsonList, JsonTable, JsonText, Member};
use exact_decimal::{Decimal, Numeral, Phase, first_phase};
use json_character::{Outcome, Within};
use no_memory::NoMemory;
use sqlite_items::Items;
use std::alloc::Global;
use std::mem;

/// A list or a table that waits for a value inside it; the table with the value's name.
#[derive(Drop)]
pub enum Frame {
    List(Items<Json>),
    Table(Items<Member>, JsonText),
}

#[derive(Clone, Copy, Debug, PartialEq, Eq)]
pub enum Literal {
    Null,
    True,
    False,
}

/// What comes next.
#[derive(Drop)]
pub enum Next<'a> {
    Start,
    /// The rest of a byte order mark.
    Mark(&'a [u8]),
    Value,
    FirstItem,
    FirstName,
    Name(Items<Member>),
    Colon(Items<Member>, JsonText),
    AfterItem(Items<Json>),
    AfterMember(Items<Member>),
    /// The rest of `null`, `true` or `false`.
    Word(&'a [u8], Literal),
    Number(Phase),
    Text(Within),
    NameText(Items<Member>, Within),
    Done(Json),
}

/// The lists and tables around the place, the innermost last, and the number or the text that is being read.
#[derive(Drop)]
pub struct Machine {
    pub frames: Vec<Frame>,
    pub numeral: Numeral,
    pub text: String,
}

fn is_blank(b: u8) -> bool
    ensures { result ≡ ascii.is_blank b }
{
    (b == b' ' || b == b'\t') || (b == b'\n' || b == b'\r')
}

fn is_exponent_letter(b: u8) -> bool
    ensures { result ≡ ascii.is_exponent_letter b }
{
    b == b'e' || b == b'E'
}

impl Literal {
    fn value(self) -> Json
        ensures { tree_of result ≡ literal_of self }
    {
        match self {
            Literal::Null => Json::Null,
            Literal::True => Json::Flag(true),
            Literal::False => Json::Flag(false),
        }
    }
}

fn number_value(decimal: Decimal) -> Json
    ensures { tree_of result ≡ number decimal }
{
    Json::Number(decimal)
}

fn text_value(text: JsonText) -> Json
    ensures { tree_of result ≡ text_tree text }
{
    Json::Text(text)
}

fn list_value(items: Items<Json>) -> Json
    ensures { tree_of result ≡ list_of (map tree_of items) }
{
    Json::List(JsonList::new(items))
}

fn table_value(members: Items<Member>) -> Json
    ensures { tree_of result ≡ table_of (map entry_of members) }
{
    Json::Table(JsonTable::new(members))
}

/// A value has ended.
fn ended<'a>(frames: &mut Vec<Frame>, value: Json) -> Result<Next<'a>, NoMemory>
    ensures { IfOk result (λ next. (n : spec.Numeral) (s : List ℕ) → state_of n s (frames_of frames.new.items) next ≡ spec.ended (frames_of frames.old.items) (tree_of value)) }
{
    match frames.pop() {
        None => Ok(Next::Done(value)),
        Some(Frame::List(mut items)) => {
            items.push(value)?;
            Ok(Next::AfterItem(items))
        }
        Some(Frame::Table(mut members, name)) => {
            members.push(Member { name, value })?;
            Ok(Next::AfterMember(members))
        }
    }
}

fn after_item<'a>(
    frames: &mut Vec<Frame>,
    items: Items<Json>,
    b: u8,
) -> Result<Option<Next<'a>>, NoMemory>
    ensures { Steps frames.old.items (Next.AfterItem items) b result frames.new.items }
{
    if is_blank(b) {
        Ok(Some(Next::AfterItem(items)))
    } else if b == b',' {
        frames.push(Frame::List(items))?;
        Ok(Some(Next::Value))
    } else if b == b']' {
        Ok(Some(ended(frames, list_value(items))?))
    } else {
        Ok(None)
    }
}

fn after_member<'a>(
    frames: &mut Vec<Frame>,
    members: Items<Member>,
    b: u8,
) -> Result<Option<Next<'a>>, NoMemory>
    ensures { Steps frames.old.items (Next.AfterMember members) b result frames.new.items }
{
    if is_blank(b) {
        Ok(Some(Next::AfterMember(members)))
    } else if b == b',' {
        Ok(Some(Next::Name(members)))
    } else if b == b'}' {
        Ok(Some(ended(frames, table_value(members))?))
    } else {
        Ok(None)
    }
}

/// A byte after the text's value.
fn after_done<'a>(value: Json, b: u8) -> Option<Next<'a>>
    ensures { (n : spec.Numeral) (s : List ℕ) (fs : List spec.Frame) → option_map (state_of n s fs) result ≡ spec.step_ended (spec.done (tree_of value)) b }
{
    if is_blank(b) {
        Some(Next::Done(value))
    } else {
        None
    }
}

/// A byte after a value has ended.
fn after_ended<'a>(
    frames: &mut Vec<Frame>,
    next: Next<'a>,
    b: u8,
) -> Result<Option<Next<'a>>, NoMemory>
    ensures { IfOk result (λ r. (n : spec.Numeral) (s : List ℕ) → option_map (state_of n s (frames_of frames.new.items)) r ≡ spec.step_ended (state_of n s (frames_of frames.old.items) next.entry) b) }
{
    match next {
        Next::Done(value) => Ok(after_done(value, b)),
        Next::AfterItem(items) => after_item(frames, items, b),
        Next::AfterMember(members) => after_member(frames, members, b),
        _ => Ok(None),
    }
}

/// A byte after a value.
fn after_value<'a>(
    frames: &mut Vec<Frame>,
    value: Json,
    b: u8,
) -> Result<Option<Next<'a>>, NoMemory>
    ensures { IfOk result (λ r. (n : spec.Numeral) (s : List ℕ) → option_map (state_of n s (frames_of frames.new.items)) r ≡ spec.step_ended (spec.ended (frames_of frames.old.items) (tree_of value)) b) }
{
    let next = ended(frames, value)?;
    after_ended(frames, next, b)
}

impl Machine {
    /// Nothing is open yet.
    pub fn new(alloc: Global) -> Machine
        ensures frames { result.frames.items ≡ [] }
    {
        Machine {
            frames: Vec::new(alloc),
            numeral: Numeral::new(alloc),
            text: String::new(alloc),
        }
    }
}

/// The first byte of a value, which is no blank.
fn begin<'a>(
    alloc: Global,
    numeral: &mut Numeral,
    text: &mut String,
    b: u8,
) -> Result<Option<Next<'a>>, NoMemory>
    ensures { IfOk result (λ r. (fs : List spec.Frame) → option_map (state_of numeral.new (string_bytes text.new) fs) r ≡ spec.step_begin fs b) }
{
    let next = if b.is_ascii_digit() {
        *numeral = Numeral::digit(alloc, b)?;
        Next::Number(first_phase(b))
    } else if b == b'-' {
        *numeral = Numeral::minus(alloc);
        Next::Number(Phase::AfterMinus)
    } else if b == b'"' {
        *text = String::new(alloc);
        Next::Text(Within::Plain)
    } else if b == b'[' {
        Next::FirstItem
    } else if b == b'{' {
        Next::FirstName
    } else if b == b'n' {
        Next::Word(b"ull", Literal::Null)
    } else if b == b't' {
        Next::Word(b"rue", Literal::True)
    } else if b == b'f' {
        Next::Word(b"alse", Literal::False)
    } else {
        return Ok(None);
    };
    Ok(Some(next))
}

/// The number has ended.
fn take_decimal(alloc: Global, numeral: &mut Numeral) -> Decimal
    ensures { result ≡ spec.decimal_so_far numeral.old }
{
    let whole = mem::replace(numeral, Numeral::new(alloc));
    whole.into_decimal()
}

/// A byte that does not belong to the number any more.
fn end_number<'a>(alloc: Global, machine: &mut Machine, b: u8) -> Result<Option<Next<'a>>, NoMemory>
    ensures { IfOk result (λ r. option_map (seen_with machine.new) r ≡ spec.step_end machine.old.numeral (frames_of machine.old.frames.items) b) }
{
    let decimal = take_decimal(alloc, &mut machine.numeral);
    let value = number_value(decimal);
    after_value(&mut machine.frames, value, b)
}

fn letter_or_end<'a>(
    alloc: Global,
    machine: &mut Machine,
    b: u8,
) -> Result<Option<Next<'a>>, NoMemory>
    requires { machine.old.numeral.length < 2 ^ 32 }
    ensures { IfOk result (λ r. option_map (seen_with machine.new) r ≡ spec.step_letter machine.old.numeral (frames_of machine.old.frames.items) b) }
{
    if is_exponent_letter(b) {
        machine.numeral.count();
        Ok(Some(Next::Number(Phase::AfterLetter)))
    } else {
        end_number(alloc, machine, b)
    }
}

fn point_or_letter<'a>(
    alloc: Global,
    machine: &mut Machine,
    b: u8,
) -> Result<Option<Next<'a>>, NoMemory>
    requires { machine.old.numeral.length < 2 ^ 32 }
    ensures { IfOk result (λ r. option_map (seen_with machine.new) r ≡ spec.step_point machine.old.numeral (frames_of machine.old.frames.items) b) }
{
    if b == b'.' {
        machine.numeral.count();
        Ok(Some(Next::Number(Phase::AfterPoint)))
    } else {
        letter_or_end(alloc, machine, b)
    }
}

/// A byte within or after a number.
fn after_number<'a>(
    alloc: Global,
    machine: &mut Machine,
    phase: Phase,
    b: u8,
) -> Result<Option<Next<'a>>, NoMemory>
    requires length { machine.old.numeral.length < 2 ^ 32 }
    requires places { machine.old.numeral.places < 2 ^ 32 }
    ensures { IfOk result (λ r. option_map (seen_with machine.new) r ≡ spec.step_numeral phase machine.old.numeral (frames_of machine.old.frames.items) b) }
{
    if b.is_ascii_digit() && phase != Phase::AfterZero {
        let next = after_digit(&mut machine.numeral, phase, b)?;
        return Ok(Some(Next::Number(next)));
    }
    match phase {
        Phase::AfterLetter if b == b'+' => {
            machine.numeral.count();
            Ok(Some(Next::Number(Phase::AfterSign)))
        }
        Phase::AfterLetter if b == b'-' => {
            machine.numeral.negate_exponent();
            Ok(Some(Next::Number(Phase::AfterSign)))
        }
        Phase::AfterMinus | Phase::AfterPoint | Phase::AfterLetter | Phase::AfterSign => Ok(None),
        Phase::AfterZero | Phase::InWhole => point_or_letter(alloc, machine, b),
        Phase::InFraction => letter_or_end(alloc, machine, b),
        Phase::InExponent => end_number(alloc, machine, b),
    }
}

/// A digit that goes on with a number.
fn after_digit(numeral: &mut Numeral, phase: Phase, b: u8) -> Result<Phase, NoMemory>
    requires digit { IsTrue (ascii.is_digit b) }
    requires goes_on { phase ≢ spec.after_zero }
    requires length { numeral.old.length < 2 ^ 32 }
    requires places { numeral.old.places < 2 ^ 32 }
    ensures { IfOk result (λ next. (frames : List spec.Frame) → Some (spec.numeral next numeral.new frames) ≡ spec.step_numeral phase numeral.old frames b) }
{
    match phase {
        Phase::AfterMinus => {
            numeral.push_whole(b)?;
            Ok(first_phase(b))
        }
        Phase::AfterZero | Phase::InWhole => {
            numeral.push_whole(b)?;
            Ok(Phase::InWhole)
        }
        Phase::AfterPoint | Phase::InFraction => {
            numeral.push_fraction(b)?;
            Ok(Phase::InFraction)
        }
        Phase::AfterLetter | Phase::AfterSign | Phase::InExponent => {
            numeral.push_exponent(b)?;
            Ok(Phase::InExponent)
        }
    }
}

/// A character has gone on or ended.
fn after_outcome(text: &mut String, outcome: Outcome) -> Result<Option<Within>, NoMemory>
    ensures { IfOk result (λ r. AfterOutcome (string_bytes text.old) outcome (string_bytes text.new) r) }
{
    match outcome {
        Outcome::GoesOn(within) => Ok(Some(within)),
        Outcome::Ends(c) => {
            text.push(c)?;
            Ok(Some(Within::Plain))
        }
        Outcome::Refused => Ok(None),
    }
}

/// The text has ended.
fn take_text(alloc: Global, text: &mut String) -> JsonText
    ensures { result ≡ string_bytes text.old }
{
    JsonText::new(mem::replace(text, String::new(alloc)))
}

/// A byte within a text.
fn after_text<'a>(
    alloc: Global,
    machine: &mut Machine,
    within: Within,
    b: u8,
) -> Result<Option<Next<'a>>, NoMemory>
    requires { IsTrue (within_spec.is_begun within) }
    ensures { IfOk result (λ r. option_map (seen_with machine.new) r ≡ spec.step_characters spec.as_value (string_bytes machine.old.text) within (frames_of machine.old.frames.items) b) }
{
    if within == Within::Plain && b == b'"' {
        let text = take_text(alloc, &mut machine.text);
        let value = text_value(text);
        return Ok(Some(ended(&mut machine.frames, value)?));
    }
    match after_outcome(&mut machine.text, within.after(b))? {
        Some(within) => Ok(Some(Next::Text(within))),
        None => Ok(None),
    }
}

/// A byte within a name.
fn after_name_text<'a>(
    alloc: Global,
    machine: &mut Machine,
    members: Items<Member>,
    within: Within,
    b: u8,
) -> Result<Option<Next<'a>>, NoMemory>
    requires { IsTrue (within_spec.is_begun within) }
    ensures { IfOk result (λ r. option_map (seen_with machine.new) r ≡ spec.step_characters (spec.as_name (map entry_of members)) (string_bytes machine.old.text) within (frames_of machine.old.frames.items) b) }
{
    if within == Within::Plain && b == b'"' {
        let name = take_text(alloc, &mut machine.text);
        return Ok(Some(Next::Colon(members, name)));
    }
    match after_outcome(&mut machine.text, within.after(b))? {
        Some(within) => Ok(Some(Next::NameText(members, within))),
        None => Ok(None),
    }
}

/// A byte within or after a word.
fn after_word<'a>(
    frames: &mut Vec<Frame>,
    word: &'a [u8],
    literal: Literal,
    b: u8,
) -> Result<Option<Next<'a>>, NoMemory>
    ensures { IfOk result (λ r. (n : spec.Numeral) (s : List ℕ) → option_map (state_of n s (frames_of frames.new.items)) r ≡ spec.step (spec.word word.now (literal_of literal) (frames_of frames.old.items)) b) }
{
    match word {
        [] => after_value(frames, literal.value(), b),
        [first, rest @ ..] if b == *first => Ok(Some(Next::Word(rest, literal))),
        _ => Ok(None),
    }
}

/// A byte where a value must come.
fn before_value<'a>(
    alloc: Global,
    machine: &mut Machine,
    b: u8,
) -> Result<Option<Next<'a>>, NoMemory>
    ensures { IfOk result (λ r. option_map (seen_with machine.new) r ≡ spec.step_value (frames_of machine.old.frames.items) b) }
{
    if is_blank(b) {
        Ok(Some(Next::Value))
    } else {
        begin(alloc, &mut machine.numeral, &mut machine.text, b)
    }
}

/// A byte within or after the mark.
fn at_mark<'a>(
    alloc: Global,
    machine: &mut Machine,
    mark: &'a [u8],
    b: u8,
) -> Result<Option<Next<'a>>, NoMemory>
    ensures { IfOk result (λ r. option_map (seen_with machine.new) r ≡ spec.step (spec.mark mark.now) b) }
{
    // Nothing is open yet.
    machine.frames.clear();
    match mark {
        [] => before_value(alloc, machine, b),
        [first, rest @ ..] if b == *first => Ok(Some(Next::Mark(rest))),
        _ => Ok(None),
    }
}

fn at_start<'a>(alloc: Global, machine: &mut Machine, b: u8) -> Result<Option<Next<'a>>, NoMemory>
    ensures { IfOk result (λ r. option_map (seen_with machine.new) r ≡ spec.step spec.start b) }
{
    // Nothing is open yet.
    machine.frames.clear();
    if b == 0xEF {
        Ok(Some(Next::Mark(b"\xBB\xBF")))
    } else {
        before_value(alloc, machine, b)
    }
}

/// A list that has no item yet is open.
fn open_list(alloc: Global, frames: &mut Vec<Frame>) -> Result<(), NoMemory>
    ensures { OnOk result (frames_of frames.new.items ≡ spec.in_list [] ∷ frames_of frames.old.items) }
{
    frames.push(Frame::List(Items::new(alloc)))?;
    Ok(())
}

/// The first byte of a list's first item.
fn begin_item<'a>(alloc: Global, machine: &mut Machine, b: u8) -> Result<Option<Next<'a>>, NoMemory>
    ensures { IfOk result (λ r. option_map (seen_with machine.new) r ≡ spec.step_begin (spec.in_list [] ∷ frames_of machine.old.frames.items) b) }
{
    open_list(alloc, &mut machine.frames)?;
    begin(alloc, &mut machine.numeral, &mut machine.text, b)
}

/// A byte after the bracket of a list.
fn first_item<'a>(alloc: Global, machine: &mut Machine, b: u8) -> Result<Option<Next<'a>>, NoMemory>
    ensures { IfOk result (λ r. option_map (seen_with machine.new) r ≡ spec.step (spec.first_item (frames_of machine.old.frames.items)) b) }
{
    if is_blank(b) {
        Ok(Some(Next::FirstItem))
    } else if b == b']' {
        let list = list_value(Items::new(alloc));
        Ok(Some(ended(&mut machine.frames, list)?))
    } else {
        begin_item(alloc, machine, b)
    }
}

/// A byte after the brace of a table.
fn first_name<'a>(alloc: Global, machine: &mut Machine, b: u8) -> Result<Option<Next<'a>>, NoMemory>
    ensures { IfOk result (λ r. option_map (seen_with machine.new) r ≡ spec.step (spec.first_name (frames_of machine.old.frames.items)) b) }
{
    if is_blank(b) {
        Ok(Some(Next::FirstName))
    } else if b == b'}' {
        let table = table_value(Items::new(alloc));
        Ok(Some(ended(&mut machine.frames, table)?))
    } else {
        Ok(begin_name(alloc, machine, Items::new(alloc), b))
    }
}

/// The quote of a name.
fn begin_name<'a>(
    alloc: Global,
    machine: &mut Machine,
    members: Items<Member>,
    b: u8,
) -> Option<Next<'a>>
    ensures { option_map (seen_with machine.new) result ≡ spec.step_name (map entry_of members) (frames_of machine.old.frames.items) b }
{
    if b == b'"' {
        machine.text = String::new(alloc);
        Some(Next::NameText(members, Within::Plain))
    } else {
        None
    }
}

/// A byte where a name must come.
fn before_name<'a>(
    alloc: Global,
    machine: &mut Machine,
    members: Items<Member>,
    b: u8,
) -> Option<Next<'a>>
    ensures { option_map (seen_with machine.new) result ≡ spec.step (spec.name (map entry_of members) (frames_of machine.old.frames.items)) b }
{
    if is_blank(b) {
        Some(Next::Name(members))
    } else {
        begin_name(alloc, machine, members, b)
    }
}

/// A byte after a name.
fn after_name<'a>(
    frames: &mut Vec<Frame>,
    members: Items<Member>,
    name: JsonText,
    b: u8,
) -> Result<Option<Next<'a>>, NoMemory>
    ensures { IfOk result (λ r. (n : spec.Numeral) (s : List ℕ) → option_map (state_of n s (frames_of frames.new.items)) r ≡ spec.step (spec.colon (map entry_of members) name (frames_of frames.old.items)) b) }
{
    if is_blank(b) {
        Ok(Some(Next::Colon(members, name)))
    } else if b == b':' {
        frames.push(Frame::Table(members, name))?;
        Ok(Some(Next::Value))
    } else {
        Ok(None)
    }
}

/// One byte more; `None` where no JSON text goes on so. The only error is want of memory.
pub fn step<'a>(
    alloc: Global,
    machine: &mut Machine,
    next: Next<'a>,
    b: u8,
) -> Result<Option<Next<'a>>, NoMemory>
    requires { IsReady machine.old next }
    ensures { IfOk result (λ r. option_map (seen_with machine.new) r ≡ spec.step (seen_with machine.old next.entry) b) }
{
    match next {
        Next::Start => at_start(alloc, machine, b),
        Next::Mark(mark) => at_mark(alloc, machine, mark, b),
        Next::Value => before_value(alloc, machine, b),
        Next::FirstItem => first_item(alloc, machine, b),
        Next::FirstName => first_name(alloc, machine, b),
        Next::Name(members) => Ok(before_name(alloc, machine, members, b)),
        Next::Colon(members, name) => after_name(&mut machine.frames, members, name, b),
        Next::AfterItem(items) => after_item(&mut machine.frames, items, b),
        Next::AfterMember(members) => after_member(&mut machine.frames, members, b),
        Next::Word(word, literal) => after_word(&mut machine.frames, word, literal, b),
        Next::Number(phase) => after_number(alloc, machine, phase, b),
        Next::Text(within) => after_text(alloc, machine, within, b),
        Next::NameText(members, within) => after_name_text(alloc, machine, members, within, b),
        Next::Done(value) => Ok(after_done(value, b)),
    }
}

/// The value, where the text may end here.
fn ended_value(next: Next<'_>) -> Option<Json>
    ensures { (n : spec.Numeral) (s : List ℕ) (fs : List spec.Frame) → option_map tree_of result ≡ spec.result_ended (state_of n s fs next.entry) }
{
    match next {
        Next::Done(value) => Some(value),
        _ => None,
    }
}

fn is_whole(phase: Phase) -> bool
    ensures { result ≡ spec.is_whole phase }
{
    match phase {
        Phase::AfterZero | Phase::InWhole | Phase::InFraction | Phase::InExponent => true,
        _ => false,
    }
}

/// A value has ended with the text.
fn last_value(frames: &mut Vec<Frame>, value: Json) -> Result<Option<Json>, NoMemory>
    ensures { IfOk result (λ r. option_map tree_of r ≡ spec.result_ended (spec.ended (frames_of frames.old.items) (tree_of value))) }
{
    let next = ended(frames, value)?;
    Ok(ended_value(next))
}

fn last_number(alloc: Global, machine: &mut Machine) -> Result<Option<Json>, NoMemory>
    ensures { IfOk result (λ r. option_map tree_of r ≡ spec.result_ended (spec.ended (frames_of machine.old.frames.items) (number (spec.decimal_so_far machine.old.numeral)))) }
{
    let decimal = take_decimal(alloc, &mut machine.numeral);
    let value = number_value(decimal);
    last_value(&mut machine.frames, value)
}

/// The value, where the bytes end here; `None` where a text may not. The only error is want of memory.
pub fn finish(
    alloc: Global,
    machine: &mut Machine,
    next: Next<'_>,
) -> Result<Option<Json>, NoMemory>
    ensures { IfOk result (λ r. option_map tree_of r ≡ spec.result (seen_with machine.old next.entry)) }
{
    match next {
        Next::Done(value) => Ok(Some(value)),
        Next::Word([], literal) => last_value(&mut machine.frames, literal.value()),
        Next::Number(phase) if is_whole(phase) => last_number(alloc, machine),
        _ => Ok(None),
    }
}
