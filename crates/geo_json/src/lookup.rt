// What a value of JSON holds, and the member of an object with a name.
ghost use Rattle.std.specs.Prelude.{◌≡◌, option_map};
ghost use Rattle.json_value.specs.View.{tree_of, items_of, entries_of};
ghost use Rattle.geo_json.specs.Lookup.{number_in, text_in, list_in, object_in, find_member};
ghost use Rattle.geo_json.specs.Seen.{found_of, with_more};

use exact_decimal::Decimal;
use json_value::{Json, JsonList, JsonTable};

/// The number that a value is.
pub fn number_in(value: &Json) -> Option<&Decimal>
    ensures { option_map (λ d. d.now) result ≡ number_in (tree_of value.now) }
{
    match value {
        Json::Number(number) => Some(number),
        _ => None,
    }
}

/// The text that a value is.
pub fn text_in(value: &Json) -> Option<&str>
    ensures { option_map (λ s. s.now) result ≡ text_in (tree_of value.now) }
{
    match value {
        Json::Text(text) => Some(text.text()),
        _ => None,
    }
}

/// The items of a list.
pub fn list_in(value: &Json) -> Option<&JsonList>
    ensures { option_map (λ l. items_of l.now) result ≡ list_in (tree_of value.now) }
{
    match value {
        Json::List(list) => Some(list),
        _ => None,
    }
}

/// The members of an object.
pub fn object_in(value: &Json) -> Option<&JsonTable>
    ensures { option_map (λ t. entries_of t.now) result ≡ object_in (tree_of value.now) }
{
    match value {
        Json::Table(table) => Some(table),
        _ => None,
    }
}

/// What stands under a name: no member, one, or more than one.
#[derive(Clone, Copy)]
pub enum Found<'a> {
    Absent,
    Once(&'a Json),
    Again,
}

fn with_more<'a>(found: Found<'a>, value: &'a Json) -> Found<'a>
    ensures { found_of result ≡ with_more (found_of found.entry) (tree_of value.now) }
{
    match found {
        Found::Absent => Found::Once(value),
        _ => Found::Again,
    }
}

/// What stands under a name among an object's members.
pub fn find_member<'a>(table: &'a JsonTable, name: &str) -> Found<'a>
    ensures { found_of result ≡ find_member name.now (entries_of table.now) }
{
    let mut found = Found::Absent;
    for i in 0..table.count() {
        if table.name(i).text() == name {
            found = with_more(found, table.value(i));
        }
    }
    found
}
