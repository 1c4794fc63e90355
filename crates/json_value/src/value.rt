//! Values of JSON, their lists and tables as they are written.

ghost use Rattle.std.specs.Prelude.{◌≡◌, ◌<◌, length, string_bytes, slice_get, option_map};

use crate::place::{item_at, member_at, name_of, value_of};
use exact_decimal::Decimal;
use sqlite_items::Items;
use std::marker::Model;

/// A text, its escapes read.
#[derive(Debug, Drop)]
pub struct JsonText {
    text: String,
}

impl Model for JsonText {
    ghost use Rattle.std.specs.Prelude.{List, ℕ, string_bytes};

    ghost Value = { List ℕ };

    ghost view = { λ t. string_bytes t.text };
}

impl JsonText {
    pub(crate) fn new(text: String) -> JsonText
        ensures { result ≡ string_bytes text }
    {
        JsonText { text }
    }

    pub fn text(&self) -> &str
        ensures { result.now ≡ self.now }
    {
        self.text.as_str()
    }
}

#[cycle(json)]
#[derive(Drop)]
pub enum Json {
    Null,
    Flag(bool),
    Number(Decimal),
    Text(JsonText),
    List(JsonList),
    Table(JsonTable),
}

#[cycle(json)]
#[derive(Drop)]
pub struct JsonList {
    items: Items<Json>,
}

impl JsonList {
    ghost use Rattle.std.specs.Prelude.{map};
    ghost use Rattle.json_value.specs.View.{tree_of, items_of};

    pub(crate) fn new(items: Items<Json>) -> JsonList
        ensures { items_of result ≡ map tree_of items }
    {
        JsonList { items }
    }

    fn items(&self) -> &[Json]
        ensures { map tree_of result.now ≡ items_of self.now }
    {
        self.items.as_slice()
    }

    pub fn count(&self) -> usize
        ensures { result ≡ length (items_of self.now) }
    {
        self.items.len()
    }

    /// The value at the place i, from 0.
    pub fn item(&self, i: usize) -> &Json
        requires { i < length (items_of self.now) }
        ensures { slice_get (items_of self.now) i ≡ Some (tree_of result.now) }
    {
        item_at(self.items(), i)
    }
}

#[cycle(json)]
#[derive(Drop)]
pub struct Member {
    pub name: JsonText,
    pub value: Json,
}

#[cycle(json)]
#[derive(Drop)]
pub struct JsonTable {
    members: Items<Member>,
}

impl JsonTable {
    ghost use Rattle.std.specs.Prelude.{map};
    ghost use Rattle.json_value.specs.View.{entry_of, entries_of, tree_of};

    pub(crate) fn new(members: Items<Member>) -> JsonTable
        ensures { entries_of result ≡ map entry_of members }
    {
        JsonTable { members }
    }

    fn members(&self) -> &[Member]
        ensures { map entry_of result.now ≡ entries_of self.now }
    {
        self.members.as_slice()
    }

    pub fn count(&self) -> usize
        ensures { result ≡ length (entries_of self.now) }
    {
        self.members.len()
    }

    /// The name of the pair at the place i, from 0; names may come more than once.
    pub fn name(&self, i: usize) -> &JsonText
        requires { i < length (entries_of self.now) }
        ensures { option_map (λ e. e.name) (slice_get (entries_of self.now) i) ≡ Some result.now }
    {
        name_of(member_at(self.members(), i))
    }

    /// The value of the pair at the place i, from 0.
    pub fn value(&self, i: usize) -> &Json
        requires { i < length (entries_of self.now) }
        ensures { option_map (λ e. e.value) (slice_get (entries_of self.now) i) ≡ Some (tree_of result.now) }
    {
        value_of(member_at(self.members(), i))
    }
}
