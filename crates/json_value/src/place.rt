//! The places of a list and of a table.

ghost use Rattle.std.specs.Prelude.{◌≡◌, ◌<◌, length, map, slice_get};
ghost use Rattle.json_value.specs.View.{tree_of, entry_of};

use crate::value::{Json, JsonText, Member};

pub fn item_at(items: &[Json], i: usize) -> &Json
    requires { i < length (map tree_of items.now) }
    ensures { slice_get (map tree_of items.now) i ≡ Some (tree_of result.now) }
{
    &items[i]
}

pub fn member_at(members: &[Member], i: usize) -> &Member
    requires { i < length (map entry_of members.now) }
    ensures { slice_get (map entry_of members.now) i ≡ Some (entry_of result.now) }
{
    &members[i]
}

pub fn name_of(member: &Member) -> &JsonText
    ensures { result.now ≡ (entry_of member.now).name }
{
    &member.name
}

pub fn value_of(member: &Member) -> &Json
    ensures { tree_of result.now ≡ (entry_of member.now).value }
{
    &member.value
}
