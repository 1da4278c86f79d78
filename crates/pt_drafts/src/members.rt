//! Members of objects by their names.

ghost use Rattle.std.specs.Prelude.{◌≡◌, map};
ghost use Rattle.serde_json.specs.View.{members_view, view};
ghost use Rattle.pt_drafts.specs.Members.{all_named, check, given, has_only, is_name, is_text, needed};

use crate::fault::Key;
use crate::values::Stands;
use serde_json::{Map, Value};

/// Nothing where it holds, or else this fault.
pub(crate) fn check(holds: bool, key: Key) -> Result<(), Key>
    ensures { result ≡ check key holds }
{
    if holds { Ok(()) } else { Err(key) }
}

/// What a member stands for, where the object has it.
pub(crate) fn given<T: Stands>(object: &Value, name: &str, key: Key) -> Result<Option<T::Out>, Key>
    ensures { result ≡ given T.stands_for name.now key (view object.now) }
{
    match object.get(name) {
        Some(value) => match T::read(value) {
            Some(found) => Ok(Some(found)),
            None => Err(key),
        },
        None => Ok(None),
    }
}

/// What a member stands for that has to be there.
pub(crate) fn needed<T: Stands>(object: &Value, name: &str) -> Option<T::Out>
    ensures { result ≡ needed T.stands_for name.now (view object.now) }
{
    T::read(object.get(name)?)
}

fn is_name(names: &[&str], name: &str) -> bool
    ensures { result ≡ is_name (map (λ n. n.now) names.now) name.now }
{
    for known in names {
        if *known == name {
            return true;
        }
    }
    false
}

#[tactic(auto, unfolding(crate::specs::Members::all_named))]
fn all_named(members: &Map<String, Value>, names: &[&str]) -> bool
    ensures { result ≡ all_named (map (λ n. n.now) names.now) (members_view members.now.entries) }
{
    for (name, _) in members.iter() {
        if !is_name(names, name.as_str()) {
            return false;
        }
    }
    true
}

/// Whether it is an object, and each of its members has one of these names.
pub(crate) fn has_only(value: &Value, names: &[&str]) -> bool
    ensures { result ≡ has_only (map (λ n. n.now) names.now) (view value.now) }
{
    match value.as_object() {
        Some(members) => all_named(members, names),
        None => false,
    }
}

/// Whether a text stands there, where something does.
pub(crate) fn is_text(object: &Value, name: &str) -> bool
    ensures { result ≡ is_text name.now (view object.now) }
{
    match object.get(name) {
        Some(value) => value.is_string(),
        None => true,
    }
}
