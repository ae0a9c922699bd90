// The members of an object that a document's reader doesn't name.
ghost use Rattle.std.specs.Prelude.{◌≡◌, IfOk};
ghost use Rattle.serde_json.specs.View.{view, members_view};
ghost use Rattle.sigstore_tuf_text.specs.Others.{is_named, others_in, others_of};

use crate::member::DocumentMember;
use foundation::NoMemory;
use serde_json::{Map, Value};
use sigstore_types_parts::{Json, Member, Text, TextMap};
use std::alloc::Global;

/// The members with other names; none where the value is no object.
#[tactic(auto, unfolding(crate::specs::Others::others_of))]
pub fn others(
    alloc: Global,
    value: &Value,
    known: &[DocumentMember],
) -> Result<TextMap<Json>, NoMemory>
    ensures { IfOk result (λ m. m ≡ others_of known.now (view value.now)) }
{
    match value.as_object() {
        Some(members) => read_others(alloc, members, known),
        None => Ok(TextMap::new(alloc)),
    }
}

fn read_others(
    alloc: Global,
    members: &Map<String, Value>,
    known: &[DocumentMember],
) -> Result<TextMap<Json>, NoMemory>
    ensures { IfOk result (λ m. m ≡ others_in known.now (members_view members.now.entries)) }
{
    let mut found = TextMap::new(alloc);
    for (name, member) in members.iter() {
        if !is_named(known, name.as_str()) {
            found.insert(Text::new(alloc, name.as_str())?, Json::copy_of(member)?)?;
        }
    }
    Ok(found)
}

// Whether a member that is known has the name.
fn is_named(known: &[DocumentMember], name: &str) -> bool
    ensures { result ≡ is_named known.now name.now }
{
    for member in known {
        if member.name() == name {
            return true;
        }
    }
    false
}
