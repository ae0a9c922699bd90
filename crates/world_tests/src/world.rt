// A world: the files that a run takes, and how it is to end.
use crate::fault::Fault;
use serde_json::{Map, Value};
use sigstore_types_parts::parse_json;
use std::alloc::Global;

/// A world of a file, with the one that it names as its base: where it hasn't a file itself, it has that of its
/// base.
#[derive(Clone, Copy)]
pub struct World<'a> {
    own: &'a Value,
    base: Option<&'a Value>,
}

/// The worlds of a file, each a line.
pub fn worlds_in(alloc: Global, file: &[u8]) -> Result<Vec<Value>, Fault> {
    let Ok(text) = str::from_utf8(file) else {
        return Err(Fault::World);
    };
    let mut worlds = Vec::new(alloc);
    for line in text.lines() {
        match parse_json(alloc, line.as_bytes()) {
            Ok(world) => worlds.push(world)?,
            Err(_) => return Err(Fault::World),
        }
    }
    Ok(worlds)
}

fn text_in<'a>(value: &'a Value, member: &str) -> Option<&'a str> {
    value.get(member).and_then(Value::as_str)
}

fn file_in<'a>(value: &'a Value, name: &str) -> Option<&'a Value> {
    value.get("files").and_then(|files| files.get(name))
}

// The world of a name.
fn named<'a>(worlds: &'a [Value], name: &str) -> Result<&'a Value, Fault> {
    for world in worlds {
        if text_in(world, "name") == Some(name) {
            return Ok(world);
        }
    }
    Err(Fault::World)
}

impl<'a> World<'a> {
    /// A world among those of its file.
    pub fn new(own: &'a Value, worlds: &'a [Value]) -> Result<World<'a>, Fault> {
        let base = match text_in(own, "base") {
            Some(name) => Some(named(worlds, name)?),
            None => None,
        };
        Ok(World { own, base })
    }

    /// A text of the world.
    pub fn text(&self, member: &str) -> Option<&'a str> {
        text_in(self.own, member)
    }

    /// A number of the world.
    pub fn number(&self, member: &str) -> Option<u64> {
        self.own.get(member).and_then(Value::as_u64)
    }

    /// Whether the world has a member of its own.
    pub fn has(&self, member: &str) -> bool {
        self.own.get(member).is_some()
    }

    /// The number of the call that fails, of an object.
    pub fn failing(&self, object: &str) -> Option<u64> {
        self.own
            .get("failing")
            .and_then(|calls| calls.get(object))
            .and_then(Value::as_u64)
    }

    /// The lines that are to stand in what is told.
    pub fn lines(&self) -> &'a [Value] {
        match self.own.get("lines").and_then(Value::as_array) {
            Some(lines) => lines,
            None => &[],
        }
    }

    /// A file; one that is null isn't there.
    pub fn file(&self, name: &str) -> Option<&'a str> {
        match file_in(self.own, name) {
            Some(file) => file.as_str(),
            None => self
                .base
                .and_then(|base| file_in(base, name))
                .and_then(Value::as_str),
        }
    }

    /// The files of the base, and those of its own.
    pub fn layers(&self) -> [Option<&'a Map<String, Value>>; 2] {
        [self.base.and_then(files_of), files_of(self.own)]
    }
}

fn files_of(value: &Value) -> Option<&Map<String, Value>> {
    value.get("files").and_then(Value::as_object)
}
