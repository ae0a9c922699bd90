// A world over the library that asks: it is called until it asks for nothing more, and each question is answered by the world.
use crate::fault::Fault;
use crate::world::World;
use base64::engine::general_purpose::STANDARD;
use embedded_verify::{Request, Said, answer};
use given_objects::{File, Name};
use jiff::Timestamp;
use sigstore_types_parts::Text;
use std::alloc::Global;

// The most calls for one world.
const ROUNDS: u32 = 64;

const ASKING: u32 = 6;

// What was asked and is answered.
#[derive(Drop)]
struct Answered {
    good: String,
    bad: String,
    files: Vec<Text>,
    absent: Vec<Text>,
}

impl Answered {
    fn new(alloc: Global) -> Answered {
        Answered {
            good: String::new(alloc),
            bad: String::new(alloc),
            files: Vec::new(alloc),
            absent: Vec::new(alloc),
        }
    }
}

// The bytes of a file of the repository.
fn published<'a>(alloc: Global, world: &World<'a>, name: &str) -> Result<Option<&'a str>, Fault> {
    let name = format!(in alloc; "repository/{name}")?;
    Ok(world.file(name.as_str()))
}

// Adds a line to the rows that are good where the world's provider has it, and else to those that aren't.
fn answer_row(world: &World, line: &str, answered: &mut Answered) -> Result<(), Fault> {
    let rows = world.file("provider").unwrap_or("");
    let answers = if rows.lines().any(|row| row == line) {
        &mut answered.good
    } else {
        &mut answered.bad
    };
    answers.push_str(line)?;
    answers.push('\n')?;
    Ok(())
}

// Adds a file of the repository to those that are handed in, or to those that aren't there.
fn answer_file(
    alloc: Global,
    world: &World,
    encoded: &str,
    answered: &mut Answered,
) -> Result<(), Fault> {
    let Ok(bytes) = STANDARD.decode(alloc, encoded.as_bytes()) else {
        return Err(Fault::World);
    };
    let Ok(name) = str::from_utf8(&bytes) else {
        return Err(Fault::World);
    };
    let text = Text::new(alloc, name)?;
    match published(alloc, world, name)? {
        Some(_) => answered.files.push(text)?,
        None => answered.absent.push(text)?,
    }
    Ok(())
}

// Answers a question.
fn answer_line(
    alloc: Global,
    world: &World,
    line: &str,
    answered: &mut Answered,
) -> Result<(), Fault> {
    let mut words = line.split_whitespace();
    match (words.next(), words.next()) {
        (Some("accept"), _) => answer_row(world, line, answered),
        (Some("file"), Some(encoded)) => answer_file(alloc, world, encoded, answered),
        _ => Err(Fault::World),
    }
}

// The names of the store's files.
fn store_names(alloc: Global, world: &World) -> Result<Vec<Text>, Fault> {
    let mut names = Vec::new(alloc);
    for files in world.layers().into_iter().flatten() {
        for (name, _) in files.iter() {
            if let Some(name) = name.as_str().strip_prefix("store/") {
                names.push(Text::new(alloc, name)?)?;
            }
        }
    }
    Ok(names)
}

// The files of these names, below a folder of the world.
fn files_below<'a>(
    alloc: Global,
    world: &World<'a>,
    folder: &str,
    names: &'a [Text],
) -> Result<Vec<File<'a>>, Fault> {
    let mut files = Vec::new(alloc);
    for name in names {
        let path = format!(in alloc; "{folder}{name}")?;
        if let Some(bytes) = world.file(path.as_str()) {
            files.push(File {
                name: name.as_str().as_bytes(),
                bytes: bytes.as_bytes(),
            })?;
        }
    }
    Ok(files)
}

fn names_of<'a>(alloc: Global, names: &'a [Text]) -> Result<Vec<Name<'a>>, Fault> {
    let mut absent = Vec::new(alloc);
    for name in names {
        absent.push(Name {
            name: name.as_str().as_bytes(),
        })?;
    }
    Ok(absent)
}

fn octets<'a>(world: &World<'a>, name: &str) -> &'a [u8] {
    world.file(name).unwrap_or("").as_bytes()
}

// One call, with what was answered so far.
fn call(alloc: Global, world: &World, answered: &Answered, now: Timestamp) -> Result<Said, Fault> {
    let stored = store_names(alloc, world)?;
    let store = files_below(alloc, world, "store/", &stored)?;
    let repository = files_below(alloc, world, "repository/", &answered.files)?;
    let absent = names_of(alloc, &answered.absent)?;
    let request = Request {
        root: octets(world, "root.json"),
        bundle: octets(world, "bundle.json"),
        artifact: octets(world, "artifact"),
        policy: octets(world, "policy"),
        repository: &repository,
        absent: &absent,
        store: &store,
        good: answered.good.as_bytes(),
        bad: answered.bad.as_bytes(),
        seconds: now.as_second(),
        nanoseconds: 0,
        whole: false,
    };
    Ok(answer(alloc, &request)?)
}

/// What is said once nothing is asked any more: the status, and the text, which is added. Each call but the last asks for something
/// that no earlier one did.
pub fn push_asked(
    alloc: Global,
    world: &World,
    now: Timestamp,
    text: &mut String,
) -> Result<u64, Fault> {
    let mut answered = Answered::new(alloc);
    for _ in 0..ROUNDS {
        let said = call(alloc, world, &answered, now)?;
        if said.status != ASKING {
            text.push_str(said.out.as_str())?;
            return Ok(u64::from(said.status));
        }
        for line in said.out.as_str().lines() {
            answer_line(alloc, world, line, &mut answered)?;
        }
    }
    Err(Fault::World)
}

/// Whether the library can be asked: the world's run is the usual one, with keys in PEM, and nothing fails in it.
pub fn is_askable(world: &World) -> bool {
    let inputs = ["root.json", "bundle.json", "artifact", "policy", "provider"];
    inputs.iter().all(|name| world.file(name).is_some())
        && world.text("words").is_none()
        && !world.has("failing")
        && !world.has("room")
        && !octets(world, "root.json")
            .windows(4)
            .any(|part| part == b"der:".as_slice())
}
