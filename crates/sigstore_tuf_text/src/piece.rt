// The pieces of a pattern's segment, and how they are read.
ghost use Rattle.std.specs.Prelude.{◌≡◌, ◌==◌, option_map, position, IfOk};
ghost use Rattle.sigstore_tuf_text.specs.Pattern.{piece_of, star_of, class_of};
ghost use Rattle.sigstore_tuf_text.specs.Piece.{piece_in, passes_of, closed_in, left_of, read_of};

use crate::class::is_member;
use foundation::NoMemory;
use std::alloc::Global;

/// A piece of a segment: any run of characters, or one character of some kind.
#[derive(Drop)]
pub(crate) enum PatternPiece {
    /// Any run of characters.
    Run,
    /// Any one character.
    Any,
    /// That character.
    Same(char),
    /// One of these members; negated, any other character.
    Class { negated: bool, members: Vec<char> },
}

/// A piece that was read, and what is left of the text after it.
#[derive(Drop)]
pub(crate) struct ReadPiece<'t> {
    pub(crate) piece: PatternPiece,
    pub(crate) rest: &'t [char],
}

impl PatternPiece {
    /// Whether it stands for that one character; a run isn't asked.
    pub(crate) fn passes(&self, c: char) -> bool
        ensures { result ≡ passes_of (piece_in self.now) c }
    {
        match self {
            PatternPiece::Run => false,
            PatternPiece::Any => true,
            PatternPiece::Same(own) => c == *own,
            PatternPiece::Class { negated, members } => is_member(members.as_slice(), c)
                != *negated,
        }
    }
}

/// The piece that begins with a character, or none where the text is malformed.
pub(crate) fn read_piece<'t>(
    alloc: Global,
    first: char,
    later: &'t [char],
) -> Result<Option<ReadPiece<'t>>, NoMemory>
    ensures exact { IfOk result (λ read. option_map read_of read ≡ left_of later.now (piece_of first later.now)) }
{
    match first {
        '?' => Ok(Some(ReadPiece {
            piece: PatternPiece::Any,
            rest: later,
        })),
        '*' => Ok(read_star(later)),
        '[' => read_class(alloc, later),
        _ => Ok(Some(ReadPiece {
            piece: PatternPiece::Same(first),
            rest: later,
        })),
    }
}

// A star, unless another follows it.
fn read_star<'t>(later: &'t [char]) -> Option<ReadPiece<'t>>
    ensures { option_map read_of result ≡ left_of later.now (star_of later.now) }
{
    match later {
        ['*', ..] => None,
        _ => Some(ReadPiece {
            piece: PatternPiece::Run,
            rest: later,
        }),
    }
}

// A class after its `[`.
fn read_class<'t>(alloc: Global, later: &'t [char]) -> Result<Option<ReadPiece<'t>>, NoMemory>
    ensures { IfOk result (λ read. option_map read_of read ≡ left_of later.now (class_of later.now)) }
{
    match later {
        ['!', members @ ..] => read_members(alloc, true, members),
        _ => read_members(alloc, false, later),
    }
}

// The members of a class: at least one, and then up to the first `]`.
fn read_members<'t>(
    alloc: Global,
    negated: bool,
    text: &'t [char],
) -> Result<Option<ReadPiece<'t>>, NoMemory>
    ensures { IfOk result (λ read. option_map read_of read ≡ closed_in negated text.now) }
{
    let [_, later @ ..] = text else {
        return Ok(None);
    };
    match closing(later) {
        Some(end) => {
            let (members, _) = text.split_at(end + 1);
            let (_, rest) = later.split_at(end + 1);
            let members = Vec::from_slice(alloc, members)?;
            let piece = PatternPiece::Class { negated, members };
            Ok(Some(ReadPiece { piece, rest }))
        }
        None => Ok(None),
    }
}

// Where the first `]` stands.
fn closing(text: &[char]) -> Option<usize>
    ensures { result ≡ position (λ c. c == 93) text.now }
{
    text.iter().position(|c| *c == ']')
}
