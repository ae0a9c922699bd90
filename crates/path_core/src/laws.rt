// Laws of the first path.
ghost use Rattle.std.specs.Prelude.{◌≡◌};
ghost use Rattle.path_core.specs.Path.{PathExactly, RefusalExactly};
ghost use Rattle.path_core.specs.Paths.{Setting, IsFound};

use crate::route::FoundPath;

/// What is found is one: two answers over the same certificates are the same.
pub fn first_is_one(first: &FoundPath, second: &FoundPath)
    ghost w: { Setting }
    requires first { IsFound w first.now }
    requires second { IsFound w second.now }
    ensures { first.now ≡ second.now }
{
    let _first = first.anchor;
    let _second = second.anchor;
}

/// The law of paths: `path_of`, the search as one definition, gives exactly the first path that there is, and
/// refuses exactly where there is none, with the refusal that `find_path` answers.
pub fn path_exactly()
    ensures found { PathExactly }
    ensures refused { RefusalExactly }
{}
