// What was noted.
ghost use Rattle.std.specs.Prelude.{string_bytes};
ghost use Rattle.question_notes.specs.Reads.{IsReadAs};
ghost use Rattle.question_notes.specs.Notes.{Asked};

use command_files::Tables;

/// The questions that were noted, each once: as tables, and as the text of a provider file, in the order
/// in which they were asked. The file is read as these tables, and each armoured text in it holds what its
/// row says.
#[derive(Drop)]
pub struct Noted {
    pub tables: Tables,
    pub text: String,
    pub ghost read: { IsReadAs (string_bytes text) tables },
    pub ghost asked: { ∥ Asked (record { tables = tables; text = string_bytes text }) ∥₁ },
}
