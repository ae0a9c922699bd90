// Statements.
ghost use Rattle.std.specs.Prelude.{◌≡◌, ◌≢◌, Ok, Err, IfOk, IfErr};
ghost use Rattle.sigstore_envelopes.specs.Statement.{digests_of, subject_of, statement_of, statement_of_bytes};

use foundation::{Duplicate, NoMemory, Sequence};
use serde_json::Value;
use sigstore_entries::json;
use sigstore_types_parts::{FromValue, Text, TypesError, TypesMember, optional, required};
use std::alloc::Global;

/// What is said of some artifacts, as far as it tells which these are, and of what kind it is (in-toto, Statement v1).
#[derive(PartialEq, Drop)]
pub struct Statement {
    /// The type of the predicate: what kind of thing is said, as that a build made the artifact.
    pub predicate_type: Text,
    pub subjects: Sequence<Subject>,
}

/// An artifact by its digests in hexadecimal, each as it is told.
#[derive(Debug, PartialEq, Drop)]
pub struct Subject {
    pub sha256: Option<Text>,
    pub sha512: Option<Text>,
}

impl Duplicate for Statement {
    fn duplicate(&self, alloc: Global) -> Result<Statement, NoMemory> {
        Ok(Statement {
            predicate_type: self.predicate_type.duplicate(alloc)?,
            subjects: self.subjects.duplicate(alloc)?,
        })
    }
}

impl Duplicate for Subject {
    fn duplicate(&self, alloc: Global) -> Result<Subject, NoMemory> {
        Ok(Subject {
            sha256: self.sha256.duplicate(alloc)?,
            sha512: self.sha512.duplicate(alloc)?,
        })
    }
}

// The digests of a subject.
#[derive(Drop)]
struct Digests {
    sha256: Option<Text>,
    sha512: Option<Text>,
}

impl FromValue<TypesError> for Digests {
    ghost reads = { digests_of };

    #[tactic(auto, unfolding(crate::specs::Statement::digests_of))]
    fn from_value(alloc: Global, value: &Value) -> Result<Digests, TypesError> {
        Ok(Digests {
            sha256: optional(alloc, value, TypesMember::Sha256)?,
            sha512: optional(alloc, value, TypesMember::Sha512)?,
        })
    }
}

impl FromValue<TypesError> for Subject {
    ghost reads = { subject_of };

    #[tactic(auto, unfolding(crate::specs::Statement::subject_of))]
    fn from_value(alloc: Global, value: &Value) -> Result<Subject, TypesError> {
        let digests: Digests = required(alloc, value, TypesMember::Digest)?;
        Ok(Subject {
            sha256: digests.sha256,
            sha512: digests.sha512,
        })
    }
}

impl FromValue<TypesError> for Statement {
    ghost reads = { statement_of };

    #[tactic(auto, unfolding(crate::specs::Statement::statement_of))]
    fn from_value(alloc: Global, value: &Value) -> Result<Statement, TypesError> {
        let _: Text = required(alloc, value, TypesMember::StatementType)?;
        Ok(Statement {
            predicate_type: required(alloc, value, TypesMember::PredicateType)?,
            subjects: required(alloc, value, TypesMember::Subject)?,
        })
    }
}

impl Statement {
    /// The statement that a JSON text is. Errors: `Json`, `Float`, then the first wrong member's in the order
    /// type, type of the predicate, subjects.
    #[tactic(auto, unfolding(crate::specs::Statement::statement_of_bytes))]
    pub fn from_json(alloc: Global, bytes: &[u8]) -> Result<Statement, TypesError>
        ensures ok { IfOk result (λ v. statement_of_bytes bytes.now ≡ Ok v) }
        ensures err { IfErr result (λ e. e ≢ TypesError.NoMemory → statement_of_bytes bytes.now ≡ Err e) }
    {
        let value = json(alloc, bytes)?;
        Ok(Statement::from_value(alloc, &value)?)
    }
}
