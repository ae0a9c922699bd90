// The statement of an envelope, with the names of its subjects.
ghost use Rattle.std.specs.Prelude.{◌≡◌, ◌≢◌, Ok, Err, IfOk, IfErr};
ghost use Rattle.serde_json.specs.View.{view};
ghost use Rattle.verification_details.specs.Statement.{name_in, named_of, told_of, told_of_bytes, enveloped_of, statement_in};

use foundation::{NoMemory, Sequence};
use serde_json::Value;
use sigstore_entries::json;
use sigstore_envelopes::{DsseEnvelope, Subject};
use sigstore_types::SignatureContent;
use sigstore_types_parts::{FromValue, Text, TypesError, TypesMember, required};
use std::alloc::Global;

/// A subject of a statement with its name, where it tells one.
#[derive(Drop)]
pub struct NamedSubject {
    pub name: Option<Text>,
    pub subject: Subject,
}

/// A statement as it is told: the type of its predicate, and its subjects with their names.
#[derive(Drop)]
pub struct ToldStatement {
    pub predicate_type: Text,
    pub subjects: Sequence<NamedSubject>,
}

fn name_in(alloc: Global, value: &Value) -> Result<Option<Text>, NoMemory>
    ensures { IfOk result (λ name. name ≡ name_in (view value.now)) }
{
    match value.get("name").and_then(Value::as_str) {
        Some(name) => Ok(Some(Text::new(alloc, name)?)),
        None => Ok(None),
    }
}

impl FromValue<TypesError> for NamedSubject {
    ghost reads = { named_of };

    #[tactic(auto, unfolding(crate::specs::Statement::named_of))]
    fn from_value(alloc: Global, value: &Value) -> Result<NamedSubject, TypesError> {
        let subject = Subject::from_value(alloc, value)?;
        let name = name_in(alloc, value)?;
        Ok(NamedSubject { name, subject })
    }
}

impl FromValue<TypesError> for ToldStatement {
    ghost reads = { told_of };

    #[tactic(auto, unfolding(crate::specs::Statement::told_of))]
    fn from_value(alloc: Global, value: &Value) -> Result<ToldStatement, TypesError> {
        Ok(ToldStatement {
            predicate_type: required(alloc, value, TypesMember::PredicateType)?,
            subjects: required(alloc, value, TypesMember::Subject)?,
        })
    }
}

// The statement that a payload is.
#[tactic(auto, unfolding(crate::specs::Statement::told_of_bytes))]
fn read_told(alloc: Global, payload: &[u8]) -> Result<ToldStatement, TypesError>
    ensures ok { IfOk result (λ v. told_of_bytes payload.now ≡ Ok v) }
    ensures err { IfErr result (λ e. e ≢ TypesError.NoMemory → told_of_bytes payload.now ≡ Err e) }
{
    let value = json(alloc, payload)?;
    Ok(ToldStatement::from_value(alloc, &value)?)
}

// The statement of an envelope; none where its payload is of another type than in-toto's.
fn enveloped(alloc: Global, envelope: &DsseEnvelope) -> Result<Option<ToldStatement>, TypesError>
    ensures ok { IfOk result (λ v. enveloped_of envelope.now ≡ Ok v) }
    ensures err { IfErr result (λ e. e ≢ TypesError.NoMemory → enveloped_of envelope.now ≡ Err e) }
{
    if envelope.payload_type.as_str() == "application/vnd.in-toto+json" {
        Ok(Some(read_told(alloc, envelope.payload.as_bytes())?))
    } else {
        Ok(None)
    }
}

/// The statement of what a bundle signs; a message signature has none.
pub(crate) fn statement_in(
    alloc: Global,
    content: &SignatureContent,
) -> Result<Option<ToldStatement>, TypesError>
    ensures ok { IfOk result (λ v. statement_in content.now ≡ Ok v) }
    ensures err { IfErr result (λ e. e ≢ TypesError.NoMemory → statement_in content.now ≡ Err e) }
{
    match content {
        SignatureContent::MessageSignature(_) => Ok(None),
        SignatureContent::DsseEnvelope(envelope) => enveloped(alloc, envelope),
    }
}
