// The lines behind the report of an accepted bundle.
ghost use Rattle.std.specs.Prelude.{◌≡◌, ◌≢◌, ◌++◌, Ok, Err, IfOk, IfErr, OnOk, string_bytes};
ghost use Rattle.verification_details.specs.Details.{shown_of, lines_of, details_of};

use crate::lines::{push_result, push_statement};
use crate::statement::{ToldStatement, statement_in};
use foundation::NoMemory;
use sigstore_judgement::{JudgedBundle, JudgedByRule};
use sigstore_types::Bundle;
use sigstore_types_parts::TypesError;
use std::alloc::Global;

/// What a bundle tells: its statement, where it has one, and how many time-stamp tokens it has.
#[derive(Drop)]
pub struct Shown {
    pub statement: Option<ToldStatement>,
    pub tokens: usize,
}

// What the bytes of a bundle tell.
#[tactic(auto, unfolding(crate::specs::Details::shown_of))]
fn read_shown(alloc: Global, bytes: &[u8]) -> Result<Shown, TypesError>
    ensures ok { IfOk result (λ v. shown_of bytes.now ≡ Ok v) }
    ensures err { IfErr result (λ e. e ≢ TypesError.NoMemory → shown_of bytes.now ≡ Err e) }
{
    let bundle = Bundle::from_json(alloc, bytes)?;
    let statement = statement_in(alloc, &bundle.content);
    let tokens = bundle.verification_material.rfc3161_timestamps.len();
    drop(bundle);
    match statement {
        Ok(statement) => Ok(Shown { statement, tokens }),
        Err(e) => Err(e),
    }
}

fn push_lines(
    alloc: Global,
    text: &mut String,
    shown: &Shown,
    judged: &JudgedBundle,
) -> Result<(), NoMemory>
    ensures { OnOk result (string_bytes text.new ≡ string_bytes text.old ++ lines_of shown.now judged.now) }
{
    push_statement(alloc, text, judged.digests.as_slice(), &shown.statement)?;
    push_result(text, shown.tokens, &judged.result)
}

/// Adds lines behind the report of a bundle that was accepted so, which judge nothing anew: the type of its predicate and
/// the name of the first subject that is the artifact, each verified time as an authority's (`stamped`) or a log's
/// (`promised`), how many logs vouch, and what the certificate claims. Bytes that are no bundle get no line; none that was
/// accepted is so. Errors: `NoMemory`.
#[tactic(auto, unfolding(crate::specs::Details::details_of))]
pub fn push_details(
    alloc: Global,
    text: &mut String,
    bundle: &[u8],
    judged: &JudgedByRule,
) -> Result<(), NoMemory>
    ensures { OnOk result (string_bytes text.new ≡ string_bytes text.old ++ details_of bundle.now judged.now) }
{
    match read_shown(alloc, bundle) {
        Ok(shown) => {
            let pushed = push_lines(alloc, text, &shown, &judged.judged);
            drop(shown);
            pushed
        }
        Err(TypesError::NoMemory) => Err(NoMemory),
        Err(e) => {
            drop(e);
            Ok(())
        }
    }
}
