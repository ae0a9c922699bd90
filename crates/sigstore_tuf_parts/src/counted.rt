// The signatures of a document that count for a role.
ghost use Rattle.std.specs.Prelude.{◌≡◌, ℕ, List, [], ◌&&◌, ◌==◌, not, length, map, IfOk};
ghost use Rattle.std.specs.Option.{option_copied};
ghost use Rattle.sigstore_tuf_parts.specs.Threshold.{is_among, counted_of, ids_of, second_after};

use crate::document::Signature;
use crate::keys::RoleKeys;
use crate::text_set::TextSet;
use foundation::NoMemory;
use sigstore_types_parts::Text;
use std::alloc::Global;

// The set of these texts.
fn set_of<'t>(alloc: Global, texts: &'t [Text]) -> Result<TextSet<'t>, NoMemory>
    ensures { IfOk result (λ set. (text : List ℕ) → is_among set text ≡ is_among texts.now text) }
{
    let mut set = TextSet::new(alloc);
    for text in texts {
        set.insert(text.as_str())?;
    }
    Ok(set)
}

// Whether a signature is of one of these ids, and not empty.
fn counts(ids: &TextSet<'_>, signature: &Signature) -> bool
    ensures { result ≡ (is_among ids.now signature.now.keyid && not (length signature.now.sig == 0)) }
{
    ids.contains(signature.keyid.as_str()) && !signature.sig.as_str().is_empty()
}

/// The signatures of ids that the role names, but for empty ones, in their order.
pub(crate) fn counted<'s>(
    alloc: Global,
    role_keys: &RoleKeys,
    signatures: &'s [Signature],
) -> Result<Vec<&'s Signature>, NoMemory>
    ensures { IfOk result
        (λ found. map (λ s. s.now) found.items ≡ counted_of role_keys.now signatures.now) }
{
    let ids = set_of(alloc, role_keys.keyids.as_slice())?;
    let mut found = Vec::new(alloc);
    for signature in signatures {
        if counts(&ids, signature) {
            found.push(signature)?;
        }
    }
    Ok(found)
}

/// The first id whose second signature comes.
pub(crate) fn second_id<'s>(
    alloc: Global,
    signatures: &[&'s Signature],
) -> Result<Option<&'s Text>, NoMemory>
    ensures { IfOk result
        (λ id. option_copied id ≡ second_after [] (ids_of (map (λ s. s.now) signatures.now))) }
{
    let mut seen = TextSet::new(alloc);
    for signature in signatures {
        if !seen.insert(signature.keyid.as_str())? {
            return Ok(Some(&signature.keyid));
        }
    }
    Ok(None)
}
