// What the armoured texts of log bodies hold.
ghost use Rattle.std.specs.Prelude.{◌≡◌, ◌≢◌, Ok, Err, IfOk, IfErr};
ghost use Rattle.sigstore_rekor_parts.specs.Armored.{held_of};

use crate::error::{Error, ResponseRule};
use sigstore_types_parts::{Armor, DerCertificate, DerPublicKey, PemContent};
use std::alloc::Global;

// The certificate that a text holds.
pub(crate) fn certificate_in<M: Armor>(
    alloc: Global,
    armor: &M,
    text: &PemContent,
) -> Result<DerCertificate, Error>
    ensures ok { IfOk result (λ c. held_of (M.certificate_in armor.now) text.now ≡ Ok c) }
    ensures err { IfErr result (λ e. e ≢ Error.NoMemory → held_of (M.certificate_in armor.now) text.now ≡ Err e) }
{
    match armor.read_certificate(alloc, text.as_bytes())? {
        Some(der) => Ok(DerCertificate::new(der)),
        None => Err(Error::InvalidResponse {
            rule: ResponseRule::Armor,
        }),
    }
}

// The public key that a text holds.
pub(crate) fn key_in<M: Armor>(
    alloc: Global,
    armor: &M,
    text: &PemContent,
) -> Result<DerPublicKey, Error>
    ensures ok { IfOk result (λ k. held_of (M.key_in armor.now) text.now ≡ Ok k) }
    ensures err { IfErr result (λ e. e ≢ Error.NoMemory → held_of (M.key_in armor.now) text.now ≡ Err e) }
{
    match armor.read_key(alloc, text.as_bytes())? {
        Some(der) => Ok(DerPublicKey::new(der)),
        None => Err(Error::InvalidResponse {
            rule: ResponseRule::Armor,
        }),
    }
}
