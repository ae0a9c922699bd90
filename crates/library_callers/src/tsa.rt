//! A caller of `sigstore_tsa`.
use foundation::NoMemory;
use jiff::Timestamp;
use sigstore_keys::CryptoProvider;
use sigstore_tsa::{TokenFault, token_time};
use sigstore_types::{SignatureBytes, TimestampToken, TsaAuthority};
use std::alloc::Global;

/// When the earliest of these tokens says that a signature was there; a token that no authority made is passed over.
pub fn earliest_time<C: CryptoProvider>(
    alloc: Global,
    provider: &C,
    authorities: &[TsaAuthority],
    signature: &SignatureBytes,
    tokens: &[TimestampToken],
) -> Result<Option<Timestamp>, NoMemory> {
    let mut earliest: Option<Timestamp> = None;
    for token in tokens {
        match token_time(alloc, provider, token, signature, authorities) {
            Ok(stamped) => match earliest {
                Some(other) if other <= stamped.time => (),
                _ => earliest = Some(stamped.time),
            },
            Err(TokenFault::NoMemory) => return Err(NoMemory),
            Err(_) => (),
        }
    }
    Ok(earliest)
}
