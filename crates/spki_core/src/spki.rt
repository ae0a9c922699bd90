// Algorithm identifiers and keys.
ghost use Rattle.std.specs.Prelude.{◌≡◌, IfOk, IfErr, Ok, Err};
ghost use Rattle.spki_core.specs.Spki.{algorithm_of, algorithm_at, spki_of, spki_at, spki_view_of};
ghost use Rattle.spki_core.specs.Views.{algorithm_parts, spki_parts};

use crate::error::X509Error;
use crate::read;
use der_core::tag;

/// An AlgorithmIdentifier (RFC 5280, 4.1.1.2), its parts as slices of the bytes that were read.
#[derive(Clone, Copy)]
pub struct AlgorithmView<'a> {
    /// The contents of the SEQUENCE.
    pub encoded: &'a [u8],
    /// The contents of the identifier.
    pub oid: &'a [u8],
    /// The parameters as they are encoded.
    pub parameters: Option<&'a [u8]>,
}

/// A SubjectPublicKeyInfo (RFC 5280, 4.1.2.7), its parts as slices of the bytes that were read.
#[derive(Clone, Copy)]
pub struct SpkiView<'a> {
    /// The contents of the AlgorithmIdentifier.
    pub algorithm: &'a [u8],
    /// The contents of its identifier.
    pub oid: &'a [u8],
    /// Its parameters as they are encoded.
    pub parameters: Option<&'a [u8]>,
    /// How many bits of the last octet aren't used.
    pub unused_bits: u8,
    /// The octets of the key's bits.
    pub key: &'a [u8],
}

#[tactic(auto, unfolding(crate::specs::Spki::algorithm_of))]
fn algorithm_in(contents: &[u8]) -> Result<AlgorithmView, X509Error>
    ensures ok { IfOk result (λ a. algorithm_of contents.now ≡ Ok (algorithm_parts a)) }
    ensures err { IfErr result (λ e. algorithm_of contents.now ≡ Err e) }
{
    let (oid, rest) = read::oid(contents)?;
    let (parameters, rest) = read::any(rest)?;
    read::end(rest)?;
    Ok(AlgorithmView {
        encoded: contents,
        oid,
        parameters,
    })
}

/// An AlgorithmIdentifier at the front.
#[tactic(auto, unfolding(crate::specs::Spki::algorithm_at))]
pub fn algorithm(bytes: &[u8]) -> Result<(AlgorithmView, &[u8]), X509Error>
    ensures ok { IfOk result (λ x. algorithm_at bytes.now ≡ Ok (algorithm_parts x.0, x.1.now)) }
    ensures err { IfErr result (λ e. algorithm_at bytes.now ≡ Err e) }
{
    let (contents, rest) = read::contents(tag::SEQUENCE, bytes)?;
    let algorithm = algorithm_in(contents)?;
    Ok((algorithm, rest))
}

/// The key of the contents of a SubjectPublicKeyInfo.
#[tactic(auto, unfolding(crate::specs::Spki::spki_of))]
pub fn spki_in(contents: &[u8]) -> Result<SpkiView, X509Error>
    ensures ok { IfOk result (λ s. spki_of contents.now ≡ Ok (spki_parts s)) }
    ensures err { IfErr result (λ e. spki_of contents.now ≡ Err e) }
{
    let (algorithm, rest) = algorithm(contents)?;
    let (unused_bits, key, rest) = read::bits(rest)?;
    read::end(rest)?;
    Ok(SpkiView {
        algorithm: algorithm.encoded,
        oid: algorithm.oid,
        parameters: algorithm.parameters,
        unused_bits,
        key,
    })
}

/// A SubjectPublicKeyInfo at the front.
#[tactic(auto, unfolding(crate::specs::Spki::spki_at))]
pub fn spki(bytes: &[u8]) -> Result<(SpkiView, &[u8]), X509Error>
    ensures ok { IfOk result (λ x. spki_at bytes.now ≡ Ok (spki_parts x.0, x.1.now)) }
    ensures err { IfErr result (λ e. spki_at bytes.now ≡ Err e) }
{
    let (contents, rest) = read::contents(tag::SEQUENCE, bytes)?;
    let spki = spki_in(contents)?;
    Ok((spki, rest))
}

impl<'a> SpkiView<'a> {
    /// The key that all the bytes encode, or the first refusal in reading order: those of DER alone.
    #[tactic(auto, unfolding(crate::specs::Spki::spki_view_of))]
    pub fn parse(bytes: &'a [u8]) -> Result<SpkiView<'a>, X509Error>
        ensures ok { IfOk result (λ s. spki_view_of bytes.now ≡ Ok (spki_parts s)) }
        ensures err { IfErr result (λ e. spki_view_of bytes.now ≡ Err e) }
    {
        let (spki, rest) = spki(bytes)?;
        read::end(rest)?;
        Ok(spki)
    }
}
