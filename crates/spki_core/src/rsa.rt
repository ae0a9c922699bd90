// RSA public keys.
ghost use Rattle.std.specs.Prelude.{◌≡◌, ◌-◌, IfOk, IfErr, Ok, Err};
ghost use Rattle.std.specs.Int.{leading_zeros, w8};
ghost use Rattle.spki_core.specs.Rsa.{rsa_parts_of, rsa_key_of, rsa_key_parts, bit_length, counted};

use crate::error::X509Error;
use crate::read;
use der_core::tag;

/// An RSA public key (RFC 8017, A.1.1), its parts as slices of the bytes that were read.
#[derive(Clone, Copy)]
pub struct RsaKeyView<'a> {
    /// The contents of the modulus.
    pub modulus: &'a [u8],
    /// The contents of the public exponent.
    pub exponent: &'a [u8],
}

#[tactic(auto, unfolding(crate::specs::Rsa::rsa_parts_of))]
fn rsa_in(contents: &[u8]) -> Result<RsaKeyView, X509Error>
    ensures ok { IfOk result (λ key. rsa_parts_of contents.now ≡ Ok (rsa_key_parts key)) }
    ensures err { IfErr result (λ e. rsa_parts_of contents.now ≡ Err e) }
{
    let (modulus, rest) = read::uint(contents)?;
    let (exponent, rest) = read::uint(rest)?;
    read::end(rest)?;
    Ok(RsaKeyView { modulus, exponent })
}

/// The number of bits of an octet without leading zeros.
fn octet_bits(octet: u8) -> u64
    ensures { result ≡ 8 - leading_zeros w8 octet }
{
    (8 - octet.leading_zeros()) as u64
}

impl<'a> RsaKeyView<'a> {
    /// The key that all the bytes encode, or the first refusal in reading order: those of DER alone.
    #[tactic(auto, unfolding(crate::specs::Rsa::rsa_key_of))]
    pub fn parse(bytes: &'a [u8]) -> Result<RsaKeyView<'a>, X509Error>
        ensures ok { IfOk result (λ key. rsa_key_of bytes.now ≡ Ok (rsa_key_parts key)) }
        ensures err { IfErr result (λ e. rsa_key_of bytes.now ≡ Err e) }
    {
        let (contents, rest) = read::contents(tag::SEQUENCE, bytes)?;
        let key = rsa_in(contents)?;
        read::end(rest)?;
        Ok(key)
    }

    /// The number of bits of the modulus without leading zeros; at most the greatest `u64`.
    pub fn modulus_bits(&self) -> u64
        ensures { result ≡ counted (bit_length self.now.modulus.now) }
    {
        let mut octets = self.modulus;
        'zeros: while let [first, others @ ..] = octets {
            if *first != 0 {
                return (others.len() as u64)
                    .saturating_mul(8)
                    .saturating_add(octet_bits(*first));
            }
            octets = others;
        }
        0
    }
}
