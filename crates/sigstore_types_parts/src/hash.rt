// A hash of N bytes, seen as its bytes.
ghost use Rattle.std.specs.Prelude.{◌≡◌, Some, Ok, Err, refl, bytes_eq, string_bytes, IfOk};
ghost use Rattle.std.specs.Ordering.{nat_cmp};
ghost use Rattle.std.specs.Cmp.{partial_equiv_from_equiv};
ghost use Rattle.std.specs.Cmp.Lexicographic.{slice_cmp, nat_list_eq_equiv, nat_list_cmp_total, texts_ties, texts_po};
ghost use Rattle.hex.specs.Hex.{encode_lower};
ghost use Rattle.sigstore_types_parts.specs.Error.{types_of};
ghost use Rattle.sigstore_types_parts.specs.Encoded.{sized_of};

use crate::error::TypesError;
use crate::text::Text;
use foundation::{Duplicate, NoMemory};
use std::alloc::Global;
use std::cmp::Ordering;
use std::fmt;
use std::marker::Model;

/// A SHA-256 value.
pub type Sha256Hash = Hash<32>;

/// A SHA-384 value.
pub type Sha384Hash = Hash<48>;

/// A SHA-512 value.
pub type Sha512Hash = Hash<64>;

/// The first four bytes of a key's SHA-256 value, which name it on a checkpoint.
pub type KeyHint = Hash<4>;

/// A hash of `N` bytes; contracts see its bytes, and it is ordered by them.
#[derive(Drop)]
pub struct Hash<const N: usize> {
    bytes: [u8; N],
}

impl<const N: usize> Model for Hash<N> {
    ghost use Rattle.std.specs.Prelude.{ℕ, List};

    ghost Value = { List ℕ };

    ghost view = { λ h. h.bytes };
}

impl<const N: usize> Hash<N> {
    /// These bytes.
    pub fn new(bytes: [u8; N]) -> Hash<N>
        ensures { result ≡ bytes.entry }
    {
        Hash { bytes }
    }

    /// The bytes.
    pub fn as_bytes(&self) -> &[u8]
        ensures { result.now ≡ self.now }
    {
        self.bytes.as_slice()
    }

    /// The bytes as an array.
    pub fn as_array(&self) -> &[u8; N]
        ensures { result.now ≡ self.now }
    {
        &self.bytes
    }

    /// The bytes as they stand in a slice. Errors: `Length` for a slice of another length.
    pub fn try_from(bytes: &[u8]) -> Result<Hash<N>, TypesError>
        ensures { result ≡ sized_of types_of N bytes.now }
    {
        if bytes.len() != N {
            return Err(TypesError::Length {
                expected: N as u64,
                actual: bytes.len() as u64,
            });
        }
        let mut all = [0u8; N];
        all.copy_from_slice(bytes);
        Ok(Hash { bytes: all })
    }

    /// The bytes in lower-case hexadecimal.
    pub fn to_hex(&self, alloc: Global) -> Result<Text, NoMemory>
        ensures { IfOk result (λ t. t ≡ encode_lower self.now) }
    {
        Ok(Text::from_string(hex::encode(alloc, self.as_bytes())?))
    }
}

impl<const N: usize> Duplicate for Hash<N> {
    fn duplicate(&self, _alloc: Global) -> Result<Hash<N>, NoMemory> {
        Ok(Hash { bytes: self.bytes })
    }
}

impl<const N: usize> fmt::Debug for Hash<N> {
    fn fmt<W: fmt::Write>(&self, f: &mut fmt::Formatter<W>) -> fmt::Result {
        fmt::Debug::fmt(&self.as_bytes(), f)
    }
}

impl<const N: usize> PartialEq for Hash<N> {
    ghost eq = { bytes_eq };

    ghost laws = { partial_equiv_from_equiv nat_list_eq_equiv };

    fn eq(&self, other: &Hash<N>) -> bool {
        self.as_bytes() == other.as_bytes()
    }
}

impl<const N: usize> Eq for Hash<N> {
    ghost laws = { nat_list_eq_equiv };
}

impl<const N: usize> PartialOrd for Hash<N> {
    ghost partial_cmp = { λ a b. Some (slice_cmp nat_cmp a b) };

    ghost laws = { texts_po };

    fn partial_cmp(&self, other: &Hash<N>) -> Option<Ordering> {
        Some(self.cmp(other))
    }
}

impl<const N: usize> Ord for Hash<N> {
    ghost cmp = { slice_cmp nat_cmp };

    ghost total = { nat_list_cmp_total };

    ghost matches_partial_cmp = { λ a b. refl };

    ghost matches_eq = { texts_ties };

    fn cmp(&self, other: &Hash<N>) -> Ordering {
        self.as_bytes().cmp(other.as_bytes())
    }
}
