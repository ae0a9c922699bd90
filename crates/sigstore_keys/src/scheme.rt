// Signature schemes and the sorts of keys.
ghost use Rattle.std.specs.Prelude.{◌≡◌};
ghost use Rattle.sigstore_keys.specs.Scheme.{key_algorithm_of, scheme_name_of, scheme_named, digest_algorithm_of, default_scheme_of, resolved_of, has_digest};

use crate::error::Error;
use sigstore_types_parts::HashAlgorithm;

/// A signature scheme: a sort of key with a padding and a digest (FIPS 186-5, RFC 8017, FIPS 204).
#[derive(Clone, Copy, Debug, PartialEq, Eq, Hash, Drop)]
pub enum SigningScheme {
    EcdsaP256Sha256,
    EcdsaP256Sha384,
    EcdsaP384Sha256,
    EcdsaP384Sha384,
    Ed25519,
    RsaPssSha256,
    RsaPssSha384,
    RsaPssSha512,
    RsaPkcs1Sha256,
    RsaPkcs1Sha384,
    RsaPkcs1Sha512,
    MlDsa44,
    MlDsa65,
    MlDsa87,
}

/// A sort of public key.
#[derive(Clone, Copy, Debug, PartialEq, Eq, Hash, Drop)]
pub enum KeyAlgorithm {
    EcdsaP256,
    EcdsaP384,
    Ed25519,
    Rsa,
    MlDsa44,
    MlDsa65,
    MlDsa87,
}

impl SigningScheme {
    /// The sort of key that signs under this scheme.
    pub fn key_algorithm(self) -> KeyAlgorithm
        ensures { result ≡ key_algorithm_of self }
    {
        match self {
            SigningScheme::EcdsaP256Sha256 => KeyAlgorithm::EcdsaP256,
            SigningScheme::EcdsaP256Sha384 => KeyAlgorithm::EcdsaP256,
            SigningScheme::EcdsaP384Sha256 => KeyAlgorithm::EcdsaP384,
            SigningScheme::EcdsaP384Sha384 => KeyAlgorithm::EcdsaP384,
            SigningScheme::Ed25519 => KeyAlgorithm::Ed25519,
            SigningScheme::RsaPssSha256 => KeyAlgorithm::Rsa,
            SigningScheme::RsaPssSha384 => KeyAlgorithm::Rsa,
            SigningScheme::RsaPssSha512 => KeyAlgorithm::Rsa,
            SigningScheme::RsaPkcs1Sha256 => KeyAlgorithm::Rsa,
            SigningScheme::RsaPkcs1Sha384 => KeyAlgorithm::Rsa,
            SigningScheme::RsaPkcs1Sha512 => KeyAlgorithm::Rsa,
            SigningScheme::MlDsa44 => KeyAlgorithm::MlDsa44,
            SigningScheme::MlDsa65 => KeyAlgorithm::MlDsa65,
            SigningScheme::MlDsa87 => KeyAlgorithm::MlDsa87,
        }
    }

    /// The name as it is printed and as a provider's file writes it.
    pub fn name(&self) -> &'static str
        ensures { result.now ≡ scheme_name_of self.now }
    {
        match self {
            SigningScheme::EcdsaP256Sha256 => "ECDSA_P256_SHA256",
            SigningScheme::EcdsaP256Sha384 => "ECDSA_P256_SHA384",
            SigningScheme::EcdsaP384Sha256 => "ECDSA_P384_SHA256",
            SigningScheme::EcdsaP384Sha384 => "ECDSA_P384_SHA384",
            SigningScheme::Ed25519 => "ED25519",
            SigningScheme::RsaPssSha256 => "RSA_PSS_SHA256",
            SigningScheme::RsaPssSha384 => "RSA_PSS_SHA384",
            SigningScheme::RsaPssSha512 => "RSA_PSS_SHA512",
            SigningScheme::RsaPkcs1Sha256 => "RSA_PKCS1_SHA256",
            SigningScheme::RsaPkcs1Sha384 => "RSA_PKCS1_SHA384",
            SigningScheme::RsaPkcs1Sha512 => "RSA_PKCS1_SHA512",
            SigningScheme::MlDsa44 => "ML_DSA_44",
            SigningScheme::MlDsa65 => "ML_DSA_65",
            SigningScheme::MlDsa87 => "ML_DSA_87",
        }
    }

    /// The scheme of that name.
    pub fn from_name(name: &str) -> Option<SigningScheme>
        ensures { result ≡ scheme_named name.now }
    {
        match name {
            "ECDSA_P256_SHA256" => Some(SigningScheme::EcdsaP256Sha256),
            "ECDSA_P256_SHA384" => Some(SigningScheme::EcdsaP256Sha384),
            "ECDSA_P384_SHA256" => Some(SigningScheme::EcdsaP384Sha256),
            "ECDSA_P384_SHA384" => Some(SigningScheme::EcdsaP384Sha384),
            "ED25519" => Some(SigningScheme::Ed25519),
            "RSA_PSS_SHA256" => Some(SigningScheme::RsaPssSha256),
            "RSA_PSS_SHA384" => Some(SigningScheme::RsaPssSha384),
            "RSA_PSS_SHA512" => Some(SigningScheme::RsaPssSha512),
            "RSA_PKCS1_SHA256" => Some(SigningScheme::RsaPkcs1Sha256),
            "RSA_PKCS1_SHA384" => Some(SigningScheme::RsaPkcs1Sha384),
            "RSA_PKCS1_SHA512" => Some(SigningScheme::RsaPkcs1Sha512),
            "ML_DSA_44" => Some(SigningScheme::MlDsa44),
            "ML_DSA_65" => Some(SigningScheme::MlDsa65),
            "ML_DSA_87" => Some(SigningScheme::MlDsa87),
            _ => None,
        }
    }

    /// The digest that is signed in place of the message; none where the message itself is signed.
    pub fn hash_algorithm(&self) -> Option<HashAlgorithm>
        ensures { result ≡ digest_algorithm_of self.now }
    {
        match self {
            SigningScheme::EcdsaP256Sha256 => Some(HashAlgorithm::Sha2256),
            SigningScheme::EcdsaP256Sha384 => Some(HashAlgorithm::Sha2384),
            SigningScheme::EcdsaP384Sha256 => Some(HashAlgorithm::Sha2256),
            SigningScheme::EcdsaP384Sha384 => Some(HashAlgorithm::Sha2384),
            SigningScheme::Ed25519 => None,
            SigningScheme::RsaPssSha256 => Some(HashAlgorithm::Sha2256),
            SigningScheme::RsaPssSha384 => Some(HashAlgorithm::Sha2384),
            SigningScheme::RsaPssSha512 => Some(HashAlgorithm::Sha2512),
            SigningScheme::RsaPkcs1Sha256 => Some(HashAlgorithm::Sha2256),
            SigningScheme::RsaPkcs1Sha384 => Some(HashAlgorithm::Sha2384),
            SigningScheme::RsaPkcs1Sha512 => Some(HashAlgorithm::Sha2512),
            SigningScheme::MlDsa44 => None,
            SigningScheme::MlDsa65 => None,
            SigningScheme::MlDsa87 => None,
        }
    }

    /// Whether a digest is signed in place of the message.
    pub fn supports_prehashed(&self) -> bool
        ensures { result ≡ has_digest self.now }
    {
        self.hash_algorithm().is_some()
    }
}

impl KeyAlgorithm {
    /// The scheme of a key of this sort where none is named.
    pub fn default_signing_scheme(&self) -> SigningScheme
        ensures { result ≡ default_scheme_of self.now }
    {
        match self {
            KeyAlgorithm::EcdsaP256 => SigningScheme::EcdsaP256Sha256,
            KeyAlgorithm::EcdsaP384 => SigningScheme::EcdsaP384Sha384,
            KeyAlgorithm::Ed25519 => SigningScheme::Ed25519,
            KeyAlgorithm::Rsa => SigningScheme::RsaPkcs1Sha256,
            KeyAlgorithm::MlDsa44 => SigningScheme::MlDsa44,
            KeyAlgorithm::MlDsa65 => SigningScheme::MlDsa65,
            KeyAlgorithm::MlDsa87 => SigningScheme::MlDsa87,
        }
    }

    /// The scheme of a key of this sort with a digest. Errors: `UnsupportedAlgorithm` where there is none.
    pub fn resolve_signing_scheme(&self, hash: HashAlgorithm) -> Result<SigningScheme, Error>
        ensures { result ≡ resolved_of self.now hash }
    {
        match (*self, hash) {
            (KeyAlgorithm::EcdsaP256, HashAlgorithm::Sha2256) => Ok(SigningScheme::EcdsaP256Sha256),
            (KeyAlgorithm::EcdsaP256, HashAlgorithm::Sha2384) => Ok(SigningScheme::EcdsaP256Sha384),
            (KeyAlgorithm::EcdsaP384, HashAlgorithm::Sha2256) => Ok(SigningScheme::EcdsaP384Sha256),
            (KeyAlgorithm::EcdsaP384, HashAlgorithm::Sha2384) => Ok(SigningScheme::EcdsaP384Sha384),
            (KeyAlgorithm::Rsa, HashAlgorithm::Sha2256) => Ok(SigningScheme::RsaPkcs1Sha256),
            (KeyAlgorithm::Rsa, HashAlgorithm::Sha2384) => Ok(SigningScheme::RsaPkcs1Sha384),
            (KeyAlgorithm::Rsa, HashAlgorithm::Sha2512) => Ok(SigningScheme::RsaPkcs1Sha512),
            (KeyAlgorithm::Ed25519, _) => Ok(SigningScheme::Ed25519),
            (KeyAlgorithm::MlDsa44, _) => Ok(SigningScheme::MlDsa44),
            (KeyAlgorithm::MlDsa65, _) => Ok(SigningScheme::MlDsa65),
            (KeyAlgorithm::MlDsa87, _) => Ok(SigningScheme::MlDsa87),
            _ => Err(Error::UnsupportedAlgorithm),
        }
    }
}
