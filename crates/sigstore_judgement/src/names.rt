// The name of a refusal, by its number.
ghost use Rattle.std.specs.Prelude.{◌≡◌};
ghost use Rattle.sigstore_judgement.specs.Names.{refusal_name};

/// The name that is printed with the number of a refusal; no other number has one.
pub fn refusal_name(number: u8) -> &'static str
    ensures { result.now ≡ refusal_name number }
{
    match number {
        1 => "IdentityMismatch",
        2 => "IssuerMismatch",
        3 => "SignatureInvalid",
        4 => "ArtifactMismatch",
        5 => "UnsupportedArtifact",
        6 => "CertificateMalformed",
        7 => "ChainInvalid",
        8 => "NoValidAuthority",
        9 => "NotYetValid",
        10 => "CertificateExpired",
        11 => "Sct",
        12 => "UnknownLog",
        13 => "InclusionProof",
        14 => "Checkpoint",
        15 => "InclusionPromise",
        16 => "EntryMismatch",
        17 => "IntegratedTime",
        18 => "MalformedEntry",
        19 => "TimestampInvalid",
        20 => "OutsideAuthorityValidity",
        21 => "NoVerifiedTimestamp",
        22 => "InvalidBundle",
        23 => "UnsupportedBundle",
        24 => "InvalidTrustRoot",
        25 => "Types",
        26 => "Crypto",
        27 => "Bundle",
        28 => "TrustRoot",
        29 => "TrustedCertificate",
        30 => "ArtifactRead",
        31 => "NoMemory",
        32 => "TooFewLogs",
        33 => "ClaimMismatch",
        34 => "PredicateMismatch",
        35 => "TooFewTimes",
        36 => "TooFewTokens",
        37 => "TimeOutside",
        _ => "",
    }
}
