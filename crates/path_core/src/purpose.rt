// What a certificate is wanted for.
ghost use Rattle.std.specs.Prelude.{◌≡◌};
ghost use Rattle.path_core.specs.Usage.{oid_of_purpose};

/// What a leaf is wanted for (RFC 5280, 4.2.1.12).
#[derive(Clone, Copy, Debug, PartialEq, Eq, Drop)]
pub enum Purpose {
    /// Signing of code.
    CodeSigning,
    /// Time-stamping of digests.
    TimeStamping,
}

// id-kp-codeSigning and id-kp-timeStamping: 1.3.6.1.5.5.7.3.3 and .8.
const CODE_SIGNING: &'static [u8] = &[0x2b, 0x06, 0x01, 0x05, 0x05, 0x07, 0x03, 0x03];

const TIME_STAMPING: &'static [u8] = &[0x2b, 0x06, 0x01, 0x05, 0x05, 0x07, 0x03, 0x08];

impl Purpose {
    /// The contents of its identifier.
    pub(crate) fn oid(self) -> &'static [u8]
        ensures { result.now ≡ oid_of_purpose self }
    {
        match self {
            Purpose::CodeSigning => CODE_SIGNING,
            Purpose::TimeStamping => TIME_STAMPING,
        }
    }
}
