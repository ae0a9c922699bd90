// The members of documents.
ghost use Rattle.sigstore_tuf_text.specs.Words.{member_name};

use crate::error::Error;
use sigstore_types_parts::Member;

/// A member of a document (TUF specification, section 4).
#[derive(Clone, Copy, Debug, PartialEq, Eq, Drop)]
pub enum DocumentMember {
    Keyid,
    Sig,
    Type,
    SpecVersion,
    Version,
    Expires,
    ConsistentSnapshot,
    Keys,
    Roles,
    Keytype,
    Scheme,
    Keyval,
    Public,
    Keyids,
    Threshold,
    Meta,
    Length,
    Hashes,
    Custom,
    Targets,
    Delegations,
    Name,
    Terminating,
    Paths,
    PathHashPrefixes,
}

impl Member for DocumentMember {
    ghost use Rattle.std.specs.Prelude.{refl};

    type Error = Error;

    ghost names = { member_name };

    ghost places = { λ _ e. e };

    fn name(self) -> &'static str {
        match self {
            DocumentMember::Keyid => "keyid",
            DocumentMember::Sig => "sig",
            DocumentMember::Type => "_type",
            DocumentMember::SpecVersion => "spec_version",
            DocumentMember::Version => "version",
            DocumentMember::Expires => "expires",
            DocumentMember::ConsistentSnapshot => "consistent_snapshot",
            DocumentMember::Keys => "keys",
            DocumentMember::Roles => "roles",
            DocumentMember::Keytype => "keytype",
            DocumentMember::Scheme => "scheme",
            DocumentMember::Keyval => "keyval",
            DocumentMember::Public => "public",
            DocumentMember::Keyids => "keyids",
            DocumentMember::Threshold => "threshold",
            DocumentMember::Meta => "meta",
            DocumentMember::Length => "length",
            DocumentMember::Hashes => "hashes",
            DocumentMember::Custom => "custom",
            DocumentMember::Targets => "targets",
            DocumentMember::Delegations => "delegations",
            DocumentMember::Name => "name",
            DocumentMember::Terminating => "terminating",
            DocumentMember::Paths => "paths",
            DocumentMember::PathHashPrefixes => "path_hash_prefixes",
        }
    }

    fn place(self, error: Error) -> Error {
        error
    }

    ghost keeps = { λ _. refl };
}
