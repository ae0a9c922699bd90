// Encodings worked out from the RFCs by hand, and messages that OpenSSL made: read, copied and written
// again with ample memory. A row answers `kept` where the same octets are written.
use crate::certificates;
use crate::encodings::again;
use crate::tables::{changed, check_tables, debug, good, number, place};
use cms::cert::{CertificateChoices, IssuerAndSerialNumber, OtherCertificateFormat};
use cms::content_info::{CmsVersion, ContentInfo};
use cms::revocation::{OtherRevocationInfoFormat, RevocationInfoChoice, RevocationInfoChoices};
use cms::signed_data::{
    CertificateSet, EncapsulatedContentInfo, SignedData, SignerIdentifier, SignerInfo, SignerInfos,
};
use cms_envelope::authenticated_data::AuthenticatedData;
use cms_envelope::compressed_data::CompressedData;
use cms_envelope::digested_data::DigestedData;
use cms_envelope::encrypted_data::EncryptedData;
use cms_envelope::enveloped_data::{
    EncryptedContentInfo, EnvelopedData, KekIdentifier, KekRecipientInfo,
    KeyAgreeRecipientIdentifier, KeyAgreeRecipientInfo, KeyTransRecipientInfo,
    OriginatorIdentifierOrKey, OriginatorInfo, OriginatorPublicKey, OtherRecipientInfo,
    PasswordRecipientInfo, RecipientEncryptedKey, RecipientIdentifier, RecipientInfo,
    RecipientInfos, RecipientKeyIdentifier,
};
use cms_envelope::timestamped_data::{
    ArchiveTimeStamp, EncryptionInfo, Evidence, EvidenceRecord, MetaData, OtherEvidence,
    TimeStampAndCrl, TimeStampedData, TsdVersion,
};
use der_core::*;
use foundation::Duplicate;
use std::process::Abort;

/// What a type answers to what a message holds in which the words tell of a change, if any.
fn within<X: AllocGlobal + Abort, T: Der + Duplicate + PartialEq>(
    rt: &X,
    bytes: &[u8],
    words: &str,
) -> String {
    let changed = changed_by(rt, bytes, words);
    let content = content_of(rt, &changed);
    drop(changed);
    match content {
        Ok(content) => again::<X, T>(rt, content.as_bytes()),
        Err(refusal) => debug(rt, refusal),
    }
}

/// A copy with one octet in the place of another, where the words tell the place and the octet.
fn changed_by<X: AllocGlobal + Abort>(rt: &X, bytes: &[u8], words: &str) -> Vec<u8> {
    match words.split_once(' ') {
        Some((place, octet)) => {
            let octet = good(rt, octet.parse::<u8>());
            changed(rt, bytes, number(rt, place), octet)
        }
        None => good(rt, bytes.to_vec(rt.alloc())),
    }
}

/// The encoding of what a message holds.
fn content_of<X: AllocGlobal + Abort>(rt: &X, bytes: &[u8]) -> Result<OctetString, DerError> {
    let info = ContentInfo::from_der(rt.alloc(), bytes)?;
    let content = info.content.to_der(rt.alloc());
    drop(info);
    content
}

const MESSAGE_TYPES: &str = "\
signed enveloped encrypted digested ContentInfo CertificateChoices IssuerAndSerialNumber \
OtherCertificateFormat CmsVersion OtherRevocationInfoFormat RevocationInfoChoice \
RevocationInfoChoices CertificateSet EncapsulatedContentInfo SignedData SignerIdentifier SignerInfo \
SignerInfos DigestedData EncryptedData";

/// What a type answers to octets; for any other name that of a call of x509_core.
pub fn answer<X: AllocGlobal + Abort>(rt: &X, name: &str, bytes: &[u8], words: &str) -> String {
    match place(name, MESSAGE_TYPES) {
        0 => within::<X, SignedData>(rt, bytes, words),
        1 => within::<X, EnvelopedData>(rt, bytes, words),
        2 => within::<X, EncryptedData>(rt, bytes, words),
        3 => within::<X, DigestedData>(rt, bytes, words),
        4 => again::<X, ContentInfo>(rt, bytes),
        5 => again::<X, CertificateChoices>(rt, bytes),
        6 => again::<X, IssuerAndSerialNumber>(rt, bytes),
        7 => again::<X, OtherCertificateFormat>(rt, bytes),
        8 => again::<X, CmsVersion>(rt, bytes),
        9 => again::<X, OtherRevocationInfoFormat>(rt, bytes),
        10 => again::<X, RevocationInfoChoice>(rt, bytes),
        11 => again::<X, RevocationInfoChoices>(rt, bytes),
        12 => again::<X, CertificateSet>(rt, bytes),
        13 => again::<X, EncapsulatedContentInfo>(rt, bytes),
        14 => again::<X, SignedData>(rt, bytes),
        15 => again::<X, SignerIdentifier>(rt, bytes),
        16 => again::<X, SignerInfo>(rt, bytes),
        17 => again::<X, SignerInfos>(rt, bytes),
        18 => again::<X, DigestedData>(rt, bytes),
        19 => again::<X, EncryptedData>(rt, bytes),
        _ => answer_of_envelopes(rt, name, bytes, words),
    }
}

const ENVELOPE_TYPES: &str = "\
AuthenticatedData CompressedData EncryptedContentInfo EnvelopedData KekIdentifier KekRecipientInfo \
KeyAgreeRecipientIdentifier KeyAgreeRecipientInfo KeyTransRecipientInfo OriginatorIdentifierOrKey \
OriginatorInfo OriginatorPublicKey OtherRecipientInfo PasswordRecipientInfo RecipientEncryptedKey \
RecipientIdentifier RecipientInfo RecipientInfos RecipientKeyIdentifier ArchiveTimeStamp \
EncryptionInfo Evidence EvidenceRecord MetaData OtherEvidence TimeStampAndCrl TimeStampedData \
TsdVersion";

fn answer_of_envelopes<X: AllocGlobal + Abort>(
    rt: &X,
    name: &str,
    bytes: &[u8],
    words: &str,
) -> String {
    match place(name, ENVELOPE_TYPES) {
        0 => again::<X, AuthenticatedData>(rt, bytes),
        1 => again::<X, CompressedData>(rt, bytes),
        2 => again::<X, EncryptedContentInfo>(rt, bytes),
        3 => again::<X, EnvelopedData>(rt, bytes),
        4 => again::<X, KekIdentifier>(rt, bytes),
        5 => again::<X, KekRecipientInfo>(rt, bytes),
        6 => again::<X, KeyAgreeRecipientIdentifier>(rt, bytes),
        7 => again::<X, KeyAgreeRecipientInfo>(rt, bytes),
        8 => again::<X, KeyTransRecipientInfo>(rt, bytes),
        9 => again::<X, OriginatorIdentifierOrKey>(rt, bytes),
        10 => again::<X, OriginatorInfo>(rt, bytes),
        11 => again::<X, OriginatorPublicKey>(rt, bytes),
        12 => again::<X, OtherRecipientInfo>(rt, bytes),
        13 => again::<X, PasswordRecipientInfo>(rt, bytes),
        14 => again::<X, RecipientEncryptedKey>(rt, bytes),
        15 => again::<X, RecipientIdentifier>(rt, bytes),
        16 => again::<X, RecipientInfo>(rt, bytes),
        17 => again::<X, RecipientInfos>(rt, bytes),
        18 => again::<X, RecipientKeyIdentifier>(rt, bytes),
        19 => again::<X, ArchiveTimeStamp>(rt, bytes),
        20 => again::<X, EncryptionInfo>(rt, bytes),
        21 => again::<X, Evidence>(rt, bytes),
        22 => again::<X, EvidenceRecord>(rt, bytes),
        23 => again::<X, MetaData>(rt, bytes),
        24 => again::<X, OtherEvidence>(rt, bytes),
        25 => again::<X, TimeStampAndCrl>(rt, bytes),
        26 => again::<X, TimeStampedData>(rt, bytes),
        27 => again::<X, TsdVersion>(rt, bytes),
        _ => certificates::answer(rt, name, bytes, words),
    }
}

// Signed data and its parts.
const SIGNED: &str = "\
CmsVersion 020100 => kept
CmsVersion 020105 => kept
CmsVersion 020106 => Value
CmsVersion 02020001 => Value
CmsVersion 0a0101 => Tag
IssuerAndSerialNumber 30053000020107 => kept
IssuerAndSerialNumber 30023000 => Truncated
IssuerAndSerialNumber 301a3000021600000000000000000000000000000000000000000000 => Value
OtherCertificateFormat 300606022b010500 => kept
CertificateChoices a308300606022b010500 => kept
CertificateChoices a30606022b010500 => Tag
CertificateChoices a30a300606022b0105000500 => Trailing
CertificateChoices a000 => Tag
CertificateChoices 3000 => Value
CertificateSet 310aa308300606022b010500 => kept
OtherRevocationInfoFormat 3008300406022b010500 => kept
RevocationInfoChoice 3006300005000500 => kept
RevocationInfoChoice a108300406022b010500 => kept
RevocationInfoChoice a10a3008300406022b010500 => Tag
RevocationInfoChoices 31123006300005000500a108300406022b010500 => kept
RevocationInfoChoices 3112a108300406022b0105003006300005000500 => 31123006300005000500a108300406022b010500
RevocationInfoChoices 311030063000050005003006300005000500 => SetDuplicate
ContentInfo 300a06022b01a00404020102 => kept
ContentInfo 300406022b01 => Truncated
ContentInfo 300e06022b01a0080402010204020102 => Trailing
EncapsulatedContentInfo 300a06022b01a00404020102 => kept
EncapsulatedContentInfo 300406022b01 => kept
EncapsulatedContentInfo 300606022b01a000 => Truncated
SignerIdentifier 30053000020107 => kept
SignerIdentifier 800101 => kept
SignerIdentifier a00404020102 => Tag
SignerInfo 301a02010130053000020107300406022b01300406022b0104020102 => kept
SignerInfo 302902010130053000020107300406022b01a00b300906022b013103020101300406022b0104020102a100 => kept
SignerInfo 303202010130053000020107300406022b01a016300906022b013103020101300906022b013103020101300406022b0104020102 => SetDuplicate
SignerInfo 302702010130053000020107300406022b01310b300906022b013103020101300406022b0104020102 => Tag
SignerInfo 301c02010130053000020107300406022b01300406022b0104020102a200 => Trailing
SignerInfos 311c301a02010130053000020107300406022b01300406022b0104020102 => kept
SignedData 30130201013100300a06022b01a004040201023100 => kept
SignedData 30410201033106300406022b01300a06022b01a00404020102a000a1083006300005000500311c301a02010130053000020107300406022b01300406022b0104020102 => kept
SignedData 301f020103310c300406022b01300406022b01300a06022b01a004040201023100 => SetDuplicate
SignedData 30170201033100300a06022b01a00404020102a100a0003100 => Tag";

// Enveloped, encrypted, authenticated, digested and compressed data.
const ENVELOPED: &str = "\
OriginatorPublicKey 300a300406022b01030200ff => kept
OriginatorPublicKey 300a300406022b01030201ff => Value
OriginatorIdentifierOrKey 30053000020107 => kept
OriginatorIdentifierOrKey 8000 => kept
OriginatorIdentifierOrKey a109300406022b01030100 => kept
OriginatorIdentifierOrKey a200 => Tag
RecipientIdentifier 800101 => kept
RecipientIdentifier 30053000020107 => kept
KeyTransRecipientInfo 3010020102800101300406022b0104020102 => kept
KeyAgreeRecipientIdentifier a003040101 => kept
KeyAgreeRecipientIdentifier 8003040101 => Tag
KeyAgreeRecipientIdentifier 30053000020107 => kept
RecipientKeyIdentifier 302004020102180f32303234303130323033303430355a300906022b013103020101 => kept
RecipientKeyIdentifier 300f04020102300906022b013103020101 => kept
RecipientKeyIdentifier 302004020102300906022b013103020101180f32303234303130323033303430355a => Trailing
RecipientEncryptedKey 300b3005300002010704020102 => kept
KeyAgreeRecipientInfo 3021020103a00730053000020107300406022b01300d300b3005300002010704020102 => kept
KeyAgreeRecipientInfo 3034020103a00730053000020107a10404020102300406022b01301a300b3005300002010704020102300b3005300002010704020102 => kept
KeyAgreeRecipientInfo 3024020103a00730053000020107810101300406022b01300d300b3005300002010704020102 => Tag
KekIdentifier 301504020102180f32303234303130323033303430355a => kept
KekRecipientInfo 3024020104301504020102180f32303234303130323033303430355a300406022b0104020102 => kept
PasswordRecipientInfo 300d020100300406022b0104020102 => kept
PasswordRecipientInfo 3013020100a00406022b01300406022b0104020102 => kept
PasswordRecipientInfo 3015020100a006300406022b01300406022b0104020102 => Tag
OtherRecipientInfo 300606022b010500 => kept
RecipientInfo 3010020102800101300406022b0104020102 => kept
RecipientInfo a40606022b010500 => kept
RecipientInfo a30d020100300406022b0104020102 => kept
RecipientInfo a500 => Tag
RecipientInfos 311aa40606022b0105003010020102800101300406022b0104020102 => 311a3010020102800101300406022b0104020102a40606022b010500
EncryptedContentInfo 300d06022b01300406022b01800107 => kept
EncryptedContentInfo 300a06022b01300406022b01 => kept
EncryptedContentInfo 301006022b01300406022b01a00404020102 => Trailing
OriginatorInfo 3000 => kept
OriginatorInfo 300ca000a1083006300005000500 => kept
EnvelopedData 303f020102a00aa108300630000500050031123010020102800101300406022b0104020102300d06022b01300406022b01800107a10b300906022b013103020101 => kept
EnvelopedData 302602010231123010020102800101300406022b0104020102300d06022b01300406022b01800107 => kept
EncryptedData 301f020100300d06022b01300406022b01800107a10b300906022b013103020101 => kept
DigestedData 3019020100300406022b01300a06022b01a0040402010204020102 => kept
CompressedData 3015020100300406022b01300a06022b01a00404020102 => kept
AuthenticatedData 302d02010031123010020102800101300406022b0104020102300406022b01300a06022b01a0040402010204020102 => kept
AuthenticatedData 304d02010031123010020102800101300406022b0104020102300406022b01a10406022b01300a06022b01a00404020102a20b300906022b01310302010104020102a30b300906022b013103020101 => kept
AuthenticatedData 303502010031123010020102800101300406022b0104020102300406022b01a106300406022b01300a06022b01a0040402010204020102 => Tag
AuthenticatedData 303a02010031123010020102800101300406022b0104020102300406022b01300a06022b01a00404020102a30b300906022b01310302010104020102 => Tag";

// Time-stamped data.
const STAMPED: &str = "\
TsdVersion 020101 => kept
TsdVersion 020100 => Value
MetaData 30030101ff => kept
MetaData 30160101000c0161160162310b300906022b013103020101 => kept
MetaData 3003010101 => Value
TimeStampAndCrl 300a300806022b01a0020500 => kept
TimeStampAndCrl 3012300806022b01a00205003006300005000500 => kept
OtherEvidence 300606022b010500 => kept
ArchiveTimeStamp 300a300806022b01a0020500 => kept
ArchiveTimeStamp 302ba006300406022b01a10d310b300906022b013103020101a2083006300404020102300806022b01a0020500 => kept
ArchiveTimeStamp 3017a10b300906022b013103020101300806022b01a0020500 => Tag
EncryptionInfo 300606022b010500 => kept
EvidenceRecord 3021020101300c300406022b01300406022b01300e300c300a300806022b01a0020500 => kept
EvidenceRecord 303a020101300c300406022b01300406022b01a00d300b300906022b013103020101a108300606022b010500300e300c300a300806022b01a0020500 => kept
Evidence a00e300c300a300806022b01a0020500 => kept
Evidence a1233021020101300c300406022b01300406022b01300e300c300a300806022b01a0020500 => kept
Evidence a208300606022b010500 => kept
Evidence a20606022b010500 => Tag
TimeStampedData 300d020101a208300606022b010500 => kept
TimeStampedData 301902010116017530030101ff04020102a208300606022b010500 => kept
TimeStampedData 301402010104020102160175a208300606022b010500 => Tag";

// Messages that OpenSSL made.
const MESSAGES: &str = "\
signed attached => kept
signed detached => kept
signed two_signers => kept
signed keyid => kept
signed extra => kept
signed noattr => kept
signed lists => kept
signed built => kept
enveloped ktri => kept
enveloped kari => kept
enveloped several => kept
encrypted encrypted => kept
digested digested => kept
ContentInfo attached => kept";

// One octet of a message changed: its place, what stands there then, and the refusal.
const CHANGED: &str = "\
signed attached 25 6 => Value
signed attached 26 48 => Tag
signed attached 30 4 => Tag
signed attached 32 128 => Value
signed attached 54 161 => Trailing
signed attached 55 9 => Truncated
signed attached 76 7 => Value
signed attached 77 160 => Tag
signed attached 112 162 => Tag
signed attached 128 48 => Tag
signed attached 355 3 => Tag
signed attached 21 0 => Length
signed attached 16 133 => Length
enveloped several 36 129 => Tag
enveloped several 227 8 => Value
enveloped several 319 49 => Tag
enveloped several 373 165 => Tag
enveloped several 380 3 => Tag";

#[test]
fn contents(rt: HostRuntime) {
    check_tables(&rt, &[SIGNED, ENVELOPED, STAMPED, MESSAGES, CHANGED]);
}
