// What was built is what was put in.
ghost use Rattle.std.specs.Prelude.{◌≡◌, ℕ, List, Ok, Some};
ghost use Rattle.der_grammar.specs.Grammar.{read_all, write};
ghost use Rattle.der_grammar.specs.Sets.{set_of};
ghost use Rattle.der_grammar.specs.Types.{any_type};
ghost use Rattle.x509_core.specs.declared.attribute.Attribute.{Attribute};
ghost use Rattle.x509_core.specs.Types.{attribute_type};
ghost use Rattle.cms_parts.specs.declared.content_info.ContentInfo.{ContentInfo};
ghost use Rattle.cms_parts.specs.declared.signed_data.SignedData.{SignedData};
ghost use Rattle.cms_parts.specs.declared.signed_data.SignerInfo.{SignerInfo};
ghost use Rattle.cms_parts.specs.Identifiers.{signed_data_oid};
ghost use Rattle.cms_parts.specs.SignedData.{signed_data_type};
ghost use Rattle.cms.specs.Building.{signed_data_of, built};
ghost use Rattle.cms.specs.Parts.{Collected, Signing};
ghost use Rattle.cms.specs.Signing.{signed_by};

use crate::signer::CmsSigner;

/// What was built has the type signed-data, and its content is read as what was collected.
pub fn built_is_read()
    ensures { (c : Collected) (content : ContentInfo) → built c ≡ Ok content
        → (signed : SignedData) × (bytes : List ℕ) × (signed_data_of c ≡ Ok signed) × (content.content_type ≡ signed_data_oid)
        × (write any_type.grammar content.content ≡ Ok bytes) × (read_all signed_data_type.grammar bytes ≡ Ok signed) }
{}

/// A signer's signature is that of the encoding of its signed attributes as a SET OF.
pub fn signature_is_of_the_set<S: CmsSigner>()
    ensures { (b : Signing S) (info : SignerInfo) → signed_by (S.identifier b.signer) (S.signs b.signer) b ≡ Ok info
        → (members : List Attribute) × (encoding : List ℕ) × (info.signed_attrs ≡ Some members)
        × (write (set_of attribute_type.grammar) members ≡ Ok encoding) × (S.signs b.signer encoding ≡ Some info.signature) }
{}
