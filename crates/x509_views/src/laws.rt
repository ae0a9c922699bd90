// Laws of certificates.
ghost use Rattle.std.specs.Prelude.{◌≡◌, ◌++◌, ◌∷◌, ℕ, List, Some, None, Ok};
ghost use Rattle.der_grammar.specs.Tlv.{IsBytes, tlv};
ghost use Rattle.x509_views.specs.Certificates.{Certificate, certificate_of};
ghost use Rattle.x509_views.specs.Extensions.{Found, found_of};
ghost use Rattle.x509_views.specs.Precertificates.{precert_of};
ghost use Rattle.spki_core.specs.Spki.{Spki, spki_view_of};

/// A certificate is its signed part, its algorithm and its signature, octet by octet.
pub fn certificate_is_its_parts()
    ensures { (bytes : List ℕ) (c : Certificate) → IsBytes bytes → certificate_of bytes ≡ Ok c
        → bytes ≡ tlv 48 (c.tbs ++ tlv 48 c.algorithm ++ tlv 3 (0 ∷ c.signature)) }
{}

/// A signed part with extensions is what stands before them, and these.
pub fn signed_part_is_its_parts()
    ensures { (bytes : List ℕ) (c : Certificate) (list : List ℕ) → IsBytes bytes → certificate_of bytes ≡ Ok c → c.signed.tail.extensions ≡ Some list
        → c.tbs ≡ tlv 48 (c.signed.tail.front ++ tlv 163 (tlv 48 list)) }
{}

/// No identifier stands twice among a certificate's extensions (RFC 5280, 4.2).
pub fn extension_stands_once()
    ensures { (bytes : List ℕ) (c : Certificate) (list oid : List ℕ) (found : Found) → IsBytes bytes → certificate_of bytes ≡ Ok c → c.signed.tail.extensions ≡ Some list
        → found_of oid list ≡ Some found → found_of oid found.behind ≡ None }
{}

/// For a certificate that was read, the signed part of its precertificate is there.
pub fn precertificate_is_there()
    ensures { (bytes : List ℕ) (c : Certificate) → IsBytes bytes → certificate_of bytes ≡ Ok c
        → (tbs : List ℕ) × (precert_of c.tbs c.signed.tail.front c.signed.tail.extensions ≡ Ok tbs) }
{}

/// A key is its algorithm and its bits, octet by octet.
pub fn key_is_its_parts()
    ensures { (bytes : List ℕ) (s : Spki) → IsBytes bytes → spki_view_of bytes ≡ Ok s
        → bytes ≡ tlv 48 (tlv 48 s.algorithm.encoded ++ tlv 3 (s.unused_bits ∷ s.key)) }
{}
