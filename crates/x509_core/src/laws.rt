// What the readings of views and of the types that own their bytes have in common.
ghost use Rattle.std.specs.Prelude.{◌≡◌, ℕ, List, Ok, is_ok};
ghost use Rattle.der_grammar.specs.Grammar.{read, read_all};
ghost use Rattle.der_grammar.specs.Tags.{sequence_tag};
ghost use Rattle.der_core.specs.declared.civil.Civil.{Civil as CivilTime};
ghost use Rattle.x509_views.specs.Certificates.{certificate_of, serial_at, time_at};
ghost use Rattle.x509_views.specs.Extensions.{extension_at};
ghost use Rattle.spki_core.specs.Reading.{of_der, encoded_at};
ghost use Rattle.x509_core.specs.declared.time.Time.{Time as TimeType};
ghost use Rattle.x509_core.specs.Kinds.{certificate_type, serial_number_type};
ghost use Rattle.x509_core.specs.Types.{time_type};
ghost use Rattle.x509_core.specs.Views.{name_read, algorithm_read, algorithm_viewed, extension_read, civil_of};

/// `Certificate::from_der` accepts what `CertView::parse` accepts, want of memory aside.
pub fn certificates_alike()
    ensures { (bytes : List ℕ) → is_ok (read_all certificate_type.grammar bytes) ≡ is_ok (certificate_of bytes) }
{}

/// A view has a name as it is encoded where a `Name` is read, with the same refusals.
pub fn names_alike()
    ensures { (bytes : List ℕ) → encoded_at sequence_tag bytes ≡ name_read bytes }
{}

/// A view has the contents of a serial number where a `SerialNumber` is read, with the same refusals.
pub fn serial_numbers_alike()
    ensures { (bytes : List ℕ) → serial_at bytes ≡ of_der (read serial_number_type.grammar bytes) }
{}

/// A view has an algorithm's identifier and its parameters as they are encoded where an
/// `AlgorithmIdentifierOwned` is read, with the same refusals.
pub fn algorithms_alike()
    ensures { (bytes : List ℕ) → algorithm_viewed bytes ≡ algorithm_read bytes }
{}

/// A view has an extension's parts where an `Extension` is read, with the same refusals.
pub fn extensions_alike()
    ensures { (bytes : List ℕ) → extension_at bytes ≡ extension_read bytes }
{}

/// A view has the civil time of a `Time` that is read.
pub fn times_alike()
    ensures { (bytes : List ℕ) (t : TimeType) (rest : List ℕ) → read time_type.grammar bytes ≡ Ok (t, rest)
        → (c : CivilTime) × (civil_of t ≡ Ok c) × (time_at bytes ≡ Ok (c, rest)) }
{}
