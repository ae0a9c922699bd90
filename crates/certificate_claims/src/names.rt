// The names of a certificate's owner (RFC 5280, 4.2.1.6); no memory is taken.
ghost use Rattle.std.specs.Prelude.{◌≡◌, true, false, IfOk, IfErr, Ok, Err};
ghost use Rattle.der_grammar.specs.declared.error.DerError.TheVariants.{Value as BadValue};
ghost use Rattle.der_grammar.specs.Grammar.{read};
ghost use Rattle.der_grammar.specs.Many.{many_of};
ghost use Rattle.der_core.specs.Strings.{is_ia5_string};
ghost use Rattle.x509_core.specs.Types.{general_name_type};
ghost use Rattle.certificate_claims.specs.Info.{names_of};
ghost use Rattle.certificate_claims.specs.Names.{said, shown_of, shown_at, first_of, or_first};

use der_core::{Der, DerError, Ia5Kind, PrimitiveKind, Reader, Tag, tag};
use x509_core::GeneralName;

/// A name that says who the owner is.
#[derive(Clone, Copy)]
pub enum FoundName<'a> {
    /// A mail address.
    Email(&'a str),
    /// A uniform resource identifier.
    Uri(&'a str),
}

// The text of an IA5String: octets below 128 are UTF-8 (RFC 3629, section 3).
fn ascii_text(contents: &[u8]) -> Result<&str, DerError>
    ensures ok { IfOk result (λ text. (is_ia5_string contents.now ≡ true) × (text.now ≡ contents.now)) }
    ensures err { IfErr result (λ e. (is_ia5_string contents.now ≡ false) × (e ≡ BadValue)) }
{
    if !Ia5Kind::allows(contents) {
        return Err(DerError::Value);
    }
    Ok(str::from_utf8(contents).unwrap())
}

fn name_in(tag: Tag, contents: &[u8]) -> Result<Option<FoundName>, DerError>
    ensures ok { IfOk result (λ name. shown_of (general_name_type.grammar.value tag.0 contents.now) ≡ Ok (said name)) }
    ensures err { IfErr result (λ e. general_name_type.grammar.value tag.0 contents.now ≡ Err e) }
{
    if tag.0 == tag::PRIMITIVE_1 {
        Ok(Some(FoundName::Email(ascii_text(contents)?)))
    } else if tag.0 == tag::PRIMITIVE_6 {
        Ok(Some(FoundName::Uri(ascii_text(contents)?)))
    } else {
        Ok(None)
    }
}

#[tactic(auto, unfolding(der_grammar::specs::Grammar::read))]
fn read_name<'a>(reader: &mut Reader<'a>) -> Result<Option<FoundName<'a>>, DerError>
    ensures ok { IfOk result (λ name. shown_at (read general_name_type.grammar reader.old) ≡ Ok (said name, reader.new)) }
    ensures err { IfErr result (λ e. read general_name_type.grammar reader.old ≡ Err e) }
{
    let tlv = reader.read_tlv()?;
    if !GeneralName::accepts(tlv.tag) {
        return Err(DerError::Tag);
    }
    let name = name_in(tlv.tag, tlv.value)?;
    Ok(name)
}

fn earlier<'a>(found: Option<FoundName<'a>>, name: Option<FoundName<'a>>) -> Option<FoundName<'a>>
    ensures { said result ≡ or_first (said found.entry) (said name.entry) }
{
    match found {
        Some(found) => Some(found),
        None => name,
    }
}

fn first_in(contents: &[u8]) -> Result<Option<FoundName>, DerError>
    ensures ok { IfOk result (λ name. first_of (many_of general_name_type.grammar contents.now) ≡ Ok (said name)) }
    ensures err { IfErr result (λ e. many_of general_name_type.grammar contents.now ≡ Err e) }
{
    let mut reader = Reader::new(contents);
    let mut found = None;
    'names: while let Some(_tag) = reader.peek_tag() {
        let name = read_name(&mut reader)?;
        found = earlier(found, name);
    }
    Ok(found)
}

/// The first name in a value of the extension that says who the owner is, all names being read.
#[tactic(auto, unfolding(der_grammar::specs::Grammar::read, der_grammar::specs::Grammar::read_all))]
pub fn read_names(value: &[u8]) -> Result<Option<FoundName>, DerError>
    ensures ok { IfOk result (λ name. first_of (names_of value.now) ≡ Ok (said name)) }
    ensures err { IfErr result (λ e. names_of value.now ≡ Err e) }
{
    let mut reader = Reader::new(value);
    let tlv = reader.read_tlv()?;
    if tlv.tag.0 != tag::SEQUENCE {
        return Err(DerError::Tag);
    }
    let name = first_in(tlv.value)?;
    reader.finish()?;
    Ok(name)
}
