//! Media types, with their parameters (RFC 2045, section 5.1).

// Media types.
ghost use Rattle.std.specs.Prelude.{◌≡◌, ℕ, IfOk, Ok, Option, option_map};
ghost use Rattle.as2_media.specs.MediaTypes.{Media, IsMediaType, media_type_reading, essence, media_of, media_is_type};
ghost use Rattle.as2_media.specs.Parameters.{parameters};
ghost use Rattle.as2_media.specs.Cuts.{segments_of};
ghost use Rattle.as2_media.specs.Kinds.{kind_of, pkcs7_kind, says, boundary_of, is_boundary_byte, is_boundary};
ghost use Rattle.std.specs.List.{list_all};

use crate::essence::Essence;
use crate::fault::TypeFault;
use crate::kind::Kind;
use crate::parameters::Parameters;
use as2_names::cut_at;
use std::marker::Model;

/// A media type: type, subtype and at most eight parameters (RFC 2045, section 5.1). Its parts are slices of the field
/// that it was read from.
#[derive(Drop)]
pub struct MediaType<'a> {
    essence: Essence<'a>,
    parameters: Parameters<'a>,
}

impl<'a> Model for MediaType<'a> {
    ghost use Rattle.as2_media.specs.MediaTypes.{Media};

    ghost Value = { Media };

    ghost view = { λ m. record { type_name = m.essence.0; subtype = m.essence.1; parameters = m.parameters } };
}

fn is_boundary_byte(b: u8) -> bool
    ensures { result ≡ is_boundary_byte b }
{
    matches!(b, b' '..=b'~') && b != b'\\'
}

fn all_boundary_bytes(text: &[u8]) -> bool
    ensures { result ≡ list_all is_boundary_byte text.now }
{
    text.iter().all(|b| is_boundary_byte(*b))
}

/// Whether delimiters can be made of it (RFC 2046, section 5.1.1).
fn is_boundary(text: &[u8]) -> bool
    ensures { result ≡ is_boundary text.now }
{
    !text.is_empty() && text.len() <= 70 && all_boundary_bytes(text) && text[text.len() - 1] != b' '
}

/// The media type of the text before the first `;`, and of what stands behind it where there is one.
fn media_type<'a>(text: &'a [u8], behind: Option<&'a [u8]>) -> Result<MediaType<'a>, TypeFault>
    ensures { result ≡ media_of (essence text.now) (parameters 8 (segments_of (option_map (λ t. t.now) behind.entry))) }
{
    Ok(MediaType {
        essence: Essence::parse(text)?,
        parameters: Parameters::parse(behind)?,
    })
}

fn read(field: &[u8]) -> Result<MediaType<'_>, TypeFault>
    ensures { result ≡ media_type_reading field.now }
{
    match cut_at(field, b';') {
        None => media_type(field, None),
        Some((text, behind)) => media_type(text, Some(behind)),
    }
}

impl<'a> MediaType<'a> {
    /// The media type that a field's value is.
    pub fn parse(field: &'a [u8]) -> Result<MediaType<'a>, TypeFault>
        // What is read is spelled so.
        ensures found { IfOk result (IsMediaType field.now) }
        // What spells a media type is read as that one.
        ensures only { (media : Media) → IsMediaType field.now media → result ≡ Ok media }
        // Which fault it is.
        ensures exact { result ≡ media_type_reading field.now }
    {
        read(field)
    }

    /// Whether it is of that type and subtype, whatever the case of their letters.
    pub fn is_type(&self, type_name: &[u8], subtype: &[u8]) -> bool
        ensures { result ≡ media_is_type type_name.now subtype.now self.now }
    {
        self.essence.is_type(type_name, subtype)
    }

    /// Whether the first parameter of that name has that value, whatever the case of their letters.
    fn says(&self, name: &[u8], value: &[u8]) -> bool
        ensures { result ≡ says name.now value.now self.now }
    {
        match self.parameters.first_value(name) {
            None => false,
            Some(given) => given.eq_ignore_ascii_case(value),
        }
    }

    /// What a body of type `application/pkcs7-mime` is (RFC 8551, section 3.2.2).
    fn secured(&self) -> Kind
        ensures { result ≡ pkcs7_kind self.now }
    {
        if self.says(b"smime-type", b"compressed-data") {
            Kind::Compressed
        } else if self.says(b"smime-type", b"signed-data") {
            Kind::Signed
        } else {
            Kind::Enveloped
        }
    }

    /// What a body of this type is.
    pub fn kind(&self) -> Kind
        ensures { result ≡ kind_of self.now }
    {
        if self.is_type(b"application", b"pkcs7-mime")
            || self.is_type(b"application", b"x-pkcs7-mime")
        {
            self.secured()
        } else if self.is_type(b"multipart", b"signed") {
            Kind::Signed
        } else if self.is_type(b"multipart", b"report")
            && self.says(b"report-type", b"disposition-notification")
        {
            Kind::Report
        } else {
            Kind::Document
        }
    }

    /// The boundary of the parts, where one is given that delimiters can be made of: 1 to 70 printable bytes without a
    /// backslash and without a space at the end (RFC 2046, section 5.1.1).
    pub fn boundary(&self) -> Option<&'a [u8]>
        ensures { option_map (λ b. b.now) result ≡ boundary_of self.now }
    {
        match self.parameters.first_value(b"boundary") {
            None => None,
            Some(value) => {
                if is_boundary(value) {
                    Some(value)
                } else {
                    None
                }
            }
        }
    }
}
