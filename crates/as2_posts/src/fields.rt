//! What the fields of a head say.
ghost use Rattle.std.specs.Prelude.{◌≡◌, IfOk, codes, option_map};
ghost use Rattle.std.specs.Str.{str_to_ascii_lowercase};
ghost use Rattle.as2_names.specs.Heads.{values};
ghost use Rattle.as2_exchange.specs.Readings.{are_known, id_of, is_version, name_in, type_in, media_type_of};

use as2_text::{AsName, Head, IdFault, MediaType, Memory, MessageId, Once};
use std::alloc::Global;

/// The AS2 name that the one field of that name spells (RFC 4130, section 6.2).
pub(crate) fn name_in(head: &Head, field: &[u8]) -> Option<AsName>
    ensures { result ≡ name_in (str_to_ascii_lowercase field.now) head.now }
{
    match head.value(field) {
        Once::One(text) => AsName::parse(text).ok(),
        Once::Absent | Once::Twice => None,
    }
}

/// `1.` and one digit.
fn is_version(text: &[u8]) -> bool
    ensures { result ≡ is_version text.now }
{
    match text {
        [b'1', b'.', digit] => digit.is_ascii_digit(),
        _ => false,
    }
}

/// `AS2-Version` is absent, or known (RFC 4130, section 6.1).
pub(crate) fn version_fits(head: &Head) -> bool
    ensures { result ≡ are_known (values (codes "as2-version") head.now) }
{
    match head.value(b"as2-version") {
        Once::Absent => true,
        Once::One(text) => is_version(text),
        Once::Twice => false,
    }
}

/// A content type, and its text.
fn typed(text: &[u8]) -> Option<(MediaType<'_>, &[u8])>
    ensures { option_map (λ t. (t.0, t.1.now)) result ≡ media_type_of text.now }
{
    match MediaType::parse(text) {
        Ok(media) => Some((media, text)),
        Err(_) => None,
    }
}

/// The content type of a head, and its text; that of bytes of no known type where none is given (RFC 2046, section 4.5.1).
pub(crate) fn type_in(head: &Head) -> Option<(MediaType<'_>, &[u8])>
    ensures { option_map (λ t. (t.0, t.1.now)) result ≡ type_in (values (codes "content-type") head.now) }
{
    match head.value(b"content-type") {
        Once::Absent => typed(b"application/octet-stream"),
        Once::One(text) => typed(text),
        Once::Twice => None,
    }
}

/// The identifier that the one `Message-ID` holds (RFC 4130, section 5.3.3).
#[tactic(auto, unfolding(as2_exchange::specs::Readings::id_of))]
pub(crate) fn id_in(alloc: Global, head: &Head) -> Result<Option<MessageId>, Memory>
    ensures { IfOk result (λ id. id ≡ id_of head.now) }
{
    match head.value(b"message-id") {
        Once::One(text) => match MessageId::parse(alloc, text) {
            Ok(id) => Ok(Some(id)),
            Err(IdFault::Memory) => Err(Memory),
            Err(_) => Ok(None),
        },
        Once::Absent | Once::Twice => Ok(None),
    }
}
