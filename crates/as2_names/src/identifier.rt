//! Message identifiers (RFC 4130, section 5.3.3).

ghost use Rattle.std.specs.Prelude.{◌≡◌, ◌⊎◌, ◌↔◌, ℕ, List, IfOk, Ok, Err, IsTrue, string_bytes};
ghost use Rattle.as2_names.specs.Blanks.{without_blanks};
ghost use Rattle.as2_names.specs.Identifiers.{IsIdentifier, OrNoMemory, identifier_of, is_identifier, identifier_reading, without_brackets};
ghost use Rattle.as2_names.specs.declared.identifier.IdFault.TheVariants.{Memory};

use crate::ascii::all_printable;
use crate::blanks::without_blanks;
use std::alloc::{AllocError, Global};
use std::marker::Model;

/// Why a text is no message identifier: the first fault in this order.
#[derive(Clone, Copy, Debug, PartialEq, Eq)]
pub enum IdFault {
    /// The value has no byte.
    Empty,
    /// The value has more than 998 bytes.
    TooLong,
    /// A byte isn't printable ASCII.
    BadByte,
    /// There was no memory to keep the identifier.
    Memory,
}

impl From<AllocError> for IdFault {
    ghost from_gives = { λ _ e. e ≡ Memory };

    fn from(_error: AllocError) -> IdFault {
        IdFault::Memory
    }
}

/// A message identifier (RFC 4130, section 5.3.3): printable bytes whose value, the text without one surrounding pair
/// of angle brackets, has 1 to 998 bytes.
#[derive(Drop)]
pub struct MessageId {
    text: String,
}

impl Model for MessageId {
    ghost Value = { List ℕ };

    ghost view = { λ m. string_bytes m.text };

    ghost invariant = { λ m. IsIdentifier (string_bytes m.text) };
}

/// The value of an identifier: the text without one surrounding pair of angle brackets (RFC 4130, section 5.3.3).
#[tactic(auto, unfolding(crate::specs::Identifiers::without_brackets))]
pub fn without_brackets(text: &[u8]) -> &[u8]
    ensures { result.now ≡ without_brackets text.now }
{
    match text {
        [b'<', value @ .., b'>'] => value,
        _ => text,
    }
}

/// Whether the text is an identifier, without blanks at its ends. It takes no memory.
pub fn is_identifier(text: &[u8]) -> bool
    ensures is { IsTrue result ↔ IsIdentifier text.now }
    ensures exact { result ≡ is_identifier text.now }
{
    let value = without_brackets(text);
    without_blanks(text) == text && !value.is_empty() && value.len() <= 998 && all_printable(text)
}

/// Keeps an identifier.
fn keep(alloc: Global, text: &[u8]) -> Result<MessageId, IdFault>
    requires { IsIdentifier text.now }
    ensures { OrNoMemory result (Ok text.now) }
{
    let text = str::from_utf8(text).unwrap();
    Ok(MessageId {
        text: String::from_str(alloc, text)?,
    })
}

/// The identifier that a text without blanks at its ends is.
fn identify(alloc: Global, text: &[u8]) -> Result<MessageId, IdFault>
    requires { without_blanks text.now ≡ text.now }
    ensures { OrNoMemory result (identifier_of text.now) }
{
    let value = without_brackets(text);
    if value.is_empty() {
        return Err(IdFault::Empty);
    }
    if value.len() > 998 {
        return Err(IdFault::TooLong);
    }
    if !all_printable(text) {
        return Err(IdFault::BadByte);
    }
    keep(alloc, text)
}

impl MessageId {
    /// The identifier that a field holds, without the blanks at the field's ends.
    pub fn parse(alloc: Global, field: &[u8]) -> Result<MessageId, IdFault>
        // What is read is the field without blanks, and an identifier.
        ensures found { IfOk result (λ text. (text ≡ without_blanks field.now) × IsIdentifier text) }
        // A field that holds an identifier is read, or there was no memory.
        ensures only { IsIdentifier (without_blanks field.now) → (result ≡ Ok (without_blanks field.now))
            ⊎ (result ≡ Err Memory) }
        // Which fault it is; memory is wanting only for an identifier.
        ensures exact { OrNoMemory result (identifier_reading field.now) }
    {
        identify(alloc, without_blanks(field))
    }

    /// The identifier as it was received, with its brackets where it had them.
    pub fn as_received(&self) -> &str
        ensures text { result.now ≡ self.now }
        ensures identifier { IsIdentifier self.now }
    {
        self.text.as_str()
    }

    /// The identifier's value: what stands between its brackets, or all of it where it has none.
    pub fn value(&self) -> &str
        ensures { result.now ≡ without_brackets self.now }
    {
        str::from_utf8(without_brackets(self.text.as_bytes())).unwrap()
    }

    /// Whether both have one value, with brackets or without.
    pub fn same_value(&self, other: &MessageId) -> bool
        ensures { IsTrue result ↔ (without_brackets self.now ≡ without_brackets other.now) }
    {
        self.value() == other.value()
    }
}

impl Clone for MessageId {
    ghost is_clone = { λ m n. n ≡ m };

    fn clone(&self) -> Result<MessageId, AllocError> {
        Ok(MessageId {
            text: self.text.clone()?,
        })
    }
}
