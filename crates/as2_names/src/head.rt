//! The fields of a head.

ghost use Rattle.std.specs.Prelude.{◌≡◌, ℕ, ◌≤◌, List, [], ◌∷◌, ◌++◌, length, IfOk, OnOk, OnErr, vec_len};
ghost use Rattle.std.specs.List.{list_all, list_any};
ghost use Rattle.std.specs.Str.{bytes_eq, str_to_ascii_lowercase};
ghost use Rattle.as2_names.specs.Options.{lists};
ghost use Rattle.as2_names.specs.Blanks.{without_blanks};
ghost use Rattle.as2_names.specs.declared.head.HeadFault.TheVariants.{Memory};
ghost use Rattle.as2_names.specs.Heads.{IsKept, field_of, is_name_byte, is_name, is_value_byte, is_field, values, IsOnceOf, IsTrimmed, FailsBy, append_fault};

use crate::blanks::without_blanks;
use crate::options::lists;
use std::alloc::{AllocError, AllocFailed, Global};
use std::marker::Model;

/// Why a field can't be added: the first fault in this order.
#[derive(Clone, Copy, Debug, PartialEq, Eq)]
pub enum HeadFault {
    /// The name isn't 1 to 16,384 bytes of a token, or the value holds a control byte other than the tab.
    BadField,
    /// The head has 64 fields.
    TooMany,
    /// There was no memory to keep the field.
    Memory,
}

impl From<AllocError> for HeadFault {
    ghost from_gives = { λ _ e. e ≡ Memory };

    fn from(_error: AllocError) -> HeadFault {
        HeadFault::Memory
    }
}

impl<T: Drop> From<AllocFailed<T>> for HeadFault {
    ghost from_gives = { λ _ e. e ≡ Memory };

    fn from(_error: AllocFailed<T>) -> HeadFault {
        HeadFault::Memory
    }
}

/// What a head says of a name.
#[derive(Clone, Copy, Debug, PartialEq, Eq)]
pub enum Once<'a> {
    /// No field has the name.
    Absent,
    /// One field has the name, with this value.
    One(&'a [u8]),
    /// Two or more fields have the name.
    Twice,
}

/// A field as it is kept: its name in lower case, its value without blanks at its ends.
#[derive(Drop)]
struct Field {
    name: Vec<u8>,
    value: Vec<u8>,
}

impl Model for Field {
    ghost Value = { List ℕ × List ℕ };

    ghost view = { λ f. (f.name.items, f.value.items) };

    ghost invariant = { λ f. IsKept (f.name.items, f.value.items) };
}

impl Field {
    fn new(alloc: Global, name: &[u8], value: &[u8]) -> Result<Field, AllocError>
        ensures { IfOk result (λ field. field ≡ field_of name.now value.now) }
    {
        Ok(Field {
            name: name.to_ascii_lowercase(alloc)?,
            value: Vec::from_slice(alloc, without_blanks(value))?,
        })
    }

    fn is_named(&self, name: &[u8]) -> bool
        ensures { result ≡ bytes_eq self.now.0 (str_to_ascii_lowercase name.now) }
    {
        self.name.eq_ignore_ascii_case(name)
    }

    fn value(&self) -> &[u8]
        ensures value { result.now ≡ self.now.1 }
        ensures bare { without_blanks result.now ≡ result.now }
    {
        self.value.as_slice()
    }
}

fn is_name_byte(b: u8) -> bool
    ensures { result ≡ is_name_byte b }
{
    b.is_ascii_alphanumeric() || b"!#$%&'*+-.^_`|~".contains(&b)
}

fn all_name_bytes(name: &[u8]) -> bool
    ensures { result ≡ list_all is_name_byte name.now }
{
    name.iter().all(|b| is_name_byte(*b))
}

fn is_name(name: &[u8]) -> bool
    ensures { result ≡ is_name name.now }
{
    !name.is_empty() && name.len() <= 16_384 && all_name_bytes(name)
}

fn is_value_byte(b: u8) -> bool
    ensures { result ≡ is_value_byte b }
{
    b == b'\t' || (b >= b' ' && b != 0x7f)
}

fn all_value_bytes(value: &[u8]) -> bool
    ensures { result ≡ list_all is_value_byte value.now }
{
    value.iter().all(|b| is_value_byte(*b))
}

fn is_field(name: &[u8], value: &[u8]) -> bool
    ensures { result ≡ is_field name.now value.now }
{
    is_name(name) && all_value_bytes(value)
}

/// A head: at most 64 fields in order (RFC 9110, section 5).
#[derive(Drop)]
pub struct Head {
    fields: Vec<Field>,
}

impl Model for Head {
    ghost Value = { List (List ℕ × List ℕ) };

    ghost view = { λ h. h.fields.items };

    ghost invariant = { λ h. length h.fields.items ≤ 64 };
}

/// What the fields say of a name.
fn told<'a>(fields: &'a [Field], name: &[u8]) -> Once<'a>
    ensures tells { IsOnceOf result (values (str_to_ascii_lowercase name.now) fields.now) }
    ensures bare { IsTrimmed result }
{
    let mut found = None;
    for field in fields {
        if field.is_named(name) {
            if found.is_some() {
                return Once::Twice;
            }
            found = Some(field.value());
        }
    }
    match found {
        None => Once::Absent,
        Some(value) => Once::One(value),
    }
}

/// Some field of that name lists the option.
fn any_lists(fields: &[Field], name: &[u8], option: &[u8]) -> bool
    ensures { result ≡ list_any (lists option.now) (values (str_to_ascii_lowercase name.now) fields.now) }
{
    for field in fields {
        if field.is_named(name) && lists(field.value(), option) {
            return true;
        }
    }
    false
}

impl Head {
    /// A head without fields. It takes no memory, and keeps the allocator for its fields.
    pub fn new(alloc: Global) -> Head
        ensures { result ≡ [] }
    {
        Head {
            fields: Vec::new(alloc),
        }
    }

    /// How many fields the head has.
    pub fn len(&self) -> usize
        ensures len { result ≡ length self.now }
        ensures limit { result ≤ 64 }
    {
        self.fields.len()
    }

    /// Adds a field behind the others, its value without the blanks at its ends.
    pub fn append(&mut self, name: &[u8], value: &[u8]) -> Result<(), HeadFault>
        // The field stands last.
        ensures added { OnOk result (self.new ≡ self.old ++ field_of name.now value.now ∷ []) }
        // A refusal leaves the head as it was.
        ensures unchanged { OnErr result (self.new ≡ self.old) }
        // Which fault it is; memory is wanting only where there is no other.
        ensures exact { FailsBy result (append_fault name.now value.now self.old) }
    {
        if !is_field(name, value) {
            return Err(HeadFault::BadField);
        }
        if self.len() >= 64 {
            return Err(HeadFault::TooMany);
        }
        let field = Field::new(*self.fields.allocator(), name, value)?;
        self.fields.push(field)?;
        Ok(())
    }

    /// What the head says of a name, in whichever case it is written.
    pub fn value(&self, name: &[u8]) -> Once<'_>
        ensures tells { IsOnceOf result (values (str_to_ascii_lowercase name.now) self.now) }
        // A value has no blanks at its ends.
        ensures bare { IsTrimmed result }
    {
        told(&self.fields, name)
    }

    /// Whether a field of that name, in whichever case it is written, lists the option (RFC 9110, section 5.6.1).
    pub fn lists(&self, name: &[u8], option: &[u8]) -> bool
        ensures { result ≡ list_any (lists option.now) (values (str_to_ascii_lowercase name.now) self.now) }
    {
        any_lists(&self.fields, name, option)
    }
}
