//! A part's fields (RFC 2045, RFC 5322).

ghost use Rattle.std.specs.Prelude.{◌≡◌, ◌<◌, ◌∷◌, length, IfSome, option_map, position, List};
ghost use Rattle.std.specs.List.{list_all};
ghost use Rattle.as2_parts.specs.Fields.{HasFields, FieldText, is_field_name_byte, is_field_name, is_colon, begins_with_blank, folded_lines, folded_field, fields, fields_named, field_text, TellsField};

use as2_names::{is_blank, without_blanks_and_line_ends};
use std::marker::Model;

/// A field (RFC 5322, section 2.2): slices of the text that has it.
#[derive(Clone, Copy, Debug, PartialEq, Eq)]
pub struct Field<'a> {
    /// The bytes before the colon.
    pub name: &'a [u8],
    /// The bytes behind the colon, on the lines that go on with the field too, without the blanks and line ends at
    /// their ends.
    pub value: &'a [u8],
}

/// Two or more fields have the name.
#[derive(Clone, Copy, Debug, PartialEq, Eq)]
pub struct Twice;

/// The fields of a text, in order. [`Fields::of`] says what they are.
#[derive(Debug, Drop)]
pub struct Fields<'a> {
    rest: &'a [u8],
}

impl<'a> Model for Fields<'a> {
    ghost use Rattle.std.specs.Prelude.{List};
    ghost use Rattle.as2_parts.specs.Fields.{FieldText, fields};

    ghost Value = { List FieldText };

    ghost view = { λ f. fields f.rest.now };
}

fn is_name_byte(b: u8) -> bool
    ensures { result ≡ is_field_name_byte b }
{
    matches!(b, b'!'..=b'~') && b != b':'
}

fn all_name_bytes(bytes: &[u8]) -> bool
    ensures { result ≡ list_all is_field_name_byte bytes.now }
{
    bytes.iter().all(|b| is_name_byte(*b))
}

fn is_name(name: &[u8]) -> bool
    ensures { result ≡ is_field_name name.now }
{
    !name.is_empty() && all_name_bytes(name)
}

/// Whether the text begins with a blank.
fn begins_with_blank(text: &[u8]) -> bool
    ensures { result ≡ begins_with_blank text.now }
{
    match text {
        [b, ..] => is_blank(*b),
        [] => false,
    }
}

/// The first line of a text with the lines that go on with it, and what stands behind them.
fn first_folded_line(text: &[u8]) -> (&[u8], &[u8])
    requires { 0 < length text.now }
    ensures first { folded_lines text.now ≡ result.0.now ∷ folded_lines result.1.now }
    ensures less { length result.1.now < length text.now }
{
    for (i, b) in text.iter().enumerate() {
        if *b == b'\n' && !begins_with_blank(&text[i + 1..]) {
            return text.split_at(i + 1);
        }
    }
    text.split_at(text.len())
}

/// Where the first colon of a line stands.
fn colon_place(line: &[u8]) -> Option<usize>
    ensures place { result ≡ position is_colon line.now }
    ensures within { IfSome result (λ n. n < length line.now) }
{
    line.iter().position(|b| *b == b':')
}

/// The field that a line is, with the lines that go on with it.
fn field_of(line: &[u8]) -> Option<Field<'_>>
    ensures { option_map field_text result ≡ folded_field line.now }
{
    let Some(colon) = colon_place(line) else {
        return None;
    };
    let (name, behind) = line.split_at(colon);
    if !is_name(name) {
        return None;
    }
    Some(Field {
        name,
        value: without_blanks_and_line_ends(&behind[1..]),
    })
}

impl<'a> Fields<'a> {
    /// The fields of a text (RFC 5322, section 2.2). A field is a line `name:value`, its name one or more printable
    /// bytes without blanks and `:`. Lines that begin with a blank go on with the line before; other lines are skipped
    /// with those that go on with them.
    pub fn of(text: &'a [u8]) -> Fields<'a>
        // These are fields of the text, and all of them.
        ensures found { HasFields text.now result }
        // The text has no other fields.
        ensures only { (others : List FieldText) → HasFields text.now others → result ≡ others }
        // They are those that the function gives.
        ensures exact { result ≡ fields text.now }
    {
        Fields { rest: text }
    }
}

impl<'a> Iterator for Fields<'a> {
    ghost use Rattle.std.specs.Iterator.{YieldsFirstBy, item_count};
    ghost use Rattle.as2_parts.specs.Fields.{field_text};

    type Item = Field<'a>;

    ghost next_gives = { YieldsFirstBy field_text (λ rest. rest) };

    ghost remaining = { item_count (λ rest. rest) };

    fn next(&mut self) -> Option<Field<'a>> {
        while !self.rest.is_empty() {
            let (line, rest) = first_folded_line(self.rest);
            self.rest = rest;
            if let Some(field) = field_of(line) {
                return Some(field);
            }
        }
        None
    }
}

/// The only field of that name, in whichever case it is written: nothing where no field has it.
pub fn find_once<'a>(text: &'a [u8], name: &[u8]) -> Result<Option<Field<'a>>, Twice>
    ensures tells { TellsField result (fields_named name.now (fields text.now)) }
{
    let mut found = None;
    for field in Fields::of(text) {
        if field.name.eq_ignore_ascii_case(name) {
            if found.is_some() {
                return Err(Twice);
            }
            found = Some(field);
        }
    }
    Ok(found)
}
