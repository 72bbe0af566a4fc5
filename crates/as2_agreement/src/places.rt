//! Where a fault of the agreements stands, so that an operator finds it.

// Where the first fault of a text stands.
ghost use Rattle.std.specs.Prelude.{◌≡◌, ◌≤◌, [], length, IfSome, Some, string_bytes};
ghost use Rattle.toml.specs.View.{view, items_view, table_view};
ghost use Rattle.as2_agreement.specs.Places.{IsNamedEntry, IsPlace, IsPlaceIn, first_faulty, line_at, name_of_entry};
ghost use Rattle.as2_agreement.specs.Reading.{organization, partner};

use crate::agreements::Agreements;
use crate::document::{domain, return_url};
use crate::entries::{
    ORGANIZATIONS_LIMIT, PARTNERS_LIMIT, each_organization, organization, partner,
};
use crate::fault::AgreementFault;
use crate::key::Key;
use crate::partner::Organization;
use crate::values::{entries_at, value_at};
use std::alloc::Global;
use toml::{Table, Value};

/// An entry of an array.
#[derive(Drop)]
pub struct Entry {
    /// Its number in the array, from 1.
    pub number: usize,
    /// The text of its name, where it has one, be it a name or not.
    pub name: Option<String>,
}

/// Where the first fault of a text stands.
#[derive(Drop)]
pub enum Place {
    /// In this line, from 1, or where something before it isn't ended: the text is no TOML document.
    Line(usize),
    /// In this organization.
    Organization(Entry),
    /// In this partner.
    Partner(Entry),
}

/// The line that this byte stands in, from 1.
fn line_at(text: &[u8], at: usize) -> usize
    requires { at ≤ length text.now }
    ensures { result ≡ line_at text.now at }
{
    let mut line = 1;
    for byte in &text[..at] {
        if *byte == b'\n' {
            line += 1;
        }
    }
    line
}

/// The text of an entry's name, where it has one.
fn name_in(alloc: Global, entry: &Value) -> Option<String>
    ensures { IfSome result (λ name. name_of_entry (view entry.now) ≡ Some (string_bytes name)) }
{
    let table = entry.as_table()?;
    let text = value_at(table, Key::Name)?.as_str()?;
    String::from_str(alloc, text).ok()
}

/// An entry, with its name.
fn entry_of(alloc: Global, number: usize, entry: &Value) -> Entry
    ensures { IsNamedEntry (Some (number, view entry.now)) result }
{
    Entry {
        number,
        name: name_in(alloc, entry),
    }
}

/// The first organization that has a fault; None where none has, or memory was wanting.
fn faulty_organization(alloc: Global, entries: &[Value]) -> Option<Entry>
    ensures { IfSome result (IsNamedEntry (first_faulty organization 1 [] (items_view entries.now))) }
{
    let mut kept = Vec::new(alloc);
    for entry in entries {
        match organization(&kept, entry) {
            Ok(next) => kept.push(next).ok()?,
            Err(_) => return Some(entry_of(alloc, kept.len() + 1, entry)),
        }
    }
    None
}

/// The first partner that has a fault; None where none has, or memory was wanting.
fn faulty_partner(alloc: Global, organizations: &[Organization], entries: &[Value]) -> Option<Entry>
    ensures { IfSome result (IsNamedEntry (first_faulty (partner organizations.now) 1 [] (items_view entries.now))) }
{
    let mut kept = Vec::new(alloc);
    for entry in entries {
        match partner(alloc, organizations, &kept, entry) {
            Ok(next) => kept.push(next).ok()?,
            Err(AgreementFault::Memory) => return None,
            Err(_) => return Some(entry_of(alloc, kept.len() + 1, entry)),
        }
    }
    None
}

/// The entry of a document that has its first fault.
fn place_in(alloc: Global, document: &Table) -> Option<Place>
    ensures { IfSome result (IsPlaceIn (table_view document.now)) }
{
    domain(document).ok()?;
    return_url(alloc, document).ok()?;
    let entries = entries_at(document, Key::Organization, ORGANIZATIONS_LIMIT).ok()?;
    if let Some(entry) = faulty_organization(alloc, entries) {
        return Some(Place::Organization(entry));
    }
    let organizations = each_organization(alloc, entries).ok()?;
    let entries = entries_at(document, Key::Partner, PARTNERS_LIMIT).ok()?;
    let entry = faulty_partner(alloc, &organizations, entries)?;
    Some(Place::Partner(entry))
}

impl Agreements {
    /// Where the first fault of a text stands, as far as it is in one line or one entry; None also where memory was wanting.
    pub fn place(alloc: Global, text: &str) -> Option<Place>
        ensures { IfSome result (IsPlace text.now) }
    {
        match toml::table_from_str(alloc, text) {
            Ok(document) => place_in(alloc, &document),
            Err(error) => {
                let span = error.span()?;
                Some(Place::Line(line_at(text.as_bytes(), span.start)))
            }
        }
    }
}
