//! What is told of the records in a format: lines for people, or objects for programs.
ghost use Rattle.std.specs.Prelude.{◌≡◌, IfErr, option_map, string_bytes, true};
ghost use Rattle.as2_records.specs.Calls.{Reads};
ghost use Rattle.as2_records.specs.Standing.{may_come};
ghost use Rattle.as2_desk.specs.Formats.{listing_in, outstanding_in, show_in};
ghost use Rattle.as2_desk.specs.Questions.{printed_text};

use crate::asking::Printed;
use as2_commands::{Filter, Format};
use as2_exchange::StoreFault;
use as2_records::Records;
use as2_station::Station;
use as2_text::Moment;
use std::alloc::Global;

/// The listing in that format.
pub(crate) fn listing_in<K: Records>(
    alloc: Global,
    format: Format,
    station: &mut Station<K>,
    filter: Filter,
) -> Result<Printed, StoreFault>
    ensures listing { Reads (λ s printed. printed_text printed
        ≡ listing_in format filter s) (K.shows station.old) (K.shows station.new) result }
    ensures fault { IfErr result (λ f. may_come f ≡ true) }
{
    match format {
        Format::Text => Ok(Printed::Words(station.listing(alloc, filter)?)),
        Format::Json => Ok(Printed::Bytes(station.listing_in_objects(alloc, filter)?)),
    }
}

/// What is outstanding at this moment, in that format.
pub(crate) fn outstanding_in<K: Records>(
    alloc: Global,
    format: Format,
    station: &mut Station<K>,
    moment: Moment,
) -> Result<Printed, StoreFault>
    ensures outstanding { Reads (λ s printed. printed_text printed
        ≡ outstanding_in format s moment) (K.shows station.old) (K.shows station.new) result }
    ensures fault { IfErr result (λ f. may_come f ≡ true) }
{
    match format {
        Format::Text => Ok(Printed::Words(station.outstanding(alloc, moment)?)),
        Format::Json => Ok(Printed::Bytes(station.outstanding_in_objects(alloc, moment)?)),
    }
}

/// A text for people, if there is one.
fn words(text: Option<String>) -> Option<Printed>
    ensures { option_map printed_text result ≡ option_map string_bytes text }
{
    Some(Printed::Words(text?))
}

/// Objects for programs, if there are some.
fn bytes(text: Option<Vec<u8>>) -> Option<Printed>
    ensures { option_map printed_text result ≡ option_map (λ v. v.items) text }
{
    Some(Printed::Bytes(text?))
}

/// The document of this number in full, in that format, if there is one.
pub(crate) fn show_in<K: Records>(
    alloc: Global,
    format: Format,
    station: &mut Station<K>,
    number: u64,
) -> Result<Option<Printed>, StoreFault>
    ensures shown { Reads (λ s printed. option_map printed_text printed
        ≡ show_in format s number) (K.shows station.old) (K.shows station.new) result }
    ensures fault { IfErr result (λ f. may_come f ≡ true) }
{
    match format {
        Format::Text => Ok(words(station.show(alloc, number)?)),
        Format::Json => Ok(bytes(station.show_in_objects(alloc, number)?)),
    }
}
