//! Where the agreements have their fault, and which key of theirs isn't known, in one line for whoever mends it.
ghost use Rattle.std.specs.Prelude.{◌≡◌, OnOk, option_map, string_bytes, true};
ghost use Rattle.std.specs.Io.KnownBytes.{Appends};
ghost use Rattle.as2_desk.specs.Places.{entry_hint, holder_end, name_end, noticed_line, place_hint, unknown_line};

use crate::agreed::Noticed;
use crate::escaping::write_escaped;
use as2_agreement::{Entry, Holder, Place, Unknown};
use std::io;
use std::io::Write;

/// Writes the name behind the number of an entry, where it has one, and LF.
fn write_name<H: Write>(name: &Option<String>, hints: &mut H) -> io::Result<()>
    ensures { OnOk result
        (Appends (H.contents hints.old) (H.contents hints.new) (name_end (option_map string_bytes name.now))) }
{
    let Some(name) = name else {
        return hints.write_all(b"\n");
    };
    hints.write_all(b", \"")?;
    write_escaped(name.as_str(), hints)?;
    hints.write_all(b"\"\n")
}

/// Writes which entry it is.
fn write_entry<H: Write>(kind: &str, entry: &Entry, hints: &mut H) -> io::Result<()>
    ensures { OnOk result (Appends (H.contents hints.old) (H.contents hints.new) (entry_hint kind.now entry.now)) }
{
    let number = entry.number;
    write!(hints, "hint: {kind} {number}")?;
    write_name(&entry.name, hints)
}

/// Writes where the fault stands.
fn write_place<H: Write>(place: &Place, hints: &mut H) -> io::Result<()>
    ensures { OnOk result (Appends (H.contents hints.old) (H.contents hints.new) (place_hint place.now)) }
{
    match place {
        Place::Line(line) => write!(hints, "hint: line {line}\n"),
        Place::Organization(entry) => write_entry("organization", entry, hints),
        Place::Partner(entry) => write_entry("partner", entry, hints),
    }
}

/// Writes what a key stands in, and that it isn't known.
fn write_holder<H: Write>(holder: Holder, hints: &mut H) -> io::Result<()>
    ensures { OnOk result (Appends (H.contents hints.old) (H.contents hints.new) (holder_end holder)) }
{
    match holder {
        Holder::Document => hints.write_all(b"\" isn't known\n"),
        Holder::Organization(number) => {
            write!(hints, "\" of organization {number} isn't known\n")
        }
        Holder::Partner(number) => write!(hints, "\" of partner {number} isn't known\n"),
    }
}

/// Writes which key isn't known.
fn write_unknown<H: Write>(unknown: &Unknown, hints: &mut H) -> io::Result<()>
    ensures { OnOk result (Appends (H.contents hints.old) (H.contents hints.new) (unknown_line unknown.now)) }
{
    hints.write_all(b"warning: key \"")?;
    write_escaped(unknown.key.as_str(), hints)?;
    write_holder(unknown.holder, hints)
}

/// Says what was noticed in agreements, and whether it could be said.
pub(crate) fn is_told<H: Write>(noticed: &Noticed, hints: &mut H) -> bool
    ensures { result ≡ true → Appends (H.contents hints.old) (H.contents hints.new) (noticed_line noticed.now) }
{
    match noticed {
        Noticed::Nothing => true,
        Noticed::Fault(place) => write_place(place, hints).is_ok(),
        Noticed::Unknown(unknown) => write_unknown(unknown, hints).is_ok(),
    }
}
