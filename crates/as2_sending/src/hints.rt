//! Why a try failed, in one line for whoever looks on.
ghost use Rattle.std.specs.Prelude.{◌≡◌, codes, OnOk, true};
ghost use Rattle.std.specs.Io.KnownBytes.{Appends};
ghost use Rattle.as2_names.specs.Heads.{values};
ghost use Rattle.as2_exchange.specs.Receipts.{is_success};
ghost use Rattle.as2_sending.specs.Hints.{hint, hint_if, kind_among, kind_read, kind_words, link_hint, link_words, why_of};
ghost use Rattle.as2_sending.specs.Lines.{subject};

use crate::links::LinkFault;
use crate::telling::subject;
use as2_exchange::{Next, TryAnswer};
use as2_station::Became;
use as2_text::{Head, Kind, MediaType, Once};
use std::io;
use std::io::Write;

/// Why a try failed.
#[derive(Clone, Copy, Debug, PartialEq, Eq)]
pub enum Why {
    /// There was no answer.
    NoAnswer(LinkFault),
    /// The answer has this status, which is none of success.
    Status(u16),
    /// The answer brought no receipt for it; of which kind it is, where its head tells one.
    NoReceipt(Option<Kind>),
}

/// The kind of body that a media type tells, where the text is one.
fn kind_read(text: &[u8]) -> Option<Kind>
    ensures { result ≡ kind_read text.now }
{
    match MediaType::parse(text) {
        Ok(media) => Some(media.kind()),
        Err(_) => None,
    }
}

/// The kind of body that a head tells (RFC 2046, section 4.5.1, where it has no type).
fn kind_in(head: &Head) -> Option<Kind>
    ensures { result ≡ kind_among (values (codes "content-type") head.now) }
{
    match head.value(b"content-type") {
        Once::Absent => Some(Kind::Document),
        Once::One(text) => kind_read(text),
        Once::Twice => None,
    }
}

/// A status of success (RFC 9110, section 15.3).
fn is_success(status: u16) -> bool
    ensures { result ≡ is_success status }
{
    200 <= status && status < 300
}

/// Why a try failed that got this.
pub fn why_of(got: &TryAnswer, fault: LinkFault) -> Why
    ensures { result ≡ why_of got.now fault }
{
    match got {
        TryAnswer::NoAnswer => Why::NoAnswer(fault),
        TryAnswer::Reply { status, head, .. } => {
            if is_success(*status) {
                Why::NoReceipt(kind_in(head))
            } else {
                Why::Status(*status)
            }
        }
    }
}

/// What a link's fault is called.
fn link_words(fault: LinkFault) -> &'static str
    ensures { result.now ≡ link_words fault }
{
    match fault {
        LinkFault::UnknownHost => "the host isn't known",
        LinkFault::ConnectionRefused => "connection refused",
        LinkFault::NoConnection => "no connection",
        LinkFault::Silent(_) => "no byte in time",
        LinkFault::Slow(_) => "no whole answer in time",
        LinkFault::Broken => "the connection broke",
        LinkFault::NoAnswer => "no whole answer of HTTP",
    }
}

/// What the body of an answer is called that is no receipt.
fn kind_words(kind: Option<Kind>) -> &'static str
    ensures { result.now ≡ kind_words kind }
{
    match kind {
        None => "no media type",
        Some(Kind::Document) => "no report",
        Some(Kind::Enveloped | Kind::Compressed) => "application/pkcs7-mime",
        Some(Kind::Signed) => "multipart/signed",
        Some(Kind::Report) => "a report for something else",
    }
}

/// Writes the line that says what was wrong with the link.
fn write_link_hint<E: Write>(subject: &str, fault: LinkFault, hints: &mut E) -> io::Result<()>
    ensures { OnOk result (Appends (E.contents hints.old) (E.contents hints.new) (link_hint subject.now fault)) }
{
    match fault {
        LinkFault::Silent(seconds) => {
            write!(hints, "hint: {subject}: no byte for {seconds} s\n")
        }
        LinkFault::Slow(seconds) => {
            write!(hints, "hint: {subject}: no whole answer in {seconds} s\n")
        }
        _ => {
            let words = link_words(fault);
            write!(hints, "hint: {subject}: {words}\n")
        }
    }
}

/// Writes the line that says why a try failed.
fn write_hint<E: Write>(what: Next, why: Why, hints: &mut E) -> io::Result<()>
    ensures { OnOk result (Appends (E.contents hints.old) (E.contents hints.new) (hint (subject what) why)) }
{
    let line = subject(what);
    let subject = line.as_str();
    match why {
        Why::NoAnswer(fault) => write_link_hint(subject, fault, hints),
        Why::Status(status) => write!(hints, "hint: {subject}: status {status}\n"),
        Why::NoReceipt(kind) => {
            let words = kind_words(kind);
            write!(
                hints,
                "hint: {subject}: the answer is no receipt: {words}\n"
            )
        }
    }
}

/// Says why a try failed, where it did, and whether that could be said.
pub fn is_hinted<E: Write>(what: Next, became: Became, why: Why, hints: &mut E) -> bool
    ensures { result ≡ true → Appends (E.contents hints.old) (E.contents hints.new) (hint_if what became why) }
{
    match became {
        Became::TryFailed => write_hint(what, why, hints).is_ok(),
        _ => true,
    }
}
