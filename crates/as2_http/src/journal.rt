//! A journal: a line for each reply.
ghost use Rattle.std.specs.Prelude.{◌≡◌, ◌++◌, List, ℕ, Option, None, codes};
ghost use Rattle.std.specs.Io.KnownBytes.{Appends};
ghost use Rattle.as2_names.specs.Heads.{IsOnceOf};
ghost use Rattle.as2_http.specs.Notes.{note_closing, head_told, identifier_told, name_told, note_opening, refusal_note};

use arrayvec::ArrayString;
use as2_messages::{RequestFault, refusal};
use as2_text::{AsName, Head, Moment, Once, is_identifier, without_blanks};
use itoa::Buffer;

/// What replies are noted in. A journal that can't be written stops nothing, and tells no text.
pub trait Journal {
    // the text that it holds, where the journal tells it
    ghost noted: { Self → Option (List ℕ) };

    /// Notes the text behind what it holds.
    fn note(&mut self, text: &[u8])
        ensures { Appends (noted self.old) (noted self.new) text.now };
}

/// No journal: what is noted is kept nowhere.
#[derive(Clone, Copy, Debug)]
pub struct Unnoted;

impl Journal for Unnoted {
    ghost noted = { λ _. None };

    fn note(&mut self, _text: &[u8]) {}
}

/// What stands where a head doesn't tell a name.
fn dash() -> ArrayString<258>
    ensures { result.bytes ≡ codes "-" }
{
    let mut text = ArrayString::new();
    text.push('-');
    text
}

/// The one name that a field tells, as AS2 spells it (RFC 4130, section 6.2), or a dash.
pub fn name_told(field: Once<'_>) -> ArrayString<258>
    ensures { (texts : List (List ℕ)) → IsOnceOf field.entry texts → result.bytes ≡ name_told texts }
{
    if let Once::One(text) = field {
        if let Ok(name) = AsName::parse(text) {
            return name.spelling();
        }
    }
    dash()
}

/// The one message identifier that a field tells (RFC 4130, section 5.3.3), or a dash.
pub fn identifier_told(field: Once<'_>) -> &[u8]
    ensures { (texts : List (List ℕ)) → IsOnceOf field.entry texts → result.now ≡ identifier_told texts }
{
    match field {
        Once::One(text) if is_identifier(without_blanks(text)) => without_blanks(text),
        _ => b"-",
    }
}

/// Notes how a line begins.
fn note_opening<J: Journal>(moment: Moment, journal: &mut J)
    ensures { Appends (J.noted journal.old) (J.noted journal.new) (note_opening moment) }
{
    journal.note(b"reply: ");
    journal.note(Buffer::new().format(moment.seconds()).as_bytes());
    journal.note(b" ");
}

/// Notes what a head tells.
fn note_head<J: Journal>(fields: &Head, journal: &mut J)
    ensures { Appends (J.noted journal.old) (J.noted journal.new) (head_told fields.now) }
{
    journal.note(name_told(fields.value(b"as2-from")).as_bytes());
    journal.note(b" ");
    journal.note(name_told(fields.value(b"as2-to")).as_bytes());
    journal.note(b" ");
    journal.note(identifier_told(fields.value(b"message-id")));
}

/// Notes how a line ends.
pub(crate) fn note_status<J: Journal>(status: u16, journal: &mut J)
    ensures { Appends (J.noted journal.old) (J.noted journal.new) (note_closing status) }
{
    journal.note(b" ");
    journal.note(Buffer::new().format(status).as_bytes());
    journal.note(b"\n");
}

/// Notes the line of a request up to its status: it is taken next.
pub(crate) fn note_request<J: Journal>(moment: Moment, fields: &Head, journal: &mut J)
    ensures { Appends (J.noted journal.old) (J.noted journal.new) (note_opening moment ++ head_told fields.now) }
{
    note_opening(moment, journal);
    note_head(fields, journal);
}

/// Notes the line of bytes that no request begins with.
pub(crate) fn note_refusal<J: Journal>(moment: Moment, reason: RequestFault, journal: &mut J)
    ensures { Appends (J.noted journal.old) (J.noted journal.new) (refusal_note moment reason) }
{
    note_opening(moment, journal);
    journal.note(b"- - -");
    note_status(refusal(reason).status, journal);
}
