//! The texts that events and answers name, as in scripts.
// Expected values are the worked ones of the project's profile, and follow from its formats.
use crate::agreements::AGREEMENTS;
use as2_exchange::{Answer as Said, Event, StoreFault};
use script_lines::{Answer, Settings, Trouble};
use script_station::{Stage, event, say};
use std::alloc::Global;
use std::test::Fail;

/// The plain post.
pub const PLAIN: &str = "1000 post | abc";

/// What is answered to it.
pub const RECEIVED: &str =
    "200 report <mdn-1@station.example> from Supplier to Buyer on <m1@x>: processed; qZk+NkcGgWq6PiVxeFDCbJzQ2J0=, sha1";

/// Buyer's receipt for the first document, with the MD5 MIC of `abc`.
pub const RECEIPT: &str = "--as2-mdn-7\r\n\
Content-Type: text/plain\r\n\
\r\n\
Receipt 7 for the message named below.\r\n\
Outcome: processed\r\n\
\r\n\
--as2-mdn-7\r\n\
Content-Type: message/disposition-notification\r\n\
\r\n\
Reporting-UA: as2-station\r\n\
Final-Recipient: rfc822; Buyer\r\n\
Original-Message-ID: <out-1@station.example>\r\n\
Disposition: automatic-action/MDN-sent-automatically; processed\r\n\
Received-content-MIC: kAFQmDzST7DWlj99KOF/cg==, md5\r\n\
\r\n\
--as2-mdn-7--\r\n";

/// The type of a receipt's body.
pub const RECEIPT_TYPE: &str =
    "multipart/report; report-type=disposition-notification; boundary=\"as2-mdn-7\"";

/// Every report; what it says of its document stands in place of the words with an @.
const REPORT: &str = "--as2-mdn-@number\r\n\
Content-Type: text/plain\r\n\
\r\n\
Receipt @number for the message named below.\r\n\
Outcome: @outcome\r\n\
\r\n\
--as2-mdn-@number\r\n\
Content-Type: message/disposition-notification\r\n\
\r\n\
Reporting-UA: as2-station\r\n\
Final-Recipient: rfc822; @organization\r\n\
Original-Message-ID: @id\r\n\
Disposition: automatic-action/MDN-sent-automatically; @outcome\r\n\
Received-content-MIC: @mic\r\n\
\r\n\
--as2-mdn-@number--\r\n";

/// The fields of the plain post.
const POST_FIELDS: &str =
    "AS2-Version: 1.0 | AS2-From: Buyer | AS2-To: Supplier | Message-ID: <m1@x> | Content-Type: application/edi-x12 | \
Disposition-Notification-To: a@x | Disposition-Notification-Options: signed-receipt-micalg=optional, sha1";

/// The fields of Buyer's receipt, and of an answer without a body.
const RECEIPT_FIELDS: &str = "AS2-From: Buyer | AS2-To: Supplier | \
Content-Type: multipart/report; report-type=disposition-notification; boundary=\"as2-mdn-7\"";

/// Each text, and its name.
static TEXTS: [(&str, &str); 9] = [
    ("agreements", AGREEMENTS),
    ("post-fields", POST_FIELDS),
    ("receipt", RECEIPT),
    ("receipt-fields", RECEIPT_FIELDS),
    ("empty", ""),
    ("empty-fields", RECEIPT_FIELDS),
    ("bare", ""),
    ("bare-fields", ""),
    ("report-text", REPORT),
];

/// All of them.
pub fn texts(alloc: Global) -> Result<Settings, Trouble> {
    let mut settings = Settings::new(alloc);
    for (name, text) in &TEXTS {
        settings.set(alloc, name, text)?;
    }
    Ok(settings)
}

/// A station in memory that knows them.
pub fn stage(alloc: Global) -> Result<Stage, Trouble> {
    let mut stage = Stage::new(alloc);
    stage.settings = texts(alloc)?;
    Ok(stage)
}

/// The event that a line spells.
pub fn event_of(alloc: Global, settings: &Settings, line: &str) -> Result<Event, Fail> {
    let mut answer = Answer::new(alloc);
    match event(settings, line, &mut answer) {
        Some(event) if answer.whole().is_ok() => Ok(event),
        _ => Err(Fail::new("no event")),
    }
}

/// Whether that is what is said.
pub fn is_said(
    alloc: Global,
    settings: &Settings,
    said: &Result<Said, StoreFault>,
    wanted: &str,
) -> Result<bool, Trouble> {
    let mut answer = Answer::new(alloc);
    say(settings, &mut answer, said);
    Ok(answer.whole()? == wanted.as_bytes())
}
