//! What stands in a member for a value of the records.
ghost use Rattle.std.specs.Prelude.{◌≡◌};
ghost use Rattle.as2_exchange.specs.Readings.{is_processed};
ghost use Rattle.as2_views.specs.Layout.{state_text};
ghost use Rattle.as2_json.specs.Words.{box_word, receipt_word};

use as2_audit::Mailbox;
use as2_exchange::ReceiptStage;
use as2_mdn::{DetailClass, Outcome};
use as2_text::AsName;

/// A name as a text: its bytes are printable ASCII.
pub fn name_text(name: &AsName) -> &str
    ensures { result.now ≡ name.now }
{
    str::from_utf8(name.bytes()).unwrap()
}

/// The letter of a state.
pub fn class_letter(state: DetailClass) -> &'static str
    ensures { result.now ≡ state_text state }
{
    match state {
        DetailClass::P => "P",
        DetailClass::R => "R",
        DetailClass::S => "S",
        DetailClass::W => "W",
        DetailClass::E => "E",
    }
}

/// Whether a received document was processed.
pub fn is_processed(outcome: Outcome) -> bool
    ensures { result ≡ is_processed outcome }
{
    matches!(outcome, Outcome::Processed)
}

/// How the receipt of a received document stands.
pub fn receipt_word(receipt_stage: ReceiptStage) -> &'static str
    ensures { result.now ≡ receipt_word receipt_stage }
{
    match receipt_stage {
        ReceiptStage::Unasked => "none",
        ReceiptStage::Pending => "pending",
        ReceiptStage::Sent => "sent",
    }
}

/// Which box an entry stands in.
pub fn box_word(mailbox: Mailbox) -> &'static str
    ensures { result.now ≡ box_word mailbox }
{
    match mailbox {
        Mailbox::Inbox => "in",
        Mailbox::Outbox => "out",
    }
}
