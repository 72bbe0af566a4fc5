//! Lines of rows.
ghost use Rattle.std.specs.Prelude.{◌≡◌, ◌++◌, OnOk};
ghost use Rattle.as2_exchange.specs.Readings.{is_processed};
ghost use Rattle.as2_views.specs.Layout.{kept_mark, receipt_stage_mark, processed_mark, state_text};
ghost use Rattle.as2_views.specs.RowLines.{in_row_line, out_row_line};

use crate::pieces::{add_from_to, add_left, add_right, add_text, add_word};
use as2_exchange::ReceiptStage;
use as2_mdn::{DetailClass, Outcome};
use as2_records::{InRow, OutRow};
use as2_text::Memory;

/// The places of a number, of a count of tries, and of a detail.
const NUMBER_PLACES: usize = 12;

const TRIES_PLACES: usize = 2;

const DETAIL_PLACES: usize = 16;

/// The letter of a state.
pub fn class_letter(state: DetailClass) -> &'static [u8]
    ensures { result.now ≡ state_text state }
{
    match state {
        DetailClass::P => b"P",
        DetailClass::R => b"R",
        DetailClass::S => b"S",
        DetailClass::W => b"W",
        DetailClass::E => b"E",
    }
}

/// The mark of a document that a receipt is kept of, or is not.
fn receipt_mark(is_settled: bool) -> &'static [u8]
    ensures { result.now ≡ kept_mark is_settled }
{
    if is_settled { b"R" } else { b"-" }
}

/// The mark of a received document: processed, or in error.
fn outcome_mark(outcome: Outcome) -> &'static [u8]
    ensures { result.now ≡ processed_mark (is_processed outcome) }
{
    if outcome == Outcome::Processed {
        b"S"
    } else {
        b"E"
    }
}

/// The mark of the receipt that is owed for a received document.
fn receipt_mark_of(receipt_stage: ReceiptStage) -> &'static [u8]
    ensures { result.now ≡ receipt_stage_mark receipt_stage }
{
    match receipt_stage {
        ReceiptStage::Unasked => b"-",
        ReceiptStage::Pending => b"P",
        ReceiptStage::Sent => b"S",
    }
}

/// Appends the line of a received document: its number, whether it was processed, how its receipt stands, from whom and to
/// whom it is, and its identifier. Memory where it runs out; a part of the line may be appended then.
pub fn add_in_line(text: &mut Vec<u8>, row: &InRow) -> Result<(), Memory>
    ensures { OnOk result (text.new.items ≡ text.old.items ++ in_row_line row.now) }
{
    add_right(text, NUMBER_PLACES, row.number)?;
    add_word(text, outcome_mark(row.outcome))?;
    add_word(text, receipt_mark_of(row.receipt_stage))?;
    add_text(text, b" ")?;
    add_from_to(text, &row.sender, &row.receiver)?;
    add_word(text, row.id.as_received().as_bytes())?;
    add_text(text, b"\n")?;
    Ok(())
}

/// Appends the line of a document that is sent: its number, state and tries, whether a receipt has settled it, its detail, and
/// from whom and to whom it is. Memory where it runs out; a part of the line may be appended then.
pub fn add_out_line(text: &mut Vec<u8>, row: &OutRow, is_settled: bool) -> Result<(), Memory>
    ensures { OnOk result (text.new.items ≡ text.old.items ++ out_row_line is_settled row.now) }
{
    add_right(text, NUMBER_PLACES, row.number)?;
    add_word(text, class_letter(row.detail.class()))?;
    add_text(text, b" ")?;
    add_right(text, TRIES_PLACES, row.tries)?;
    add_word(text, receipt_mark(is_settled))?;
    add_text(text, b" ")?;
    add_left(text, DETAIL_PLACES, row.detail.name().as_bytes())?;
    add_text(text, b" ")?;
    add_from_to(text, &row.organization, &row.partner)?;
    add_text(text, b"\n")?;
    Ok(())
}
