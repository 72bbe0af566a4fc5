//! The codes that stand in the tables for what is one of a few.

ghost use Rattle.std.specs.Prelude.{◌≡◌, pos, Ok, Some, IfOk, IfSome};
ghost use Rattle.sqlite_value.specs.Value.{owned};
ghost use Rattle.as2_mdn.specs.declared.detail.Detail.{Detail as DetailOf};
ghost use Rattle.as2_mdn.specs.declared.outcome.Outcome.{Outcome as OutcomeOf};
ghost use Rattle.as2_exchange.specs.declared.attempt.Attempt.{Attempt as AttemptOf};
ghost use Rattle.as2_exchange.specs.declared.inbox.ReceiptStage.{ReceiptStage};
ghost use Rattle.as2_rows.specs.Codes.{outcome_code, how_code, receipt_stage_code, attempt_code, detail_code};
ghost use Rattle.as2_rows.specs.Rows.{whole};

use crate::RowFault;
use crate::cells::integer;
use as2_exchange::{Attempt, ReceiptDelivery, ReceiptStage};
use as2_mdn::{Detail, Outcome};
use sqlite::types::ValueRef;

/// The code of how a receipt was asked for: 1 to 3.
pub fn how_code(how: &ReceiptDelivery) -> i64
    ensures { result ≡ pos (how_code how.now) }
{
    match how {
        ReceiptDelivery::NoReceipt => 1,
        ReceiptDelivery::Sync => 2,
        ReceiptDelivery::Async(_) => 3,
    }
}

/// The code of what became of a received document: 1 to 6.
pub fn outcome_code(outcome: Outcome) -> i64
    ensures { result ≡ pos (outcome_code outcome) }
{
    match outcome {
        Outcome::DecryptionFailed => 1,
        Outcome::DecompressionFailed => 2,
        Outcome::AuthenticationFailed => 3,
        Outcome::UnsupportedFormat => 4,
        Outcome::UnsupportedMicAlgorithms => 5,
        Outcome::Processed => 6,
    }
}

/// What a code tells of what became of a received document; None where it is no code.
pub fn outcome_of_code(code: i64) -> Option<Outcome>
    ensures found { IfSome result (λ x. code ≡ pos (outcome_code x)) }
    ensures only { (x : OutcomeOf) → code ≡ pos (outcome_code x) → result ≡ Some x }
{
    match code {
        1 => Some(Outcome::DecryptionFailed),
        2 => Some(Outcome::DecompressionFailed),
        3 => Some(Outcome::AuthenticationFailed),
        4 => Some(Outcome::UnsupportedFormat),
        5 => Some(Outcome::UnsupportedMicAlgorithms),
        6 => Some(Outcome::Processed),
        _ => None,
    }
}

/// The code of how a receipt stands: 1 to 3.
pub fn receipt_stage_code(receipt_stage: ReceiptStage) -> i64
    ensures { result ≡ pos (receipt_stage_code receipt_stage) }
{
    match receipt_stage {
        ReceiptStage::Unasked => 1,
        ReceiptStage::Pending => 2,
        ReceiptStage::Sent => 3,
    }
}

/// What a code tells of how a receipt stands; None where it is no code.
pub fn receipt_stage_of_code(code: i64) -> Option<ReceiptStage>
    ensures found { IfSome result (λ x. code ≡ pos (receipt_stage_code x)) }
    ensures only { (x : ReceiptStage) → code ≡ pos (receipt_stage_code x) → result ≡ Some x }
{
    match code {
        1 => Some(ReceiptStage::Unasked),
        2 => Some(ReceiptStage::Pending),
        3 => Some(ReceiptStage::Sent),
        _ => None,
    }
}

/// The code of whether a try is open: 1 to 4.
pub fn attempt_code(attempt: Attempt) -> i64
    ensures { result ≡ pos (attempt_code attempt) }
{
    match attempt {
        Attempt::Idle => 1,
        Attempt::Running => 2,
        Attempt::Last => 3,
        Attempt::Used => 4,
    }
}

/// What a code tells of whether a try is open; None where it is no code.
pub fn attempt_of_code(code: i64) -> Option<Attempt>
    ensures found { IfSome result (λ x. code ≡ pos (attempt_code x)) }
    ensures only { (x : AttemptOf) → code ≡ pos (attempt_code x) → result ≡ Some x }
{
    match code {
        1 => Some(Attempt::Idle),
        2 => Some(Attempt::Running),
        3 => Some(Attempt::Last),
        4 => Some(Attempt::Used),
        _ => None,
    }
}

/// The code of how a document that is sent stands: 1 to 14.
pub fn detail_code(detail: Detail) -> i64
    ensures { result ≡ pos (detail_code detail) }
{
    match detail {
        Detail::New => 1,
        Detail::Sending => 2,
        Detail::Awaiting => 3,
        Detail::Retry => 4,
        Detail::Processed => 5,
        Detail::NoReceiptAsked => 6,
        Detail::Warning => 7,
        Detail::NoMic => 8,
        Detail::UnknownMic => 9,
        Detail::NotProcessed => 10,
        Detail::ErrorModifier => 11,
        Detail::MicDiffers => 12,
        Detail::TriesUsed => 13,
        Detail::Overdue => 14,
    }
}

/// What a code tells of how a document that is sent stands; None where it is no code.
pub fn detail_of_code(code: i64) -> Option<Detail>
    ensures found { IfSome result (λ x. code ≡ pos (detail_code x)) }
    ensures only { (x : DetailOf) → code ≡ pos (detail_code x) → result ≡ Some x }
{
    match code {
        1 => Some(Detail::New),
        2 => Some(Detail::Sending),
        3 => Some(Detail::Awaiting),
        4 => Some(Detail::Retry),
        5 => Some(Detail::Processed),
        6 => Some(Detail::NoReceiptAsked),
        7 => Some(Detail::Warning),
        8 => Some(Detail::NoMic),
        9 => Some(Detail::UnknownMic),
        10 => Some(Detail::NotProcessed),
        11 => Some(Detail::ErrorModifier),
        12 => Some(Detail::MicDiffers),
        13 => Some(Detail::TriesUsed),
        14 => Some(Detail::Overdue),
        _ => None,
    }
}

/// What became of a received document, of the value of its column.
pub fn outcome_in(value: ValueRef<'_>) -> Result<Outcome, RowFault>
    ensures read { IfOk result (λ x. owned value.entry ≡ whole (outcome_code x)) }
    ensures taken { (x : OutcomeOf) → owned value.entry ≡ whole (outcome_code x) → result ≡ Ok x }
{
    outcome_of_code(integer(value)?).ok_or(RowFault::NotAnEntry)
}

/// How a receipt stands, of the value of its column.
pub fn receipt_stage_in(value: ValueRef<'_>) -> Result<ReceiptStage, RowFault>
    ensures read { IfOk result (λ x. owned value.entry ≡ whole (receipt_stage_code x)) }
    ensures taken { (x : ReceiptStage) → owned value.entry ≡ whole (receipt_stage_code x) → result ≡ Ok x }
{
    receipt_stage_of_code(integer(value)?).ok_or(RowFault::NotAnEntry)
}

/// Whether a try is open, of the value of its column.
pub fn attempt_in(value: ValueRef<'_>) -> Result<Attempt, RowFault>
    ensures read { IfOk result (λ x. owned value.entry ≡ whole (attempt_code x)) }
    ensures taken { (x : AttemptOf) → owned value.entry ≡ whole (attempt_code x) → result ≡ Ok x }
{
    attempt_of_code(integer(value)?).ok_or(RowFault::NotAnEntry)
}

/// How a document that is sent stands, of the value of its column.
pub fn detail_in(value: ValueRef<'_>) -> Result<Detail, RowFault>
    ensures read { IfOk result (λ x. owned value.entry ≡ whole (detail_code x)) }
    ensures taken { (x : DetailOf) → owned value.entry ≡ whole (detail_code x) → result ≡ Ok x }
{
    detail_of_code(integer(value)?).ok_or(RowFault::NotAnEntry)
}
