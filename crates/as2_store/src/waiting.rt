//! The rows of what waits.

ghost use Rattle.std.specs.Prelude.{◌≡◌, ◌+◌, ◌≤◌, ◌<◌, ◌^◌, Some, None, option_map, false, List, map, IsTrue, IfSome, OnOk};
ghost use Rattle.sqlite.specs.Held.{state};
ghost use Rattle.sqlite.specs.State.{HasCleanDisk};
ghost use Rattle.as2_store.specs.Calls.{IsInside};
ghost use Rattle.sql_tables.specs.Changes.{ChangesTable};
ghost use Rattle.as2_exchange.specs.State.{end_of_numbers};
ghost use Rattle.as2_rows.specs.Waiting.{WaitingRow, in_kind, in_waiting, kind_code, out_kind, to_send_receipt};
ghost use Rattle.as2_store.specs.Tables.{Way, store_schema, waiting_tree};
ghost use Rattle.as2_store.specs.Stands.{waiting_row};
ghost use Rattle.as2_store.specs.Adding.{NotesWaiting, noted_rows};
ghost use Rattle.as2_store.specs.Owing.{answers_at};
ghost use Rattle.as2_store.specs.Requeuing.{HoldsWaiting, RenewsWaiting, not_at};
ghost use Rattle.as2_store.specs.Progressing.{waits_at};
ghost use Rattle.as2_store.specs.Settling.{place_of, without_document};

use crate::numbers::{whole, whole_or_none};
use as2_exchange::{Attempt, END_OF_NUMBERS, InEntry, ReceiptStage};
use as2_mdn::Detail;
use as2_records::{Progress, ReceiptProgress};
use as2_rows::Wait;
use sqlite::{Alter, Error, Savepoint, params};

/// Puts in a row of what waits.
fn put_waiting<S: Alter>(
    tx: &mut Savepoint<'_, S>,
    wait: Wait,
    number: u64,
    due: Option<u64>,
) -> Result<(), Error>
    requires number { number ≤ end_of_numbers }
    requires due { IfSome due (λ due. due < 2 ^ 63) }
    ensures same_reference { tx.new.conn.ghost_name ≡ tx.old.conn.ghost_name }
    ensures place { tx.new.at ≡ tx.old.at }
    ensures within { IsInside (tx.old.at + 1) (state S.Store tx.old.conn.now) (state S.Store tx.new.conn.now) }
    ensures inside { HasCleanDisk (state S.Store tx.new.conn.now)
        → OnOk result (IsTrue (state S.Store tx.new.conn.now).in_transaction) }
    ensures put { HasCleanDisk (state S.Store tx.new.conn.now)
        → OnOk result ((way : Way) → (state S.Store tx.old.conn.now).now.schema ≡ store_schema way
        → NotesWaiting way (state S.Store tx.old.conn.now) (state S.Store tx.new.conn.now)
        (Some (record { kind = kind_code wait; number = number; due = due }))) }
{
    let kind = wait.code();
    let place = whole(kind * END_OF_NUMBERS + number);
    let kind = whole(kind);
    let number = whole(number);
    let due = whole_or_none(due);
    tx.execute(
        "INSERT INTO waiting (place, kind, number, due) VALUES (?1, ?2, ?3, ?4)",
        params![place, kind, number, due],
    )?;
    Ok(())
}

/// The place of the row of what an entry waits for.
fn place_of(wait: Wait, number: u64) -> u64
    requires { number ≤ end_of_numbers }
    ensures place { result ≡ place_of (kind_code wait) number }
    ensures fits { result < 2 ^ 63 }
{
    wait.code() * END_OF_NUMBERS + number
}

/// Takes out the row of what waits at this place.
fn take_waiting<S: Alter>(tx: &mut Savepoint<'_, S>, place: u64) -> Result<(), Error>
    requires { place < 2 ^ 63 }
    ensures same_reference { tx.new.conn.ghost_name ≡ tx.old.conn.ghost_name }
    ensures place { tx.new.at ≡ tx.old.at }
    ensures within { IsInside (tx.old.at + 1) (state S.Store tx.old.conn.now) (state S.Store tx.new.conn.now) }
    ensures inside { HasCleanDisk (state S.Store tx.new.conn.now)
        → OnOk result (IsTrue (state S.Store tx.new.conn.now).in_transaction) }
    ensures put { HasCleanDisk (state S.Store tx.new.conn.now)
        → OnOk result ((way : Way) (ws : List WaitingRow) → HoldsWaiting way (state S.Store tx.old.conn.now).now ws
        → ChangesTable (state S.Store tx.old.conn.now) (state S.Store tx.new.conn.now) (store_schema way) waiting_tree
        (map waiting_row (not_at place ws))) }
{
    let place = whole(place);
    tx.execute("DELETE FROM waiting WHERE place = ?1", params![place])?;
    Ok(())
}

/// Whether a receipt that stands so is to be sent.
pub fn is_to_answer(receipt_stage: ReceiptStage, attempt: Attempt) -> bool
    ensures to_send_receipt { IsTrue result → in_kind receipt_stage attempt ≡ Some to_send_receipt }
    ensures nothing { result ≡ false → in_kind receipt_stage attempt ≡ None }
{
    match receipt_stage {
        ReceiptStage::Pending => matches!(attempt, Attempt::Idle | Attempt::Running),
        _ => false,
    }
}

/// Puts in the row of the receipt of this number, if it is to be sent.
fn put_owed_waiting<S: Alter>(
    tx: &mut Savepoint<'_, S>,
    number: u64,
    progress: ReceiptProgress,
) -> Result<(), Error>
    requires number { number ≤ end_of_numbers }
    requires due { IfSome progress.due (λ due. due < 2 ^ 63) }
    ensures same_reference { tx.new.conn.ghost_name ≡ tx.old.conn.ghost_name }
    ensures place { tx.new.at ≡ tx.old.at }
    ensures within { IsInside (tx.old.at + 1) (state S.Store tx.old.conn.now) (state S.Store tx.new.conn.now) }
    ensures inside { HasCleanDisk (state S.Store tx.new.conn.now)
        → IsTrue (state S.Store tx.old.conn.now).in_transaction
        → OnOk result (IsTrue (state S.Store tx.new.conn.now).in_transaction) }
    ensures put { HasCleanDisk (state S.Store tx.new.conn.now)
        → OnOk result ((way : Way) → (state S.Store tx.old.conn.now).now.schema ≡ store_schema way
        → NotesWaiting way (state S.Store tx.old.conn.now) (state S.Store tx.new.conn.now)
        (answers_at number progress)) }
{
    if is_to_answer(progress.receipt_stage, progress.attempt) {
        put_waiting(tx, Wait::ToSendReceipt, number, progress.due)?;
    }
    Ok(())
}

/// Puts in the row of an entry whose receipt is to be sent.
pub fn put_in_waiting<S: Alter>(tx: &mut Savepoint<'_, S>, entry: &InEntry) -> Result<(), Error>
    requires number { entry.now.number < end_of_numbers }
    requires due { IfSome entry.now.due (λ due. due < 2 ^ 63) }
    ensures same_reference { tx.new.conn.ghost_name ≡ tx.old.conn.ghost_name }
    ensures place { tx.new.at ≡ tx.old.at }
    ensures within { IsInside (tx.old.at + 1) (state S.Store tx.old.conn.now) (state S.Store tx.new.conn.now) }
    ensures put { HasCleanDisk (state S.Store tx.new.conn.now)
        → OnOk result ((way : Way) → (state S.Store tx.old.conn.now).now.schema ≡ store_schema way
        → NotesWaiting way (state S.Store tx.old.conn.now) (state S.Store tx.new.conn.now) (in_waiting entry.now)) }
{
    if is_to_answer(entry.receipt_stage, entry.attempt) {
        put_waiting(tx, Wait::ToSendReceipt, entry.number, entry.due)?;
    }
    Ok(())
}

/// What a document waits for.
pub fn wait_of(detail: Detail, attempt: Attempt) -> Option<Wait>
    ensures { option_map kind_code result ≡ out_kind detail attempt }
{
    match detail {
        Detail::New | Detail::Retry => Some(Wait::ToSend),
        Detail::Awaiting => Some(Wait::ToHear),
        Detail::Sending => match attempt {
            Attempt::Running => Some(Wait::ToSend),
            Attempt::Last => Some(Wait::ToEnd),
            _ => None,
        },
        _ => None,
    }
}

/// Puts in the row of what the document of this number waits for, if it waits for something.
pub fn put_out_waiting<S: Alter>(
    tx: &mut Savepoint<'_, S>,
    number: u64,
    progress: Progress,
) -> Result<(), Error>
    requires number { number ≤ end_of_numbers }
    requires due { IfSome progress.due (λ due. due < 2 ^ 63) }
    ensures same_reference { tx.new.conn.ghost_name ≡ tx.old.conn.ghost_name }
    ensures place { tx.new.at ≡ tx.old.at }
    ensures within { IsInside (tx.old.at + 1) (state S.Store tx.old.conn.now) (state S.Store tx.new.conn.now) }
    ensures inside { HasCleanDisk (state S.Store tx.new.conn.now)
        → IsTrue (state S.Store tx.old.conn.now).in_transaction
        → OnOk result (IsTrue (state S.Store tx.new.conn.now).in_transaction) }
    ensures put { HasCleanDisk (state S.Store tx.new.conn.now)
        → OnOk result ((way : Way) → (state S.Store tx.old.conn.now).now.schema ≡ store_schema way
        → NotesWaiting way (state S.Store tx.old.conn.now) (state S.Store tx.new.conn.now) (waits_at number progress)) }
{
    if let Some(wait) = wait_of(progress.detail, progress.attempt) {
        put_waiting(tx, wait, number, progress.due)?;
    }
    Ok(())
}

/// Puts in the row of what the document of this number waits for now, in place of what it waited for.
pub fn wait_for<S: Alter>(
    tx: &mut Savepoint<'_, S>,
    number: u64,
    progress: Progress,
) -> Result<(), Error>
    requires number { number ≤ end_of_numbers }
    requires due { IfSome progress.due (λ due. due < 2 ^ 63) }
    ensures same_reference { tx.new.conn.ghost_name ≡ tx.old.conn.ghost_name }
    ensures place { tx.new.at ≡ tx.old.at }
    ensures within { IsInside (tx.old.at + 1) (state S.Store tx.old.conn.now) (state S.Store tx.new.conn.now) }
    ensures inside { HasCleanDisk (state S.Store tx.new.conn.now)
        → OnOk result (IsTrue (state S.Store tx.new.conn.now).in_transaction) }
    ensures put { HasCleanDisk (state S.Store tx.new.conn.now)
        → OnOk result ((way : Way) (ws : List WaitingRow) → HoldsWaiting way (state S.Store tx.old.conn.now).now ws
        → RenewsWaiting way (state S.Store tx.old.conn.now) (state S.Store tx.new.conn.now)
        (noted_rows (waits_at number progress) (map waiting_row (without_document number ws)))) }
{
    take_document(tx, number)?;
    put_out_waiting(tx, number, progress)
}

/// Puts in the row of the receipt of this number, where it is to be sent, in place of the one that it has, if it has one.
pub fn answer_for<S: Alter>(
    tx: &mut Savepoint<'_, S>,
    number: u64,
    progress: ReceiptProgress,
) -> Result<(), Error>
    requires number { number ≤ end_of_numbers }
    requires due { IfSome progress.due (λ due. due < 2 ^ 63) }
    ensures same_reference { tx.new.conn.ghost_name ≡ tx.old.conn.ghost_name }
    ensures place { tx.new.at ≡ tx.old.at }
    ensures within { IsInside (tx.old.at + 1) (state S.Store tx.old.conn.now) (state S.Store tx.new.conn.now) }
    ensures inside { HasCleanDisk (state S.Store tx.new.conn.now)
        → OnOk result (IsTrue (state S.Store tx.new.conn.now).in_transaction) }
    ensures put { HasCleanDisk (state S.Store tx.new.conn.now)
        → OnOk result ((way : Way) (ws : List WaitingRow) → HoldsWaiting way (state S.Store tx.old.conn.now).now ws
        → RenewsWaiting way (state S.Store tx.old.conn.now) (state S.Store tx.new.conn.now)
        (noted_rows (answers_at number progress) (map waiting_row (not_at (place_of to_send_receipt number) ws)))) }
{
    take_waiting(tx, place_of(Wait::ToSendReceipt, number))?;
    put_owed_waiting(tx, number, progress)
}

/// Takes out what the document of this number waits for. A receipt of the same number stays.
pub fn take_document<S: Alter>(tx: &mut Savepoint<'_, S>, number: u64) -> Result<(), Error>
    requires { number ≤ end_of_numbers }
    ensures same_reference { tx.new.conn.ghost_name ≡ tx.old.conn.ghost_name }
    ensures place { tx.new.at ≡ tx.old.at }
    ensures within { IsInside (tx.old.at + 1) (state S.Store tx.old.conn.now) (state S.Store tx.new.conn.now) }
    ensures inside { HasCleanDisk (state S.Store tx.new.conn.now)
        → OnOk result (IsTrue (state S.Store tx.new.conn.now).in_transaction) }
    ensures put { HasCleanDisk (state S.Store tx.new.conn.now)
        → OnOk result ((way : Way) (ws : List WaitingRow) → HoldsWaiting way (state S.Store tx.old.conn.now).now ws
        → RenewsWaiting way (state S.Store tx.old.conn.now) (state S.Store tx.new.conn.now)
        (map waiting_row (without_document number ws))) }
{
    take_waiting(tx, place_of(Wait::ToSend, number))?;
    take_waiting(tx, place_of(Wait::ToHear, number))?;
    take_waiting(tx, place_of(Wait::ToEnd, number))?;
    Ok(())
}
