//! The values of a row, one at a time.

ghost use Rattle.std.specs.Prelude.{◌≡◌, ◌≤◌, ℕ, List, Option, Some, Ok, IfOk, IfErr, IfSome, IsTrue, is_some, pos};
ghost use Rattle.sqlite_value.specs.declared.value.Value.TheVariants.{Int, Blob};
ghost use Rattle.sqlite_value.specs.Order.{column};
ghost use Rattle.sqlite_value.specs.Value.{owned};
ghost use Rattle.as2_names.specs.Names.{IsName};
ghost use Rattle.as2_names.specs.Identifiers.{IsIdentifier, without_brackets};
ghost use Rattle.as2_names.specs.Moments.{last_moment};
ghost use Rattle.as2_text.specs.Addresses.{url_of};
ghost use Rattle.as2_mic.specs.Algs.{alg_name};
ghost use Rattle.as2_mic.specs.Mic.{IsMicText};
ghost use Rattle.as2_mic.specs.declared.alg.Alg.{Alg as Digest};
ghost use Rattle.as2_mdn.specs.declared.report.ReceiptMic.{ReceiptMic as Mic};
ghost use Rattle.as2_exchange.specs.declared.inbox.ReceiptDelivery.{ReceiptDelivery as HowOf};
ghost use Rattle.as2_rows.specs.Codes.{how_code};
ghost use Rattle.as2_rows.specs.Texts.{IsAddressed};
ghost use Rattle.as2_rows.specs.Rows.{whole, whole_or_null, url_value, digest_value, mic_value};
ghost use Rattle.as2_rows.specs.declared.fault.RowFault.TheVariants as fault;

use crate::RowFault;
use as2_exchange::{Address, Bytes, ReceiptDelivery};
use as2_mdn::ReceiptMic;
use as2_mic::{Alg, MicText, Pieces};
use as2_text::{AsName, IdFault, MessageId, Moment, Url, is_identifier, without_brackets};
use sqlite::Row;
use sqlite::types::ValueRef;
use std::alloc::Global;

/// The value in a column, and NULL past the last one.
pub fn column<'a>(row: &'a Row, at: usize) -> ValueRef<'a>
    ensures { owned result ≡ column row.now at }
{
    match row.get_ref(at) {
        Ok(value) => value,
        Err(_) => ValueRef::Null,
    }
}

/// A whole number of the tables.
pub fn integer(value: ValueRef<'_>) -> Result<i64, RowFault>
    ensures read { IfOk result (λ n. owned value.entry ≡ Int n) }
    ensures taken { (n : _) → owned value.entry ≡ Int n → result ≡ Ok n }
{
    match value {
        ValueRef::Int(n) => Ok(n),
        _ => Err(RowFault::NotAnEntry),
    }
}

/// A count.
pub fn whole(value: ValueRef<'_>) -> Result<u64, RowFault>
    ensures read { IfOk result (λ n. owned value.entry ≡ whole n) }
    ensures taken { (n : ℕ) → owned value.entry ≡ whole n → result ≡ Ok n }
{
    u64::try_from(integer(value)?).map_err(|_| RowFault::NotAnEntry)
}

/// A count that may be absent.
pub fn whole_or_null(value: ValueRef<'_>) -> Result<Option<u64>, RowFault>
    ensures read { IfOk result (λ n. owned value.entry ≡ whole_or_null n) }
    ensures taken { (n : Option ℕ) → owned value.entry ≡ whole_or_null n → result ≡ Ok n }
{
    match value {
        ValueRef::Null => Ok(None),
        _ => Ok(Some(whole(value)?)),
    }
}

/// The bytes of a value.
pub fn blob<'a>(value: ValueRef<'a>) -> Result<&'a [u8], RowFault>
    ensures read { IfOk result (λ b. owned value.entry ≡ Blob b.now) }
    ensures taken { IfErr result (λ f. (b : List ℕ) → owned value.entry ≡ Blob b → f ≡ fault.Memory) }
{
    match value {
        ValueRef::Blob(bytes) => Ok(bytes),
        _ => Err(RowFault::NotAnEntry),
    }
}

/// A text that is kept as its bytes.
pub fn text(alloc: Global, value: ValueRef<'_>) -> Result<Bytes, RowFault>
    ensures read { IfOk result (λ t. owned value.entry ≡ Blob t) }
    ensures taken { IfErr result (λ f. (b : List ℕ) → owned value.entry ≡ Blob b → f ≡ fault.Memory) }
{
    Ok(Bytes::keep(alloc, blob(value)?)?)
}

/// Bytes that are kept in pieces.
pub fn pieces(alloc: Global, value: ValueRef<'_>) -> Result<Pieces, RowFault>
    ensures read { IfOk result (λ p. owned value.entry ≡ Blob p) }
    ensures taken { IfErr result (λ f. (b : List ℕ) → owned value.entry ≡ Blob b → f ≡ fault.Memory) }
{
    let mut pieces = Pieces::new(alloc);
    pieces.append(blob(value)?)?;
    Ok(pieces)
}

/// A name.
pub fn name(value: ValueRef<'_>) -> Result<AsName, RowFault>
    ensures read { IfOk result (λ n. owned value.entry ≡ Blob n) }
    ensures taken { IfErr result (λ f. (n : List ℕ) → IsName n → owned value.entry ≡ Blob n → f ≡ fault.Memory) }
{
    AsName::plain(blob(value)?).map_err(|_| RowFault::NotAnEntry)
}

/// An identifier, as it was received.
fn identifier(alloc: Global, value: ValueRef<'_>) -> Result<MessageId, RowFault>
    ensures read { IfOk result (λ t. owned value.entry ≡ Blob t) }
    ensures taken { IfErr result (λ f. (t : List ℕ) → IsIdentifier t → owned value.entry ≡ Blob t → f ≡ fault.Memory) }
{
    let text = blob(value)?;
    if !is_identifier(text) {
        return Err(RowFault::NotAnEntry);
    }
    MessageId::parse(alloc, text).map_err(|_| RowFault::Memory)
}

/// An identifier, as it was received, of the column of its value and its own.
pub fn identifier_of(
    alloc: Global,
    key: ValueRef<'_>,
    value: ValueRef<'_>,
) -> Result<MessageId, RowFault>
    ensures read { IfOk result (λ t. owned value.entry ≡ Blob t) }
    ensures key { IfOk result (λ t. owned key.entry ≡ Blob (without_brackets t)) }
    ensures taken { IfErr result (λ f. (t : List ℕ) → IsIdentifier t → owned key.entry ≡ Blob (without_brackets t)
        → owned value.entry ≡ Blob t → f ≡ fault.Memory) }
{
    if blob(key)? != without_brackets(blob(value)?) {
        return Err(RowFault::NotAnEntry);
    }
    identifier(alloc, value)
}

/// A moment.
pub fn moment(value: ValueRef<'_>) -> Result<Moment, RowFault>
    ensures read { IfOk result (λ m. owned value.entry ≡ whole m) }
    ensures taken { IfErr result (λ f. (m : ℕ) → m ≤ last_moment → owned value.entry ≡ whole m → f ≡ fault.Memory) }
{
    Moment::new(whole(value)?).ok_or(RowFault::NotAnEntry)
}

/// The address that a receipt is sent to.
fn address(alloc: Global, value: ValueRef<'_>) -> Result<Address, RowFault>
    ensures read { IfOk result (λ url. owned value.entry ≡ Blob url) }
    ensures taken { IfErr result (λ f. (url : List ℕ) → IsTrue (is_some (url_of url)) → owned value.entry ≡ Blob url
        → f ≡ fault.Memory) }
{
    let text = blob(value)?;
    if Url::parse(text).is_none() {
        return Err(RowFault::NotAnEntry);
    }
    Ok(Address::keep(alloc, text)?)
}

/// How a receipt was asked for, of its code and the address.
pub fn how(
    alloc: Global,
    code: ValueRef<'_>,
    url: ValueRef<'_>,
) -> Result<ReceiptDelivery, RowFault>
    ensures code { IfOk result (λ h. owned code.entry ≡ whole (how_code h)) }
    ensures url { IfOk result (λ h. owned url.entry ≡ url_value h) }
    ensures read { IfOk result (λ h. (g : HowOf) → owned code.entry ≡ whole (how_code g) → owned url.entry ≡ url_value g
        → h ≡ g) }
    ensures taken { IfErr result (λ f. (g : HowOf) → IsAddressed g → owned code.entry ≡ whole (how_code g)
        → owned url.entry ≡ url_value g → f ≡ fault.Memory) }
{
    match (integer(code)?, url) {
        (1, ValueRef::Null) => Ok(ReceiptDelivery::NoReceipt),
        (2, ValueRef::Null) => Ok(ReceiptDelivery::Sync),
        (3, url) => Ok(ReceiptDelivery::Async(address(alloc, url)?)),
        _ => Err(RowFault::NotAnEntry),
    }
}

/// The digest whose written name it is.
fn alg(name: &[u8]) -> Option<Alg>
    ensures read { IfSome result (λ digest. name.now ≡ alg_name digest) }
    ensures taken { (digest : Digest) → name.now ≡ alg_name digest → result ≡ Some digest }
{
    match Alg::named(name) {
        Some(alg) if alg.name().as_bytes() == name => Some(alg),
        _ => None,
    }
}

/// The digest and the text of a MIC, where there is one.
pub fn mic(digest: ValueRef<'_>, text: ValueRef<'_>) -> Result<Option<ReceiptMic>, RowFault>
    ensures digest { IfOk result (λ m. owned digest.entry ≡ digest_value m) }
    ensures text { IfOk result (λ m. owned text.entry ≡ mic_value m) }
    ensures read { IfOk result (λ m. (n : Option Mic) → owned digest.entry ≡ digest_value n
        → owned text.entry ≡ mic_value n → m ≡ n) }
    ensures taken { IfErr result (λ f. (n : Option Mic) → IfSome n (λ mic. IsMicText mic.text)
        → owned digest.entry ≡ digest_value n → owned text.entry ≡ mic_value n → f ≡ fault.Memory) }
{
    let (name, bytes) = match (digest, text) {
        (ValueRef::Null, ValueRef::Null) => return Ok(None),
        (ValueRef::Text(name), ValueRef::Blob(bytes)) => (name, bytes),
        _ => return Err(RowFault::NotAnEntry),
    };
    match (alg(name), MicText::of(bytes)) {
        (Some(digest), Some(text)) => Ok(Some(ReceiptMic { digest, text })),
        _ => Err(RowFault::NotAnEntry),
    }
}
