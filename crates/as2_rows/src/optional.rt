//! The values of the columns that may be absent, as they are handed to a statement.

ghost use Rattle.std.specs.Prelude.{◌≡◌};
ghost use Rattle.sqlite_value.specs.declared.value.Value.TheVariants.{Text, Blob};
ghost use Rattle.sqlite.specs.Values.{or_null};
ghost use Rattle.as2_rows.specs.Rows.{url_value, digest_value, mic_value};

use as2_exchange::ReceiptDelivery;
use as2_mdn::ReceiptMic;

/// The address that a receipt is sent to, as it was spelled; None where it isn't sent by a request.
pub fn url_of(how: &ReceiptDelivery) -> Option<&[u8]>
    ensures { or_null (λ url. Blob url.now) result ≡ url_value how.now }
{
    match how {
        ReceiptDelivery::NoReceipt | ReceiptDelivery::Sync => None,
        ReceiptDelivery::Async(url) => Some(url.as_slice()),
    }
}

/// The name of a MIC's digest; None where there is no MIC.
pub fn digest_of(mic: &Option<ReceiptMic>) -> Option<&'static str>
    ensures { or_null (λ name. Text name.now) result ≡ digest_value mic.now }
{
    match mic {
        Some(mic) => Some(mic.digest.name()),
        None => None,
    }
}

/// The text of a MIC; None where there is no MIC.
pub fn mic_of(mic: &Option<ReceiptMic>) -> Option<&[u8]>
    ensures { or_null (λ text. Blob text.now) result ≡ mic_value mic.now }
{
    match mic {
        Some(mic) => Some(mic.text.bytes()),
        None => None,
    }
}
