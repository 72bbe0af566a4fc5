//! Whether a post repeats an earlier one, and whether that is still the one that came.
ghost use Rattle.std.specs.Prelude.{◌≡◌};
ghost use Rattle.as2_exchange.specs.Posts.{how_eq, mic_eq, same_post, same_result, repeats};
ghost use Rattle.as2_posts.specs.Answers.{has_kept_mic};

use as2_exchange::{Posted, ReceiptDelivery};
use as2_mdn::ReceiptMic;
use as2_mic::mic_of_pieces;

fn how_eq(one: &ReceiptDelivery, other: &ReceiptDelivery) -> bool
    ensures { result ≡ how_eq one.now other.now }
{
    match (one, other) {
        (ReceiptDelivery::NoReceipt, ReceiptDelivery::NoReceipt)
        | (ReceiptDelivery::Sync, ReceiptDelivery::Sync) => true,
        (ReceiptDelivery::Async(one), ReceiptDelivery::Async(other)) => one.as_slice()
            == other.as_slice(),
        _ => false,
    }
}

fn mic_eq(one: &Option<ReceiptMic>, other: &Option<ReceiptMic>) -> bool
    ensures { result ≡ mic_eq one.now other.now }
{
    match (one, other) {
        (None, None) => true,
        (Some(one), Some(other)) => one.digest == other.digest
            && one.text.bytes() == other.text.bytes(),
        _ => false,
    }
}

/// Whether the same was posted, the identifier's spelling too (`Date` isn't looked at).
fn same_post(one: &Posted, other: &Posted) -> bool
    ensures { result ≡ same_post one.now other.now }
{
    one.sender.bytes() == other.sender.bytes()
        && one.receiver.bytes() == other.receiver.bytes()
        && one.id.as_received() == other.id.as_received()
        && one.content_type.as_slice() == other.content_type.as_slice()
        && one.content.same_bytes(&other.content)
        && how_eq(&one.how, &other.how)
}

/// Whether the same was made of both: the outcome, the digest and the MIC.
fn same_result(one: &Posted, other: &Posted) -> bool
    ensures { result ≡ same_result one.now other.now }
{
    one.outcome == other.outcome && mic_eq(&one.mic, &other.mic)
}

/// Whether the post repeats the entry of this number, which is that document (RFC 4130, section 5.5): the same was posted, and the
/// same was made of it. What was made of an entry below the origin is left out.
pub fn repeats(origin: u64, number: u64, one: &Posted, other: &Posted) -> bool
    ensures { result ≡ repeats origin number one.now other.now }
{
    same_post(one, other) && (number < origin || same_result(one, other))
}

/// Whether the content that is kept still has the MIC that is kept with it; true where none is (RFC 4130, section 7.3.1).
pub fn has_kept_mic(posted: &Posted) -> bool
    ensures { result ≡ has_kept_mic posted.now }
{
    match &posted.mic {
        None => true,
        Some(kept) => mic_of_pieces(kept.digest, &posted.content).bytes() == kept.text.bytes(),
    }
}
