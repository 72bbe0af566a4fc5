//! Encodings that leave a content as it is.
ghost use Rattle.std.specs.Prelude.{◌≡◌, codes};
ghost use Rattle.as2_names.specs.Heads.{values};
ghost use Rattle.as2_exchange.specs.Readings.{are_refused, encoding_refused, is_plain_coding};
ghost use Rattle.as2_mdn.specs.ReportReading.{is_plain_encoding};

use as2_mdn::is_plain_encoding;
use as2_text::{Head, Once};

/// `Content-Transfer-Encoding` stands there twice, or is none that leaves the content as it is.
fn transfer_refused(head: &Head) -> bool
    ensures { result ≡ are_refused is_plain_encoding (values (codes "content-transfer-encoding") head.now) }
{
    match head.value(b"content-transfer-encoding") {
        Once::Absent => false,
        Once::One(text) => !is_plain_encoding(text),
        Once::Twice => true,
    }
}

/// `Content-Encoding` stands there twice, or isn't the one that leaves the content as it is (RFC 9110, section 8.4).
fn coding_refused(head: &Head) -> bool
    ensures { result ≡ are_refused is_plain_coding (values (codes "content-encoding") head.now) }
{
    match head.value(b"content-encoding") {
        Once::Absent => false,
        Once::One(text) => !text.eq_ignore_ascii_case(b"identity"),
        Once::Twice => true,
    }
}

/// The content is encoded, which isn't undone here.
#[tactic(auto, unfolding(as2_exchange::specs::Readings::encoding_refused))]
pub(crate) fn encoding_refused(head: &Head) -> bool
    ensures { result ≡ encoding_refused head.now }
{
    transfer_refused(head) || coding_refused(head)
}
