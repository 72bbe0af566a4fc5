//! Answers to what was sent, which may carry a receipt.
ghost use Rattle.std.specs.Prelude.{◌≡◌, option_and_then};
ghost use Rattle.as2_exchange.specs.Agreement.{Text};
ghost use Rattle.as2_exchange.specs.Receipts.{receipt_in};
ghost use Rattle.as2_exchange.specs.Versions.{Digests};
ghost use Rattle.as2_posts.specs.Openings.{receipt_as};

use crate::fields::{name_in, type_in};
use crate::opening::Opened;
use as2_text::Head;

/// Reads the head of an answer of success, as far as a receipt in its body needs it: its names (RFC 4130, section 6.2) and
/// its content type. It takes no memory.
#[tactic(auto, unfolding(as2_exchange::specs::Readings::names_of, as2_exchange::specs::Readings::type_of))]
pub fn open_answer<'a>(head: &'a Head) -> Option<Opened<'a>>
    ensures { (known : Digests) (body : Text)
        → receipt_in known head.now body ≡ option_and_then (λ opened. receipt_as known opened body) result }
{
    let from = name_in(head, b"as2-from")?;
    let to = name_in(head, b"as2-to")?;
    let (media, content_type) = type_in(head)?;
    Some(Opened {
        from,
        to,
        media,
        content_type,
    })
}
