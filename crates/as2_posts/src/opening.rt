//! The lines that refuse a post by its head alone: names, version and content type.
ghost use Rattle.std.specs.Prelude.{◌≡◌, IfOk, IfErr};
ghost use Rattle.as2_exchange.specs.Agreement.{Text};
ghost use Rattle.as2_exchange.specs.Versions.{Digests};
ghost use Rattle.as2_exchange.specs.Posts.{Refuses, post_reading};
ghost use Rattle.as2_exchange.specs.Readings.{is_report};
ghost use Rattle.as2_posts.specs.Openings.{reading_by};

use crate::fields::{name_in, type_in, version_fits};
use as2_agreement::Agreements;
use as2_exchange::Line;
use as2_text::{AsName, Head, Kind, MediaType};

/// What the head of a post says, where its names are agreed, and its version and content type can be read.
#[derive(Drop)]
pub struct Opened<'a> {
    /// The partner that posts.
    pub from: AsName,
    /// The organization that it is posted to.
    pub to: AsName,
    /// The content type.
    pub media: MediaType<'a>,
    /// The content type, as spelled; `application/octet-stream` where none is given.
    pub content_type: &'a [u8],
}

impl Opened<'_> {
    /// Whether a receipt is posted (RFC 6522, section 3).
    #[tactic(auto, unfolding(as2_exchange::specs::Readings::is_report))]
    pub fn is_report(&self) -> bool
        ensures { result ≡ is_report self.now.media }
    {
        matches!(self.media.kind(), Kind::Report)
    }
}

/// Reads the head of a post: the first of the lines that refuse it by names, version or content type, or what it says.
/// It takes no memory.
#[tactic(auto, unfolding(as2_exchange::specs::Posts::post_reading, as2_exchange::specs::Readings::names_of, as2_exchange::specs::Readings::version_fits, as2_exchange::specs::Readings::type_of))]
pub fn open<'a>(agreements: &Agreements, head: &'a Head) -> Result<Opened<'a>, Line>
    ensures refused { IfErr result (λ line. (known : Digests) (body : Text)
        → post_reading agreements.now known head.now body ≡ Refuses line) }
    ensures opened { IfOk result (λ o. (known : Digests) (body : Text)
        → post_reading agreements.now known head.now body ≡ reading_by known o head.now body) }
{
    let Some(from) = name_in(head, b"as2-from") else {
        return Err(Line::BadNames);
    };
    let Some(to) = name_in(head, b"as2-to") else {
        return Err(Line::BadNames);
    };
    if !version_fits(head) {
        return Err(Line::BadVersion);
    }
    if agreements.organization(&to).is_none() || agreements.partner(&from).is_none() {
        return Err(Line::UnknownNames);
    }
    let Some((media, content_type)) = type_in(head) else {
        return Err(Line::BadType);
    };
    Ok(Opened {
        from,
        to,
        media,
        content_type,
    })
}
