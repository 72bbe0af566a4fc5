//! Places of bytes in a text, and cuts at them.

// Texts that are cut in two at the first `;` outside quotes.
ghost use Rattle.std.specs.Prelude.{◌≡◌, ◌∷◌, option_map};
ghost use Rattle.as2_media.specs.Cuts.{next_place, segments, segments_of};
ghost use Rattle.as2_media.specs.declared.cuts.Place.TheVariants.{Outside};

/// Where a byte of a text stands.
#[derive(Clone, Copy, PartialEq, Eq)]
enum Place {
    /// Outside quotes.
    Outside,
    /// Between quotes.
    Quoted,
    /// Between quotes, behind a backslash.
    Escaped,
}

/// The place behind a byte.
fn next(place: Place, b: u8) -> Place
    ensures { result ≡ next_place place b }
{
    match place {
        Place::Outside if b == b'"' => Place::Quoted,
        Place::Outside => Place::Outside,
        Place::Quoted if b == b'\\' => Place::Escaped,
        Place::Quoted if b == b'"' => Place::Outside,
        Place::Quoted => Place::Quoted,
        Place::Escaped => Place::Quoted,
    }
}

/// The text before the first `;` outside quotes, and the text behind it; all of the text where there is none.
pub(crate) fn cut_segment(text: &[u8]) -> (&[u8], Option<&[u8]>)
    ensures { segments Outside text.now ≡ result.0.now ∷ segments_of (option_map (λ t. t.now) result.1) }
{
    let mut place = Place::Outside;
    for (i, b) in text.iter().enumerate() {
        if place == Place::Outside && *b == b';' {
            return (&text[..i], Some(&text[i + 1..]));
        }
        place = next(place, *b);
    }
    (text, None)
}
