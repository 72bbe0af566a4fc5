//! Cuts of a text at the first place of a byte.

ghost use Rattle.std.specs.Prelude.{◌≡◌, option_map, IfSome, IfNone};
ghost use Rattle.as2_names.specs.Cuts.{Lacks, IsCutAt, cut_at};

/// What stands in a text before the first of those bytes, and what stands behind it.
pub fn cut_at(text: &[u8], byte: u8) -> Option<(&[u8], &[u8])>
    // The byte stands between the two for the first time.
    ensures cut { IfSome result (λ p. IsCutAt byte text.now p.0.now p.1.now) }
    // Where nothing is cut, the byte doesn't stand there.
    ensures whole { IfNone result (Lacks byte text.now) }
    // The same as a value.
    ensures exact { option_map (λ p. (p.0.now, p.1.now)) result ≡ cut_at byte text.now }
{
    for (i, b) in text.iter().enumerate() {
        if *b == byte {
            return Some((&text[..i], &text[i + 1..]));
        }
    }
    None
}
