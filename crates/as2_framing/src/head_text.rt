//! What stands before a head (RFC 9112, section 2.2).
ghost use Rattle.std.specs.Prelude.{◌≡◌, ◌≤◌, length, drop};
ghost use Rattle.as2_framing.specs.HeadText.{unblank};

/// How many bytes a head may have, the CR and LF skipped before it among them.
pub const HEAD_LIMIT: usize = 16_384;

/// How many CR and LF bytes stand at the front.
pub fn blank_length(text: &[u8]) -> usize
    ensures rest { drop result text.now ≡ unblank text.now }
    ensures within { result ≤ length text.now }
{
    for (i, byte) in text.iter().enumerate() {
        if *byte != b'\r' && *byte != b'\n' {
            return i;
        }
    }
    text.len()
}
