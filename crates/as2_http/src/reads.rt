//! Reads of a stream or of an answer, one call each.
ghost use Rattle.std.specs.Prelude.{◌≡◌, ◌+◌, ◌<◌, ◌≤◌, take, vec_len, Some, None, IfSome};
ghost use Rattle.std.specs.Io.KnownBytes.{Consumes, IsAtEnd, Keeps};

use crate::device::Source;

/// The most reads that are made of one stream, or for one answer.
pub const READS: u32 = 100_000;

/// The most bytes that one read asks for.
pub const READ_LIMIT: usize = 65_536;

/// Makes one read, and tells how many bytes it gave, unless it failed.
pub fn pull<R: Source>(source: &mut R, buffer: &mut Vec<u8>) -> Option<usize>
    ensures given { IfSome result (λ n. Consumes (R.left source.old) (R.left source.new) (take n buffer.new.items)) }
    ensures within { IfSome result (λ n. n ≤ vec_len buffer.new) }
    ensures room { vec_len buffer.new ≡ vec_len buffer.old }
    ensures ended { result ≡ Some 0 → 0 < vec_len buffer.old → IsAtEnd (R.left source.new) }
    ensures kept { result ≡ None → Keeps (R.left source.old) (R.left source.new) }
    ensures calls { R.calls source.new ≡ R.calls source.old + 1 }
    ensures failed { result ≡ None → R.failed source.old < R.failed source.new }
    ensures sound { IfSome result (λ n. R.failed source.new ≡ R.failed source.old) }
    ensures once { R.failed source.new ≤ R.failed source.old + 1 }
{
    match source.pull(buffer) {
        Ok(count) => Some(count),
        Err(_) => None,
    }
}
