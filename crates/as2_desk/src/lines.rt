//! Lines that are put together in place: they take no memory, and each is written by one call.
ghost use Rattle.std.specs.Prelude.{◌≡◌, ◌+◌, ◌≤◌, ◌++◌, length};

use arrayvec::ArrayString;

/// A line. The longest has 120 bytes, and a number that itoa writes is known to have 40 at most.
pub(crate) type Line = ArrayString<128>;

/// Three texts, one behind the other.
pub(crate) fn joined(start: &str, middle: &str, end: &str) -> Line
    requires { length start.now + (length middle.now + length end.now) ≤ 128 }
    ensures { result.bytes ≡ start.now ++ (middle.now ++ end.now) }
{
    let mut line = Line::new();
    line.push_str(start);
    line.push_str(middle);
    line.push_str(end);
    line
}
