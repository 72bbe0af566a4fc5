//! Where the first empty line ends in a text that comes in pieces (RFC 9112, section 2.1).
ghost use Rattle.std.specs.Prelude.{◌≡◌, length};
ghost use Rattle.as2_framing.specs.Scanning.{EndsWithin, with_byte, may_end, missing_of, scan_from};

/// What stands of the line that a text ends in.
#[derive(Clone, Copy, Debug, PartialEq, Eq)]
pub enum LineSoFar {
    /// No byte.
    Nothing,
    /// CR alone.
    Return,
    /// More than that.
    Text,
}

impl LineSoFar {
    /// The same with this byte more.
    fn with_byte(self, byte: u8) -> LineSoFar
        ensures { result ≡ with_byte self byte }
    {
        match byte {
            b'\n' => LineSoFar::Nothing,
            b'\r' if self == LineSoFar::Nothing => LineSoFar::Return,
            _ => LineSoFar::Text,
        }
    }

    /// How many bytes are missing of an empty line at least.
    pub fn missing(self) -> usize
        ensures { result ≡ missing_of self }
    {
        if self.may_end() { 1 } else { 2 }
    }

    /// Whether LF makes it an empty line.
    fn may_end(self) -> bool
        ensures { result ≡ may_end self }
    {
        self != LineSoFar::Text
    }
}

/// What a part of a text does to the line that it goes on with.
#[derive(Clone, Copy, Debug, PartialEq, Eq)]
pub enum Scanned {
    /// So many of its bytes end the first empty line.
    Ended(usize),
    /// No empty line ends in it, and this stands of its last line.
    Open(LineSoFar),
}

/// Looks at each byte once, up to the end of the first empty line, where that stands of the line before them.
pub fn scan(line: LineSoFar, bytes: &[u8]) -> Scanned
    ensures exact { result ≡ scan_from 0 line bytes.now }
    ensures within { EndsWithin (length bytes.now) result }
{
    let mut line = line;
    for (i, byte) in bytes.iter().enumerate() {
        if *byte == b'\n' && line.may_end() {
            return Scanned::Ended(i + 1);
        }
        line = line.with_byte(*byte);
    }
    Scanned::Open(line)
}
