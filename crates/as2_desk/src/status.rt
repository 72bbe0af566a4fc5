//! How an end is told to a shell: by the exit status, and by a name.
ghost use Rattle.std.specs.Prelude.{◌≡◌, ◌≤◌, length};
ghost use Rattle.as2_desk.specs.Statuses.{end_name};

use as2_http::Served;

/// How a command line ended.
#[derive(Clone, Copy, Debug, PartialEq, Eq)]
pub struct Ran {
    /// The exit status: 0 done, 1 refused, 2 a faulty command line, 3 a fault of the store.
    pub status: u8,
    /// Whether what was to be said on standard error could be written. Hints that are said beside it don't count.
    pub told: bool,
}

/// What was asked for is done.
pub(crate) const DONE: u8 = 0;
/// It was refused, and why is said on standard error; or `verify` has findings, which stand on standard output.
pub(crate) const REFUSED: u8 = 1;
/// The command line is faulty, and nothing was begun.
pub(crate) const FAULTY: u8 = 2;
/// The store has a fault, and which is said on standard error.
pub(crate) const FAILED: u8 = 3;

/// The name of `end`, as it is spelled in `Served`.
pub(crate) fn end_name(end: Served) -> &'static str
    ensures name { result.now ≡ end_name end }
    ensures short { length result.now ≤ 20 }
{
    match end {
        Served::Closed => "Closed",
        Served::Truncated => "Truncated",
        Served::BadFraming => "BadFraming",
        Served::ReadFault => "ReadFault",
        Served::WriteFault => "WriteFault",
        Served::Memory => "Memory",
        Served::TooLong => "TooLong",
    }
}
