//! Faults of a command line that the parser of words lets pass.
use std::fmt;

/// Why the options say nothing: the first that is at fault.
#[derive(Clone, Copy, Debug, PartialEq, Eq)]
pub(crate) enum OptionFault<'a> {
    /// The option or value isn't there, or is no number that it may be.
    NoValue(&'a str),
    /// The option isn't there, or spells no AS2 name.
    NoName(&'a str),
    /// There is no listing of that kind.
    NoKind,
    /// There is no such state.
    NoState,
    /// There is no such format.
    NoFormat,
    /// There is neither a moment nor a clock that tells one.
    NoMoment,
    /// There is no such command.
    NoCommand,
}

impl fmt::Display for OptionFault<'_> {
    fn fmt<W: fmt::Write>(&self, f: &mut fmt::Formatter<W>) -> fmt::Result {
        match self {
            OptionFault::NoValue(option) => {
                write!(f, "'--{option}' has no value that can be read")
            }
            OptionFault::NoName(option) => write!(
                f,
                "'--{option} <NAME>' spells no AS2 name: 1 to 128 printable characters, between quotes where one \
                of them is a blank, a quote or a backslash, and a backslash before each of the last two"
            ),
            OptionFault::NoKind => f.write_str("'<KIND>' is 'out' or 'in'"),
            OptionFault::NoState => f.write_str("'--state <S>' is P, R, S, W or E"),
            OptionFault::NoFormat => f.write_str("'--format <FORMAT>' is 'text' or 'json'"),
            OptionFault::NoMoment => f.write_str(
                "the clock tells no moment from 0 to 253402300799, and '--moment <SECONDS>' gives none",
            ),
            OptionFault::NoCommand => f.write_str("there is no such command"),
        }
    }
}
