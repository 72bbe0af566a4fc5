//! The line of a try.
ghost use Rattle.std.specs.Prelude.{◌≡◌, ◌+◌, ◌≤◌, ◌++◌, length};
ghost use Rattle.as2_views.specs.Layout.{state_text};
ghost use Rattle.as2_mdn.specs.Details.{name_of};
ghost use Rattle.as2_sending.specs.Lines.{turn_line, subject, words};

use arrayvec::ArrayString;
use as2_exchange::Next;
use as2_mdn::DetailClass;
use as2_station::Became;
use itoa::Buffer;

/// The longest line has 58 bytes, and a number that itoa writes is known to have 40 at most.
type Line = ArrayString<128>;

/// The letter of a state.
fn letter(state: DetailClass) -> &'static str
    ensures text { result.now ≡ state_text state }
    ensures short { length result.now ≤ 1 }
{
    match state {
        DetailClass::P => "P",
        DetailClass::R => "R",
        DetailClass::S => "S",
        DetailClass::W => "W",
        DetailClass::E => "E",
    }
}

/// What was tried: the kind and the number.
pub(crate) fn subject(what: Next) -> Line
    ensures text { result.bytes ≡ subject what }
    ensures short { length result.bytes ≤ 49 }
{
    let (kind, number) = match what {
        Next::Receipt(number) => ("receipt ", number),
        Next::Document(number) => ("document ", number),
    };
    let mut line = Line::new();
    line.push_str(kind);
    line.push_str(Buffer::new().format(number));
    line
}

/// Appends what became of it.
fn add_words(line: &mut Line, became: Became)
    requires { length line.old.bytes ≤ 51 }
    ensures text { line.new.bytes ≡ line.old.bytes ++ words became }
    ensures short { length line.new.bytes ≤ length line.old.bytes + 26 }
{
    match became {
        Became::Settled(detail) => {
            line.push_str("settled ");
            line.push_str(letter(detail.class()));
            line.push_str(" ");
            line.push_str(detail.name());
        }
        Became::Delivered => line.push_str("delivered"),
        Became::TryFailed => line.push_str("try failed"),
        Became::AlreadySettled => line.push_str("already settled"),
    }
}

/// The line of a try.
pub fn line(what: Next, became: Became) -> Line
    ensures { result.bytes ≡ turn_line what became }
{
    let mut line = subject(what);
    line.push_str(": ");
    add_words(&mut line, became);
    line.push_str("\n");
    line
}
