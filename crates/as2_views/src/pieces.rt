//! Pieces of lines.
ghost use Rattle.std.specs.Prelude.{◌≡◌, ◌≤◌, ◌++◌, codes, decimal, replicate, OnOk};
ghost use Rattle.as2_names.specs.Ascii.{space};
ghost use Rattle.as2_names.specs.Names.{name_spelling};
ghost use Rattle.as2_views.specs.Layout.{from_to, left_in, right_in};

use as2_text::AsName;
use itoa::Buffer;
use std::alloc::AllocError;

/// The most places that a piece is given.
const PLACES: usize = 16;

/// Appends a text. Where memory runs out, a part of it may be appended.
pub fn add_text(text: &mut Vec<u8>, more: &[u8]) -> Result<(), AllocError>
    ensures { OnOk result (text.new.items ≡ text.old.items ++ more.now) }
{
    text.extend_from_slice(more)
}

/// Appends a blank and a text.
pub fn add_word(text: &mut Vec<u8>, word: &[u8]) -> Result<(), AllocError>
    ensures { OnOk result (text.new.items ≡ text.old.items ++ codes " " ++ word.now) }
{
    add_text(text, b" ")?;
    add_text(text, word)
}

/// Appends a number, in decimal digits.
pub fn add_number(text: &mut Vec<u8>, number: u64) -> Result<(), AllocError>
    ensures { OnOk result (text.new.items ≡ text.old.items ++ decimal number) }
{
    add_text(text, Buffer::new().format(number).as_bytes())
}

/// Appends blanks.
fn add_blanks(text: &mut Vec<u8>, count: usize) -> Result<(), AllocError>
    requires { count ≤ 16 }
    ensures { OnOk result (text.new.items ≡ text.old.items ++ replicate count space) }
{
    add_text(text, &[b' '; PLACES][..count])
}

/// Appends a number at the right end of so many places, 16 at most.
pub fn add_right(text: &mut Vec<u8>, places: usize, number: u64) -> Result<(), AllocError>
    requires { places ≤ 16 }
    ensures { OnOk result (text.new.items ≡ text.old.items ++ right_in places (decimal number)) }
{
    let mut buffer = Buffer::new();
    let digits = buffer.format(number).as_bytes();
    add_blanks(text, places.saturating_sub(digits.len()))?;
    add_text(text, digits)
}

/// Appends a text at the left end of so many places, 16 at most.
pub fn add_left(text: &mut Vec<u8>, places: usize, word: &[u8]) -> Result<(), AllocError>
    requires { places ≤ 16 }
    ensures { OnOk result (text.new.items ≡ text.old.items ++ left_in places word.now) }
{
    add_text(text, word)?;
    add_blanks(text, places.saturating_sub(word.len()))
}

/// Appends a name as it is spelled.
pub fn add_name(text: &mut Vec<u8>, name: &AsName) -> Result<(), AllocError>
    ensures { OnOk result (text.new.items ≡ text.old.items ++ name_spelling name.now) }
{
    add_text(text, name.spelling().as_str().as_bytes())
}

/// Appends from whom and to whom a document is.
pub fn add_from_to(text: &mut Vec<u8>, from: &AsName, to: &AsName) -> Result<(), AllocError>
    ensures { OnOk result (text.new.items ≡ text.old.items ++ from_to from.now to.now) }
{
    add_name(text, from)?;
    add_text(text, b" -> ")?;
    add_name(text, to)
}
