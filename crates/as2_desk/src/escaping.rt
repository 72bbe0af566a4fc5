//! Texts that others chose, as they are shown: no byte of theirs but one that prints reaches the terminal.
ghost use Rattle.std.specs.Prelude.{◌≡◌, ◌<◌, OnOk};
ghost use Rattle.std.specs.Io.KnownBytes.{Appends};
ghost use Rattle.as2_desk.specs.Escapes.{digit, escaped_text, escaped_byte, is_shown};

use std::io;
use std::io::Write;

/// The hexadecimal digit of a number below 16.
fn digit(number: u8) -> u8
    requires { number < 16 }
    ensures { result ≡ digit number }
{
    if number < 10 {
        b'0' + number
    } else {
        b'a' + (number - 10)
    }
}

/// Whether the byte stands for itself: it prints, and is neither a quote nor a backslash.
fn is_shown(byte: u8) -> bool
    ensures { result ≡ is_shown byte }
{
    b' ' <= byte && byte <= b'~' && byte != b'"' && byte != b'\\'
}

/// Writes a byte, or its number.
fn write_byte<E: Write>(byte: u8, errors: &mut E) -> io::Result<()>
    ensures { OnOk result (Appends (E.contents errors.old) (E.contents errors.new) (escaped_byte byte)) }
{
    if is_shown(byte) {
        return errors.write_all(&[byte]);
    }
    errors.write_all(&[b'\\', b'x', digit(byte / 16), digit(byte % 16)])
}

/// Writes bytes, one by one.
fn write_bytes<E: Write>(bytes: &[u8], errors: &mut E) -> io::Result<()>
    ensures { OnOk result (Appends (E.contents errors.old) (E.contents errors.new) (escaped_text bytes.now)) }
{
    for byte in bytes {
        write_byte(*byte, errors)?;
    }
    Ok(())
}

/// Writes a text.
pub(crate) fn write_escaped<E: Write>(text: &str, errors: &mut E) -> io::Result<()>
    ensures { OnOk result (Appends (E.contents errors.old) (E.contents errors.new) (escaped_text text.now)) }
{
    write_bytes(text.as_bytes(), errors)
}
