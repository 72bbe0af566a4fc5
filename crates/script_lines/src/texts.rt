//! Texts as a script spells them: signs in braces, and bytes behind a backslash.
use crate::settings::Settings;
use crate::trouble::Trouble;
use std::alloc::Global;

/// The number that a word spells.
pub fn number_in(word: &str) -> Result<u64, Trouble> {
    match word.parse::<u64>() {
        Ok(number) => Ok(number),
        Err(_) => Err(Trouble::Unreadable("no number")),
    }
}

/// Adds a text so many times, each time with its number, from 0, in place of `#`.
fn add_times(alloc: Global, out: &mut String, text: &str, count: u64) -> Result<(), Trouble> {
    if !text.contains("#") {
        out.push_str(text.repeat(alloc, count as usize)?.as_str())?;
        return Ok(());
    }
    for number in 0..count {
        let digits = number.to_string(alloc)?;
        out.push_str(text.replace(alloc, "#", digits.as_str())?.as_str())?;
    }
    Ok(())
}

/// Adds what a sign stands for. A name stands for its text, and `NAME WORD` for the text with the word in place of each `%`.
/// `TEXT*COUNT` stands for a text, or the one of that name, so many times.
fn add_sign(
    alloc: Global,
    out: &mut String,
    sign: &str,
    settings: &Settings,
) -> Result<(), Trouble> {
    if let Some(text) = settings.text(sign) {
        out.push_str(text)?;
        return Ok(());
    }
    if let Some((name, word)) = sign.split_once(" ")
        && let Some(text) = settings.text(name)
    {
        out.push_str(text.replace(alloc, "%", word)?.as_str())?;
        return Ok(());
    }
    match sign.rsplit_once("*") {
        Some((text, count)) => {
            let text = settings.text(text).unwrap_or(text);
            add_times(alloc, out, text, number_in(count)?)
        }
        None => Err(Trouble::Unreadable("no text of that name")),
    }
}

/// The text with what its signs stand for. A brace behind a backslash begins no sign.
pub fn expanded(alloc: Global, text: &str, settings: &Settings) -> Result<String, Trouble> {
    let mut out = String::new(alloc);
    for (at, piece) in text.split("{").enumerate() {
        if at == 0 {
            out.push_str(piece)?;
        } else if out.as_str().ends_with("\\") {
            out.push_str("{")?;
            out.push_str(piece)?;
        } else {
            let Some((sign, behind)) = piece.split_once("}") else {
                return Err(Trouble::Unreadable("no closing brace"));
            };
            add_sign(alloc, &mut out, sign, settings)?;
            out.push_str(behind)?;
        }
    }
    Ok(out)
}

/// The byte that a letter behind a backslash stands for; None where it is itself.
fn escaped(letter: char) -> Option<u8> {
    match letter {
        'r' => Some(b'\r'),
        'n' => Some(b'\n'),
        't' => Some(b'\t'),
        's' => Some(b' '),
        _ => None,
    }
}

/// Adds the byte of two hexadecimal digits, and gives what is left.
fn add_byte<'a>(bytes: &mut Vec<u8>, digits: &'a str) -> Result<&'a str, Trouble> {
    let (Some(two), Some(rest)) = (digits.get(..2), digits.get(2..)) else {
        return Err(Trouble::Unreadable("no two digits"));
    };
    let Ok(byte) = u8::from_str_radix(two, 16) else {
        return Err(Trouble::Unreadable("no two digits"));
    };
    bytes.push(byte)?;
    Ok(rest)
}

/// Adds what is spelled behind a backslash, and gives what is left.
fn add_escaped<'a>(bytes: &mut Vec<u8>, behind: &'a str) -> Result<&'a str, Trouble> {
    if let Some(digits) = behind.strip_prefix("x") {
        return add_byte(bytes, digits);
    }
    let mut letters = behind.chars();
    match letters.next() {
        Some(letter) if let Some(byte) = escaped(letter) => {
            bytes.push(byte)?;
            Ok(letters.as_str())
        }
        _ => Ok(behind),
    }
}

/// The bytes that a text spells: `\r`, `\n`, `\t`, `\s` are CR, LF, tab and a blank, `\xHH` a byte, and what else stands behind a
/// backslash is itself.
pub fn bytes_of(alloc: Global, text: &str) -> Result<Vec<u8>, Trouble> {
    let mut bytes = Vec::new(alloc);
    let mut is_escaped = false;
    for piece in text.split("\\") {
        if is_escaped && piece.is_empty() {
            bytes.push(b'\\')?;
            is_escaped = false;
            continue;
        }
        let rest = if is_escaped {
            add_escaped(&mut bytes, piece)?
        } else {
            piece
        };
        bytes.extend_from_slice(rest.as_bytes())?;
        is_escaped = true;
    }
    Ok(bytes)
}
