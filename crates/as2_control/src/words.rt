//! The words of a command line, each a field.
ghost use Rattle.std.specs.Prelude.{◌≡◌, ℕ, ◌+◌, ◌^◌, ◌<◌, ◌++◌, List, IfNone, IfOk, IfSome, IsTrue, IsUtf8, OnOk, false, length, map, string_bytes};
ghost use Rattle.as2_control.specs.Demands.{AreWords, words_text};

use crate::fields::{first_field, put_field, room_behind};
use std::alloc::{AllocError, Global};

/// How many words a demand may have.
pub const MOST_WORDS: usize = 256;

/// What is left of a room behind words. None: they don't fit into it.
pub(crate) fn room_behind_words(room: u32, words: &[String]) -> Option<u32>
    ensures left { IfSome result (λ left. left + length (words_text (map string_bytes words.now)) ≡ room) }
    ensures none { IfNone result (room < length (words_text (map string_bytes words.now))) }
{
    let mut left = room;
    for word in words {
        left = room_behind(left, word.as_bytes())?;
    }
    Some(left)
}

/// Appends words to a text.
pub(crate) fn put_words(text: &mut Vec<u8>, words: &[String]) -> Result<(), AllocError>
    requires { length (words_text (map string_bytes words.now)) < 2 ^ 32 }
    ensures { OnOk result (text.new.items ≡ text.old.items ++ words_text (map string_bytes words.now)) }
{
    for word in words {
        put_field(text, word.as_bytes())?;
    }
    Ok(())
}

/// Whether a text is words, and no more of them than a demand may have.
pub(crate) fn is_words(text: &[u8]) -> bool
    requires { length text.now < 2 ^ 32 }
    ensures yes { IsTrue result → (words : List (List ℕ)) × AreWords text.now words }
    ensures no { result ≡ false → (words : List (List ℕ)) → ¬ AreWords text.now words }
{
    let mut count = 0;
    let mut rest = text;
    while let Some((word, behind)) = first_field(rest) {
        if count == MOST_WORDS || str::from_utf8(word).is_err() {
            return false;
        }
        count += 1;
        rest = behind;
    }
    rest.is_empty()
}

/// The word of these bytes.
pub(crate) fn made_word(alloc: Global, bytes: &[u8]) -> Result<String, AllocError>
    requires { IsUtf8 bytes.now }
    ensures { IfOk result (λ word. string_bytes word ≡ bytes.now) }
{
    String::from_str(alloc, str::from_utf8(bytes).unwrap())
}

/// The words of a text that is words.
pub(crate) fn read_words(alloc: Global, text: &[u8]) -> Result<Vec<String>, AllocError>
    requires short { length text.now < 2 ^ 32 }
    requires words { (words : List (List ℕ)) × AreWords text.now words }
    ensures { IfOk result (λ words. AreWords text.now (map string_bytes words.items)) }
{
    let mut words = Vec::new(alloc);
    let mut rest = text;
    while let Some((word, behind)) = first_field(rest) {
        words.push(made_word(alloc, word)?)?;
        rest = behind;
    }
    Ok(words)
}
