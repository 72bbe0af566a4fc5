//! Contents that are kept in pieces.
use crate::told::say_told;
use as2_mic::{Alg, Pieces, mic_of_pieces};
use script_lines::{Answer, Trouble};

/// Bytes that repeat after 251: 0, 1, .. 250, 0, ..
fn sample(length: usize, answer: &mut Answer) -> Vec<u8> {
    let mut bytes = Vec::new(answer.alloc());
    let mut next = 0u8;
    for _ in 0..length {
        if bytes.push(next).is_err() {
            answer.fail(Trouble::Memory);
            break;
        }
        next = if next >= 250 {
            0
        } else {
            next.saturating_add(1)
        };
    }
    bytes
}

/// The content that a line spells: `sample LENGTH`, or the bytes themselves.
pub fn content_of(text: &str, answer: &mut Answer) -> Vec<u8> {
    match text.strip_prefix("sample ") {
        Some(length) => sample(answer.length_in(length), answer),
        None => answer.bytes_of(text),
    }
}

/// The content, appended in steps of that many bytes.
pub fn in_steps(content: &[u8], step: usize, answer: &mut Answer) -> Pieces {
    let mut pieces = Pieces::new(answer.alloc());
    if step > 0 {
        for part in content.chunks(step) {
            answer.unless_memory(pieces.append(part));
        }
    }
    pieces
}

/// How many bytes the last piece has: none where there is no piece.
fn length_of_last(pieces: &Pieces) -> usize {
    match pieces.piece(pieces.count().saturating_sub(1)) {
        Some(piece) => piece.len(),
        None => 0,
    }
}

/// Answers with what is kept of a content in pieces.
fn say_kept(pieces: &Pieces, answer: &mut Answer) {
    let alloc = answer.alloc();
    let (length, count, last) = (pieces.len(), pieces.count(), length_of_last(pieces));
    answer.say_made(format!(in alloc; "bytes {length}, pieces {count}, last {last}, "));
    answer.say_bytes(mic_of_pieces(Alg::Sha1, pieces).bytes());
    answer.say(", ");
    answer.say_bytes(mic_of_pieces(Alg::Md5, pieces).bytes());
    answer.say(", ");
    answer.say_bytes(mic_of_pieces(Alg::Sha256, pieces).bytes());
    if pieces.piece(count).is_some() {
        answer.say(", and more");
    }
}

/// Answers with what is kept of a content that is appended in steps of that length, and where its pieces join to something else.
fn say_kept_in_steps(content: &[u8], step: &str, answer: &mut Answer) {
    let step = answer.step_in(step);
    let pieces = in_steps(content, step, answer);
    let mut told = Answer::new(answer.alloc());
    say_kept(&pieces, &mut told);
    say_told(answer, &told);
    match pieces.joined() {
        Ok(joined) if joined.as_slice() == content => {}
        Ok(_) => answer.say(", joined otherwise"),
        Err(_) => answer.fail(Trouble::Memory),
    }
}

/// `keep-content STEP .. | CONTENT`: what is kept of a content that is appended in such steps. That is how many bytes and pieces, how
/// many bytes in the last of these, and its MICs by SHA-1, by MD5 and by SHA-256.
fn keep_content(rest: &str, answer: &mut Answer) {
    let (steps, content) = answer.two_words(rest);
    let content = content_of(content, answer);
    for step in steps.split(" ") {
        say_kept_in_steps(content.as_slice(), step, answer);
    }
}

/// The content behind a step, appended in such steps.
fn stepped(words: &str, answer: &mut Answer) -> Pieces {
    let (step, content) = answer.cut(words, " ", "no step and content");
    let content = content_of(content, answer);
    let step = answer.step_in(step);
    in_steps(content.as_slice(), step, answer)
}

/// `same-contents STEP CONTENT | STEP CONTENT`: whether two contents, each appended in its steps, are the same, asked of each.
fn same_contents(rest: &str, answer: &mut Answer) {
    let (left, right) = answer.two_words(rest);
    let left = stepped(left, answer);
    let right = stepped(right, answer);
    for is_same in [left.same_bytes(&right), right.same_bytes(&left)] {
        answer.say_same(if is_same { b"yes" } else { b"no" });
    }
}

/// Appends more to a content, and answers with how many bytes there are then; with what is kept, where the memory isn't there.
fn say_appended(pieces: &mut Pieces, more: &[u8], answer: &mut Answer) {
    let alloc = answer.alloc();
    match pieces.append(more) {
        Ok(()) => answer.say_made(format!(in alloc; "bytes {}", pieces.len())),
        Err(_) => say_kept(pieces, answer),
    }
}

/// `append-content CONTENT | CONTENT`: how many bytes there are once the second is appended to the first; what is kept, where the
/// memory for that isn't there.
fn append_content(rest: &str, answer: &mut Answer) {
    let (first, second) = answer.two_words(rest);
    let first = content_of(first, answer);
    let second = content_of(second, answer);
    let mut pieces = in_steps(first.as_slice(), first.len(), answer);
    say_appended(&mut pieces, second.as_slice(), answer);
}

/// Answers to the verbs of contents; whether it is one.
pub fn answer(verb: &str, rest: &str, answer: &mut Answer) -> bool {
    match verb {
        "keep-content" => keep_content(rest, answer),
        "same-contents" => same_contents(rest, answer),
        "append-content" => append_content(rest, answer),
        _ => return false,
    }
    true
}
