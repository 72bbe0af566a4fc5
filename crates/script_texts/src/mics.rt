//! Digests and message integrity checks.
use crate::contents::{content_of, in_steps};
use crate::told::say_told;
use as2_mic::{Alg, Compared, Digester, MicField, MicText, mic_of};
use script_lines::Answer;

/// The digest of that name, or else SHA-1.
fn digest_in(word: &str, answer: &mut Answer) -> Alg {
    match Alg::named(word.as_bytes()) {
        Some(alg) => alg,
        None => {
            answer.lack("no digest of that name");
            Alg::Sha1
        }
    }
}

/// Answers with a digest, or `nothing`.
fn say_digest(answer: &mut Answer, alg: Option<Alg>) {
    match alg {
        Some(alg) => answer.say_name(&alg),
        None => answer.say("nothing"),
    }
}

/// Answers with a MIC. Its copy is the same.
fn say_mic(answer: &mut Answer, mic: MicText) {
    let copy = mic;
    answer.say_same(mic.bytes());
    answer.say_same(copy.bytes())
}

/// `read-digest NAME`: the digest of that name.
fn read_digest(rest: &str, answer: &mut Answer) {
    let name = answer.bytes_of(rest);
    say_digest(answer, Alg::named(name.as_slice()));
}

/// `first-digest LIST`: the first digest of a list whose name is known.
fn first_digest(rest: &str, answer: &mut Answer) {
    let list = answer.bytes_of(rest);
    say_digest(answer, Alg::first_of(list.as_slice()));
}

/// `spell-digest NAME`: how the digest's name is written.
fn spell_digest(rest: &str, answer: &mut Answer) {
    let alg = digest_in(rest, answer);
    answer.say(alg.name());
}

/// The digest that the first word of a line names, and what stands behind the blank.
fn cut_digest<'a>(text: &'a str, answer: &mut Answer) -> (Alg, &'a str) {
    let (digest, behind) = answer.cut(text, " ", "one word alone");
    (digest_in(digest, answer), behind)
}

/// `mic DIGEST CONTENT`: the MIC of a content.
fn mic(rest: &str, answer: &mut Answer) {
    let (alg, content) = cut_digest(rest, answer);
    let content = content_of(content, answer);
    say_mic(answer, mic_of(alg, content.as_slice()));
}

/// Answers with the MIC of a content that is handed over in pieces of that length.
fn say_mic_in_turn(alg: Alg, content: &[u8], size: &str, answer: &mut Answer) {
    let size = answer.step_in(size);
    let mut digester = Digester::new(alg);
    if size > 0 {
        for piece in content.chunks(size) {
            digester.update(piece);
        }
    }
    answer.say_same(digester.finish().bytes());
}

/// `mic-in-pieces DIGEST SIZE .. | CONTENT`: the MIC of a content that is handed over in pieces, for each of these sizes.
fn mic_in_pieces(rest: &str, answer: &mut Answer) {
    let (how, content) = answer.two_words(rest);
    let (alg, sizes) = cut_digest(how, answer);
    let content = content_of(content, answer);
    for size in sizes.split(" ") {
        say_mic_in_turn(alg, content.as_slice(), size, answer);
    }
}

/// `hold-mic TEXT`: the text of a MIC as it is held.
fn hold_mic(rest: &str, answer: &mut Answer) {
    let text = answer.bytes_of(rest);
    match MicText::of(text.as_slice()) {
        Some(held) => answer.say_bytes(held.bytes()),
        None => answer.say("nothing"),
    }
}

/// Answers with how a content compares with a MIC, once where that is the same each time.
fn say_compared(answer: &mut Answer, compared: Compared) {
    let mut told = Answer::new(answer.alloc());
    told.say_name(&compared);
    say_told(answer, &told);
}

/// `compare-mic CONTENT | TEXT`: how a content compares with the MIC that a field gives, in one piece and as it is kept.
fn compare_mic(rest: &str, answer: &mut Answer) {
    let (content, text) = answer.two_words(rest);
    let content = content_of(content, answer);
    let text = answer.bytes_of(text);
    match MicField::parse(text.as_slice()) {
        Some(field) => {
            let kept = in_steps(content.as_slice(), content.len(), answer);
            say_compared(answer, field.compare(content.as_slice()));
            say_compared(answer, field.compare_pieces(&kept));
        }
        None => answer.say("nothing"),
    }
}

/// Answers to the verbs of MICs; whether it is one.
pub fn answer(verb: &str, rest: &str, answer: &mut Answer) -> bool {
    match verb {
        "read-digest" => read_digest(rest, answer),
        "first-digest" => first_digest(rest, answer),
        "spell-digest" => spell_digest(rest, answer),
        "mic" => mic(rest, answer),
        "mic-in-pieces" => mic_in_pieces(rest, answer),
        "hold-mic" => hold_mic(rest, answer),
        "compare-mic" => compare_mic(rest, answer),
        _ => return false,
    }
    true
}
