//! Command lines of the station: what they come to, also where standard input is cut, or calls of the streams fail, at each place.
use crate::ended::Ended;
use crate::given::{Given, add, given_by};
use crate::scene::{Asked, Runs};
use script_lines::{Answer, Trouble};
use std::alloc::Global;

/// How many runs there were, and how many came to what the first one did.
#[derive(Drop)]
struct Tally {
    first: Option<Answer>,
    same: u64,
    runs: u64,
}

impl Tally {
    fn new() -> Tally {
        Tally {
            first: None,
            same: 0,
            runs: 0,
        }
    }

    /// Counts a run that came to that.
    fn add(&mut self, told: Answer) {
        self.runs = self.runs.saturating_add(1);
        match &self.first {
            None => {
                self.first = Some(told);
                self.same = 1;
            }
            Some(first) if first.bytes.as_slice() == told.bytes.as_slice() => {
                self.same = self.same.saturating_add(1);
            }
            Some(_) => {}
        }
    }

    /// Answers with the counts, and with what the first run came to.
    fn say(&self, answer: &mut Answer) {
        answer.say_number(self.same);
        answer.say(" of ");
        answer.say_number(self.runs);
        answer.say(": ");
        if let Some(first) = &self.first {
            answer.say_bytes(first.bytes.as_slice());
        }
    }
}

/// What a command line came to, as it is answered.
fn told_of(alloc: Global, ended: &Ended, answer: &mut Answer) -> Answer {
    let mut told = Answer::new(alloc);
    ended.say(&mut told);
    if let Err(trouble) = told.whole() {
        answer.fail(trouble);
    }
    told
}

/// A copy of the bytes.
fn copied(bytes: Option<&[u8]>, answer: &mut Answer) -> Vec<u8> {
    match bytes.unwrap_or(&[]).to_vec(answer.alloc()) {
        Ok(copy) => copy,
        Err(_) => {
            answer.fail(Trouble::Memory);
            Vec::new(answer.alloc())
        }
    }
}

/// The bytes in two parts.
fn cut_at(bytes: &[u8], at: usize, answer: &mut Answer) -> Vec<Vec<u8>> {
    let mut parts = Vec::new(answer.alloc());
    let front = copied(bytes.get(..at), answer);
    add(&mut parts, front, answer);
    let behind = copied(bytes.get(at..), answer);
    add(&mut parts, behind, answer);
    parts
}

/// The bytes of a text.
fn text_bytes(asked: &Asked<'_>, name: &str, answer: &mut Answer) -> Vec<u8> {
    answer.bytes_of(asked.settings.text(name).unwrap_or(""))
}

/// Runs a command line, and answers with what it came to.
fn run<D: Runs>(asked: &Asked<'_>, desk: &mut D, answer: &mut Answer) {
    let given = given_by(asked, answer);
    desk.run(answer.alloc(), &given).say(answer);
}

/// Runs a command line once for each place in standard input, which is cut there into two parts.
fn cut_each<D: Runs>(asked: &Asked<'_>, desk: &mut D, answer: &mut Answer) {
    let mut given = given_by(asked, answer);
    let input = text_bytes(asked, "input", answer);
    let mut tally = Tally::new();
    for at in 1..=input.len() {
        given.parts = cut_at(input.as_slice(), at, answer);
        let ended = desk.run(answer.alloc(), &given);
        tally.add(told_of(answer.alloc(), &ended, answer));
    }
    tally.say(answer);
}

/// Runs a command line of which so many calls succeed. The bytes that were written are left aside if they are the wanted ones, and so
/// is whether something was read.
fn run_cut_off<D: Runs>(
    desk: &mut D,
    given: &Given<'_>,
    wanted: &[u8],
    answer: &mut Answer,
) -> Answer {
    let mut ended = desk.run(answer.alloc(), given);
    if ended.output.as_slice() == wanted {
        ended.output.clear();
    }
    ended.is_unread = false;
    told_of(answer.alloc(), &ended, answer)
}

/// Runs a command line once for each byte of standard input: so many reads, of a byte each, succeed before it, and nothing is written.
fn fail_each_read<D: Runs>(asked: &Asked<'_>, desk: &mut D, answer: &mut Answer) {
    let mut given = given_by(asked, answer);
    let input = text_bytes(asked, "input", answer);
    given.calls.reads.most = 1;
    let mut tally = Tally::new();
    for count in 0..input.len() {
        given.calls.reads.sound = count;
        tally.add(run_cut_off(desk, &given, b"", answer));
    }
    tally.say(answer);
}

/// Runs a command line once for each byte of the text `output`: so many writes, of a byte each, succeed before it, and the bytes before
/// it are written.
fn fail_each_write<D: Runs>(asked: &Asked<'_>, desk: &mut D, answer: &mut Answer) {
    let mut given = given_by(asked, answer);
    let output = text_bytes(asked, "output", answer);
    given.calls.writes.most = 1;
    let mut tally = Tally::new();
    for count in 0..output.len() {
        given.calls.writes.sound = count;
        let wanted = output.as_slice().get(..count).unwrap_or(b"");
        tally.add(run_cut_off(desk, &given, wanted, answer));
    }
    tally.say(answer);
}

/// Answers whether the last command line left so many bytes of the part that it read last, and so many parts behind it, or more.
fn say_left<D: Runs>(desk: &D, words: &str, answer: &mut Answer) {
    let (bytes, parts) = words.split_once(" ").unwrap_or((words, ""));
    let (bytes, parts) = (answer.length_in(bytes), answer.length_in(parts));
    let (left, behind) = desk.unread();
    answer.say_whether(left >= bytes && behind >= parts);
}

/// Answers to the verbs of command lines, which are run at the desk; whether it is one.
pub fn answer<D: Runs>(asked: &Asked<'_>, desk: &mut D, answer: &mut Answer) -> bool {
    match asked.verb {
        "run" => run(asked, desk, answer),
        "unread-at-least" => say_left(desk, asked.words, answer),
        "given-to-network" => answer.say_bytes(desk.given_to_network()),
        "made-files" => answer.say_bytes(desk.made_files()),
        "cut-each" => cut_each(asked, desk, answer),
        "fail-each-read" => fail_each_read(asked, desk, answer),
        "fail-each-write" => fail_each_write(asked, desk, answer),
        _ => return false,
    }
    true
}
