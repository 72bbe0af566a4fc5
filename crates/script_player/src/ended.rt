//! What a command line came to.
use script_lines::Answer;

/// What a command line came to.
#[derive(Drop)]
pub struct Ended {
    pub status: u8,
    /// Whether all was said that had to be said on standard error.
    pub told: bool,
    pub output: Vec<u8>,
    pub errors: Vec<u8>,
    /// Whether something stood on standard input, and no part of it was read.
    pub is_unread: bool,
}

/// Adds the lines of standard error, each behind `! `.
fn say_errors(answer: &mut Answer, errors: &[u8]) {
    let mut begins = true;
    for byte in errors {
        if begins {
            answer.say(if *byte == b'\n' { "!" } else { "! " });
        }
        answer.say_bytes(&[*byte]);
        begins = *byte == b'\n';
    }
}

impl Ended {
    /// Answers with the exit status, `untold` where something could not be said on standard error, and `unread` where standard input
    /// is so.
    fn say_status(&self, answer: &mut Answer) {
        answer.say_number(u64::from(self.status));
        if !self.told {
            answer.say(" untold");
        }
        if self.is_unread {
            answer.say(" unread");
        }
    }

    /// Answers with what a command line came to: a line of its status, then standard output, and the lines of standard error.
    pub fn say(&self, answer: &mut Answer) {
        self.say_status(answer);
        if self.output.is_empty() && self.errors.is_empty() {
            return;
        }
        answer.say("\n");
        answer.say_bytes(self.output.as_slice());
        say_errors(answer, self.errors.as_slice());
    }
}
