//! Command lines.
use crate::arguments::{Arguments, parts_of};
use as2_commands::{
    Command, EvidenceRequest, Filter, FirstNumber, Format, Operating, Options, Question,
    RunOptions, Serving, ServingWaits, Submission, Task, options_in,
};
use as2_text::Moment;
use clap::Error;
use script_lines::Answer;

/// The text that a word spells.
fn text_in(word: &str, answer: &mut Answer) -> String {
    match String::from_utf8(answer.bytes_of(word)) {
        Ok(text) => text,
        Err(_) => {
            answer.lack("no text");
            String::new(answer.alloc())
        }
    }
}

/// The texts of the words of a command line, which blanks part; a blank in a word is spelled `\s`.
fn texts_in(line: &str, answer: &mut Answer) -> Vec<String> {
    let mut texts = Vec::new(answer.alloc());
    for word in &parts_of(line, " ", answer) {
        let pushed = texts.push(text_in(word, answer));
        answer.unless_memory(pushed);
    }
    texts
}

/// The texts as a command line has them.
fn words_of<'a>(texts: &'a [String], answer: &mut Answer) -> Vec<&'a str> {
    let mut words = Vec::new(answer.alloc());
    for text in texts {
        let pushed = words.push(text.as_str());
        answer.unless_memory(pushed);
    }
    words
}

/// Answers with a document that is to be handed in.
fn say_submission(answer: &mut Answer, given: &Submission<'_>) {
    answer.say("submit ");
    answer.say(given.path);
    answer.say(" from ");
    answer.say_bytes(given.from.bytes());
    answer.say(" to ");
    answer.say_bytes(given.to.bytes());
}

/// Answers with what is to be served.
fn say_serving(answer: &mut Answer, given: &Serving<'_>) {
    answer.say("serve ");
    answer.say(given.address);
    answer.say(", ");
    answer.say_number(given.count);
    answer.say(" connections, ");
    say_waits(answer, given.waits);
    say_moment(answer, given.moment);
}

/// Answers with how long a peer is waited for.
fn say_waits(answer: &mut Answer, waits: ServingWaits) {
    answer.say_number(waits.seconds);
    answer.say(" seconds, idle ");
    answer.say_number(waits.idle);
    answer.say(", ");
}

/// Answers with the moment of what is answered.
fn say_moment(answer: &mut Answer, moment: Option<Moment>) {
    match moment {
        Some(moment) => {
            answer.say("each at ");
            answer.say_number(moment.seconds());
        }
        None => answer.say("at the clock's moments"),
    }
}

/// Answers with a station that is to run.
fn say_operating(answer: &mut Answer, given: &Operating<'_>) {
    answer.say("run ");
    answer.say(given.address);
    answer.say(", ");
    if let Some(path) = given.control {
        answer.say("asked at ");
        answer.say(path);
        answer.say(", ");
    }
    say_waits(answer, given.waits);
    if let Some(hosts) = given.receipts_to {
        answer.say("receipts to ");
        answer.say(hosts);
        answer.say(", ");
    }
    say_moment(answer, given.moment);
}

/// Answers with what is to be listed.
fn say_filter(answer: &mut Answer, given: &Filter) {
    match given {
        Filter::Inbox => answer.say("list in"),
        Filter::Outbox(None) => answer.say("list out"),
        Filter::Outbox(Some(state)) => {
            answer.say("list out ");
            answer.say_name(state);
        }
    }
}

/// Answers with a word and a number.
fn say_with(answer: &mut Answer, word: &str, number: u64) {
    answer.say(word);
    answer.say(" ");
    answer.say_number(number);
}

/// Answers with a format, where it isn't that for people.
fn say_format(answer: &mut Answer, format: Format) {
    if format == Format::Json {
        answer.say(" in objects");
    }
}

/// Answers with what is asked of the records once.
fn say_question(answer: &mut Answer, question: &Question<Submission<'_>>) {
    match question {
        Question::Submit(given) => say_submission(answer, given),
        Question::Tick => answer.say("tick"),
        Question::Resend(number) => say_with(answer, "resend", *number),
        Question::List(given, idle, format) => {
            say_filter(answer, given);
            say_format(answer, *format);
            if *idle {
                answer.say(", whose state isn't looked at");
            }
        }
        Question::Outstanding(format) => {
            answer.say("outstanding");
            say_format(answer, *format)
        }
        Question::Show(number, format) => {
            say_with(answer, "show", *number);
            say_format(answer, *format)
        }
        Question::Fetch(number) => say_with(answer, "fetch", *number),
    }
}

/// Answers with what is to be done over the records.
fn say_command(answer: &mut Answer, command: &Command<'_, Submission<'_>>) {
    match command {
        Command::Post(false) => answer.say("post"),
        Command::Post(true) => answer.say("post, each reply noted"),
        Command::Ask(question) => say_question(answer, question),
        Command::Send(waits) => say_with(answer, "send", waits.seconds),
        Command::Serve(given) => say_serving(answer, given),
    }
}

/// Answers with what a command over the records is given besides.
fn say_run(answer: &mut Answer, run: &RunOptions) {
    answer.say(", first ");
    answer.say_number(run.first.get());
    answer.say(", moment ");
    answer.say_number(run.moment.seconds());
    answer.say(", at most ");
    answer.say_number(run.limit);
    answer.say(" MiB: ");
}

/// Answers with which document is to be proved, and where the files go.
fn say_wanted(answer: &mut Answer, wanted: &EvidenceRequest<'_>) {
    answer.say("evidence ");
    answer.say(wanted.mailbox.word());
    answer.say(" ");
    answer.say_number(wanted.number);
    answer.say(" in ");
    answer.say(wanted.folder);
}

/// Answers with what a command line says.
fn say_options(answer: &mut Answer, options: &Options<'_>) {
    answer.say(options.agreements);
    answer.say(", ");
    answer.say(options.store);
    match &options.task {
        Task::Check => answer.say(": check"),
        Task::Migrate => answer.say(": migrate"),
        Task::Verify(run, format) => {
            say_run(answer, run);
            answer.say("verify");
            say_format(answer, *format)
        }
        Task::GatherEvidence(run, wanted) => {
            say_run(answer, run);
            say_wanted(answer, wanted)
        }
        Task::Run(run, command) => {
            say_run(answer, run);
            say_command(answer, command)
        }
        Task::Operate(run, wanted) => {
            say_run(answer, run);
            say_operating(answer, wanted)
        }
        Task::Stop => answer.say(": stop"),
    }
}

/// Answers with what there is to say in place of options: a fault, which is told on the standard error, or what isn't.
fn say_error(answer: &mut Answer, error: &Error) {
    if error.use_stderr() {
        answer.say("fault ");
    }
    answer.say_name(&error.kind());
}

/// The clock's moment; none where it is `nothing`.
fn clock_in(word: &str, answer: &mut Answer) -> Option<u64> {
    match word {
        "nothing" => None,
        _ => Some(answer.number_in(word)),
    }
}

/// Answers with what the words ask for.
fn say_asked<'a>(answer: &mut Answer, words: &'a [&'a str], clock: Option<u64>) {
    match options_in(answer.alloc(), words, clock) {
        Ok(options) => say_options(answer, &options),
        Err(error) => say_error(answer, &error),
    }
}

/// `command-line CLOCK | WORD ..`: what the words ask for, at the moment of the clock.
fn read_line(rest: &str, answer: &mut Answer) {
    let mut arguments = Arguments::of(rest);
    let clock = clock_in(arguments.word(), answer);
    let texts = texts_in(arguments.rest, answer);
    let words = words_of(texts.as_slice(), answer);
    say_asked(answer, words.as_slice(), clock);
}

/// `first-number N`: the number, where it can be the first of a store.
fn say_first_number(rest: &str, answer: &mut Answer) {
    match FirstNumber::new(answer.number_in(rest)) {
        Some(first) => answer.say_number(first.get()),
        None => answer.say("nothing"),
    }
}

/// Answers to the verbs of command lines; whether it is one.
pub fn answer(verb: &str, rest: &str, answer: &mut Answer) -> bool {
    match verb {
        "command-line" => read_line(rest, answer),
        "first-number" => say_first_number(rest, answer),
        _ => return false,
    }
    true
}
