//! Moments, in seconds since the start of 1970.
use as2_names::Moment;
use script_lines::Answer;

/// `read-moment SECONDS`: the moment of so many seconds.
fn read_moment(rest: &str, answer: &mut Answer) {
    match Moment::new(answer.number_in(rest)) {
        Some(moment) => answer.say_number(moment.seconds()),
        None => answer.say("nothing"),
    }
}

/// `is-earlier SECONDS | SECONDS`: whether the first moment is before the second.
fn is_earlier(rest: &str, answer: &mut Answer) {
    let (left, right) = answer.two_words(rest);
    let left = Moment::new(answer.number_in(left));
    let right = Moment::new(answer.number_in(right));
    answer.say_whether(left < right);
}

/// Answers to the verbs of moments; whether it is one.
pub fn answer(verb: &str, rest: &str, answer: &mut Answer) -> bool {
    match verb {
        "read-moment" => read_moment(rest, answer),
        "is-earlier" => is_earlier(rest, answer),
        _ => return false,
    }
    true
}
