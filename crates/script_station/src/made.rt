//! Texts that are made and changed.
use script_lines::{Answer, Trouble};
use std::alloc::AllocError;

/// A text that may have been made; an empty one where memory runs out.
pub fn made(text: Result<String, AllocError>, answer: &mut Answer) -> String {
    match text {
        Ok(text) => text,
        Err(_) => {
            answer.fail(Trouble::Memory);
            String::new(answer.alloc())
        }
    }
}

/// A copy of a text.
pub fn copied(text: &str, answer: &mut Answer) -> String {
    made(String::from_str(answer.alloc(), text), answer)
}

/// Makes a change in a text.
pub fn change(text: &mut String, old: &str, new: &str, answer: &mut Answer) {
    *text = made(text.replace(answer.alloc(), old, new), answer);
}
