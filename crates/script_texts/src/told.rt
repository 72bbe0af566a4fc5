//! What is told again and again.
use script_lines::Answer;

/// Answers with what was told, once where that is the same each time. The trouble that came as it was told is the answer's.
pub fn say_told(answer: &mut Answer, told: &Answer) {
    match told.whole() {
        Ok(bytes) => answer.say_same(bytes),
        Err(trouble) => answer.fail(trouble),
    }
}
