//! What entries are told by.
use as2_exchange::{Attempt, ReceiptDelivery, ReceiptStage};
use as2_mdn::ReceiptMic;
use script_lines::Answer;

/// How the receipt that is owed for a document stands.
pub fn receipt_stage_word(receipt_stage: ReceiptStage) -> &'static str {
    match receipt_stage {
        ReceiptStage::Unasked => "unasked",
        ReceiptStage::Pending => "pending",
        ReceiptStage::Sent => "sent",
    }
}

/// Whether a try is open.
pub fn attempt_word(attempt: Attempt) -> &'static str {
    match attempt {
        Attempt::Idle => "idle",
        Attempt::Running => "running",
        Attempt::Last => "last",
        Attempt::Used => "used",
    }
}

/// Answers with how a receipt is asked for.
pub fn say_how(answer: &mut Answer, how: &ReceiptDelivery) {
    match how {
        ReceiptDelivery::NoReceipt => answer.say("no receipt"),
        ReceiptDelivery::Sync => answer.say("receipt at once"),
        ReceiptDelivery::Async(address) => {
            answer.say("receipt to ");
            answer.say_bytes(address.as_slice());
        }
    }
}

/// Answers with the text of a MIC.
pub fn say_mic(answer: &mut Answer, mic: &Option<ReceiptMic>) {
    match mic {
        None => answer.say("no MIC"),
        Some(mic) => {
            answer.say("MIC ");
            answer.say_bytes(mic.text.bytes());
        }
    }
}

/// Answers with when something is due.
pub fn say_due(answer: &mut Answer, due: Option<u64>) {
    match due {
        None => answer.say(", not due"),
        Some(due) => {
            answer.say(", due ");
            answer.say_number(due);
        }
    }
}
