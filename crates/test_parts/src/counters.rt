//! Counters: `counters` and what happened, in order; the answer has TEC, REC and mode after each word. `is_error` and one thing.

use crate::answer::{Answer, word};
use wl_confine::{Counters, ErrorKind, Happened, Mode};

/// True if the subject is one of this module's.
pub fn tell(subject: &str, words: &[&str], answer: &mut Answer) -> bool {
    match subject {
        "is_error" => {
            answer.takes(words, 1);
            let is_error = happened(word(words, 0), answer).is_error();
            answer.show(&is_error);
        }
        "counters" => tell_counters(words, answer),
        _ => return false,
    }
    true
}

fn tell_counters(words: &[&str], answer: &mut Answer) {
    let mut counters = Counters::new();
    for word in words {
        let (word, count) = answer.repeated(word);
        let happened = happened(word, answer);
        for _ in 0..count {
            counters.apply(happened);
        }
        show_counters(&counters, answer);
    }
}

/// Writes TEC, REC and mode.
pub fn show_counters(counters: &Counters, answer: &mut Answer) {
    answer.put(&counters.tec());
    answer.say("/");
    answer.put(&counters.rec());
    answer.say("/");
    answer.say(mode_name(counters.mode()));
    answer.say(" ");
}

pub fn mode_name(mode: Mode) -> &'static str {
    match mode {
        Mode::Active => "Active",
        Mode::Passive => "Passive",
        Mode::Off => "Off",
    }
}

fn happened(word: &str, answer: &mut Answer) -> Happened {
    match word {
        "Nothing" => Happened::Nothing,
        "RxAfterFlag" => Happened::RxAfterFlag,
        "RxFlagBit" => Happened::RxFlagBit,
        "RxLong" => Happened::RxLong,
        "TxFree" => Happened::TxFree,
        "PassiveAck" => Happened::PassiveAck,
        "TxFlagBit" => Happened::TxFlagBit,
        "TxLong" => Happened::TxLong,
        "Sent" => Happened::Sent,
        "Acked" => Happened::Acked,
        "Recovered" => Happened::Recovered,
        _ => error(word, answer),
    }
}

/// Returns a word such as `TxError(Bit)`.
fn error(word: &str, answer: &mut Answer) -> Happened {
    let (what, kind) = answer.parts(word, "(");
    let kind = error_kind(kind, answer);
    match what {
        "RxError" => Happened::RxError(kind),
        "TxError" => Happened::TxError(kind),
        _ => {
            answer.unread();
            Happened::Nothing
        }
    }
}

fn error_kind(word: &str, answer: &mut Answer) -> ErrorKind {
    match word {
        "Bit)" => ErrorKind::Bit,
        "Stuff)" => ErrorKind::Stuff,
        "Form)" => ErrorKind::Form,
        "Crc)" => ErrorKind::Crc,
        "Ack)" => ErrorKind::Ack,
        _ => {
            answer.unread();
            ErrorKind::Bit
        }
    }
}
