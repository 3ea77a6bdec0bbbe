//! Frames: `frame`, `crc`, `bits` and `stuffed`, then `data` or `remote`, identifier in hexadecimal (eight digits: extended), data length
//! code, and bytes in hexadecimal; `same_frames` and two of them with `is` between; and lists of bits: `stuff`, `register`, `read` and `arbitration`.

use crate::answer::{Answer, after, word};
use std::alloc::Global;
use test_words::frame_of;
use wl_frame::checksum::crc15;
use wl_frame::frame::{Frame, FrameFault};
use wl_frame::{places, stuffing};
use wl_level::Level;

/// True if the subject is one of this module's.
pub fn tell(alloc: Global, subject: &str, words: &[&str], answer: &mut Answer) -> bool {
    match subject {
        "frame" | "crc" | "bits" | "stuffed" => match made(alloc, words, answer) {
            Ok(frame) => tell_of(&frame, subject, answer),
            Err(fault) => answer.show(&fault),
        },
        "same_frames" => tell_same(alloc, words, answer),
        "stuff" | "register" | "read" | "arbitration" => {
            let levels = answer.levels_of(alloc, words);
            tell_bits(subject, levels.as_slice(), answer);
        }
        _ => return false,
    }
    true
}

/// Writes what is asked of a frame.
fn tell_of(frame: &Frame, subject: &str, answer: &mut Answer) {
    match subject {
        "frame" => tell_frame(frame, answer),
        "crc" => tell_crc(frame.bits().as_slice(), answer),
        "bits" => answer.levels(frame.bits().as_slice()),
        _ => answer.levels(frame.stuffed().as_slice()),
    }
}

/// Writes a frame as it is read from its bits.
fn tell_frame(frame: &Frame, answer: &mut Answer) {
    let read = Frame::from_bits(frame.bits().as_slice());
    if read == *frame {
        show_frame(&read, answer);
    } else {
        answer.say("otherwise read");
    }
}

/// Writes the CRC sequence of what comes before it.
fn tell_crc(bits: &[Level], answer: &mut Answer) {
    let covered = bits.len().saturating_sub(15);
    answer.hexadecimal(crc15(&bits[..covered]));
}

/// Writes whether two frames, with `is` between them, are the same.
fn tell_same(alloc: Global, words: &[&str], answer: &mut Answer) {
    let place = words.iter().position(|w| *w == "is").unwrap_or(words.len());
    let (first, second) = words.split_at_checked(place).unwrap_or((words, &[]));
    let first = made(alloc, first, answer);
    let is_same = first == made(alloc, after(second, 1), answer);
    answer.show(&is_same);
}

/// Returns the frame that words say, or why there is none.
fn made(alloc: Global, words: &[&str], answer: &mut Answer) -> Result<Frame, FrameFault> {
    let remote = is_remote(word(words, 0), answer);
    let dlc = answer.read(word(words, 2).parse::<u32>());
    let mut bytes: Vec<u8> = Vec::new(alloc);
    for word in after(words, 3) {
        let byte = answer.read(u8::from_str_radix(word, 16));
        answer.add(&mut bytes, byte, 1);
    }
    let digits = word(words, 1);
    let id = answer.read(u32::from_str_radix(digits, 16));
    frame_of(digits, id, remote, dlc, bytes.as_slice())
}

fn is_remote(word: &str, answer: &mut Answer) -> bool {
    match word {
        "data" => false,
        "remote" => true,
        _ => {
            answer.unread();
            false
        }
    }
}

/// Writes kind, identifier, data length code and bytes.
pub fn show_frame(frame: &Frame, answer: &mut Answer) {
    answer.say(if frame.remote() { "remote " } else { "data " });
    answer.identifier(frame);
    answer.say(" ");
    answer.show(&frame.dlc());
    for byte in frame.bytes() {
        answer.byte(*byte);
    }
}

/// Writes what is asked of bits.
fn tell_bits(subject: &str, bits: &[Level], answer: &mut Answer) {
    match subject {
        "stuff" => stuff(bits, answer),
        "register" => answer.hexadecimal(crc15(bits)),
        "read" => read(bits, answer),
        _ => arbitration(bits, answer),
    }
}

fn stuff(bits: &[Level], answer: &mut Answer) {
    if bits.len() > 128 {
        answer.unread();
    } else {
        answer.levels(stuffing::stuff(bits).as_slice());
    }
}

/// Writes the first front that is a whole frame, whether its CRC sequence is right, and what it says.
fn read(bits: &[Level], answer: &mut Answer) {
    if let Some(count) = (0..bits.len()).find(|count| places::is_whole(&bits[..*count])) {
        answer.name("whole at", &count);
        answer.name("of", &bits.len());
    } else if !places::is_whole(bits) {
        answer.say("not whole");
    } else if !places::is_crc_right(bits) {
        answer.say("wrong crc");
    } else {
        show_frame(&Frame::from_bits(bits), answer);
    }
}

/// Writes the place of the RTR bit, and the places at which a sender may lose.
fn arbitration(bits: &[Level], answer: &mut Answer) {
    answer.name("rtr", &places::rtr_place(bits));
    answer.say("loses ");
    for place in 0..40usize {
        if places::is_arbitration(bits, place) {
            answer.show(&place);
        }
    }
}
