//! Segments.
//!
//! `segments PROP PS1 PS2 SJW`, also with `is` and others after them; `point` with the same numbers for the sample point in tenths of a
//! percent; `tolerance` with the same numbers and a deviation in ppm.

use crate::answer::{Answer, after, word};
use wl_segments::{Segments, SegmentsFault};

/// True if the subject is one of this module's.
pub fn tell(subject: &str, words: &[&str], answer: &mut Answer) -> bool {
    match subject {
        "segments" | "point" | "tolerance" => match made(words, answer) {
            Ok(segments) => ask(segments, subject, after(words, 4), answer),
            Err(fault) => answer.show(&fault),
        },
        _ => return false,
    }
    true
}

/// Returns the segments that four words say, or why there are none.
pub fn made(words: &[&str], answer: &mut Answer) -> Result<Segments, SegmentsFault> {
    Segments::new(
        answer.at(words, 0),
        answer.at(words, 1),
        answer.at(words, 2),
        answer.at(words, 3),
    )
}

/// Writes what segments answer.
fn ask(segments: Segments, subject: &str, asked: &[&str], answer: &mut Answer) {
    match subject {
        "point" => tell_point(segments, answer),
        "tolerance" => {
            let ppm = answer.read(word(asked, 0).parse::<u32>());
            answer.show(&segments.tolerance_ok(ppm));
        }
        _ => match word(asked, 0) {
            "" => tell_of(segments, answer),
            _ => {
                let is_same = made(after(asked, 1), answer) == Ok(segments);
                answer.show(&is_same);
            }
        },
    }
}

fn tell_point(segments: Segments, answer: &mut Answer) {
    let quanta = segments.bit_quanta();
    let point = 1000 * segments.sample_at() / quanta;
    answer.name("quanta", &quanta);
    answer.name("point", &point);
}

fn tell_of(segments: Segments, answer: &mut Answer) {
    answer.show(&segments.prop());
    answer.show(&segments.ps1());
    answer.show(&segments.ps2());
    answer.show(&segments.sjw());
    answer.name("quanta", &segments.bit_quanta());
    answer.name("sample", &segments.sample_at());
    answer.name("greatest_ppm", &segments.greatest_ppm());
}
