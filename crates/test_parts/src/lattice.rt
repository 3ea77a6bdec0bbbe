//! Words of lattices, two joined: `max 3 5` with `-` for the least, `flat 100 101` with `-` for nothing and `x` for a clash, `pair MAX FLAT MAX FLAT` and
//! `array`, two arrays of three flat words; `same_max`, `same_flat`, `same_pair`, and `same_array` of two flat words each.

use crate::answer::{Answer, word};
use wl_lattice::{FlatWord, Join, MaxWord};

/// True if the subject is one of this module's.
pub fn tell(subject: &str, words: &[&str], answer: &mut Answer) -> bool {
    match subject {
        "max" => tell_max(words, answer),
        "flat" => tell_flat(words, answer),
        "pair" => tell_pair(words, answer),
        "array" => tell_array(words, answer),
        "same_max" => same_max(words, answer),
        "same_flat" => same_flat(words, answer),
        "same_pair" => same_pair(words, answer),
        "same_array" => same_array(words, answer),
        _ => return false,
    }
    true
}

fn tell_max(words: &[&str], answer: &mut Answer) {
    answer.takes(words, 2);
    let joined = joined(max(words, 0, answer), &max(words, 1, answer));
    answer.show(&joined.word);
}

fn tell_flat(words: &[&str], answer: &mut Answer) {
    answer.takes(words, 2);
    let joined = joined(flat(words, 0, answer), &flat(words, 1, answer));
    show_flat(joined, answer);
}

fn tell_pair(words: &[&str], answer: &mut Answer) {
    answer.takes(words, 4);
    let (most, value) = joined(pair(words, 0, 1, answer), &pair(words, 2, 3, answer));
    answer.show(&most.word);
    show_flat(value, answer);
}

fn tell_array(words: &[&str], answer: &mut Answer) {
    answer.takes(words, 6);
    let [a, b, c] = joined(
        three(words, [0, 1, 2], answer),
        &three(words, [3, 4, 5], answer),
    );
    show_flat(a, answer);
    show_flat(b, answer);
    show_flat(c, answer);
}

fn same_max(words: &[&str], answer: &mut Answer) {
    answer.takes(words, 2);
    let is_same = max(words, 0, answer).same(&max(words, 1, answer));
    answer.show(&is_same);
}

fn same_flat(words: &[&str], answer: &mut Answer) {
    answer.takes(words, 2);
    let is_same = flat(words, 0, answer).same(&flat(words, 1, answer));
    answer.show(&is_same);
}

fn same_pair(words: &[&str], answer: &mut Answer) {
    answer.takes(words, 4);
    let is_same = pair(words, 0, 1, answer).same(&pair(words, 2, 3, answer));
    answer.show(&is_same);
}

fn same_array(words: &[&str], answer: &mut Answer) {
    answer.takes(words, 4);
    let left = [flat(words, 0, answer), flat(words, 1, answer)];
    let right = [flat(words, 2, answer), flat(words, 3, answer)];
    let is_same = left.same(&right);
    answer.show(&is_same);
}

/// Returns two words joined, by what every lattice has.
fn joined<W: Join + Drop>(left: W, right: &W) -> W {
    let mut all = W::bottom();
    all.join(&left);
    all.join(right);
    all
}

fn max(words: &[&str], place: usize, answer: &mut Answer) -> MaxWord {
    match word(words, place) {
        "-" => MaxWord::bottom(),
        word => MaxWord {
            word: answer.number(word),
        },
    }
}

fn flat(words: &[&str], place: usize, answer: &mut Answer) -> FlatWord {
    match word(words, place) {
        "-" => FlatWord::Nothing,
        "x" => FlatWord::Clash,
        word => FlatWord::Value(answer.number(word)),
    }
}

fn pair(words: &[&str], most: usize, value: usize, answer: &mut Answer) -> (MaxWord, FlatWord) {
    (max(words, most, answer), flat(words, value, answer))
}

fn three(words: &[&str], places: [usize; 3], answer: &mut Answer) -> [FlatWord; 3] {
    let [a, b, c] = places;
    [
        flat(words, a, answer),
        flat(words, b, answer),
        flat(words, c, answer),
    ]
}

fn show_flat(word: FlatWord, answer: &mut Answer) {
    match word {
        FlatWord::Nothing => answer.say("- "),
        FlatWord::Value(value) => answer.show(&value),
        FlatWord::Clash => answer.say("x "),
    }
}
