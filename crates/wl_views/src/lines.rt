//! Text in a room of a fixed size, which needs no memory: what changes at a tick.
ghost use Rattle.std.specs.Prelude.{◌≡◌, ◌+◌, ◌≤◌, [], ◌∷◌, ◌++◌, length};
ghost use Rattle.std.specs.Fmt.{decimal};
ghost use Rattle.arrayvec.specs.ArrayVec.{array_vec_len};
ghost use Rattle.wl_plan.specs.Limits.{latest_end};
ghost use Rattle.wl_views.specs.Limits.{longest_id, longest_level_changes, longest_level_line, longest_line_changes, longest_mark_changes, longest_node_changes, longest_number, longest_number_line, longest_state_changes, longest_time_line, longest_word, longest_word_line, piece_room};
ghost use Rattle.wl_views.specs.Vcd.{change_line, level_changes, line_changes, mark_changes, node_changes, number_change, signal_id, state_changes, time_line, value_line, word_change};

use crate::limits::{LONGEST_NUMBER, PIECE_ROOM};
use crate::signals::NodeSignals;
use crate::stamp::Stamp;
use crate::tick::Tick;
use crate::words::{doing_word, mode};
use arrayvec::ArrayVec;
use itoa::write_digits;
use wl_trace::NodeState;

/// A text in the room of a piece.
pub(crate) type Lines = ArrayVec<u8, PIECE_ROOM>;

/// Adds these bytes.
pub(crate) fn push_bytes(text: &mut Lines, bytes: &[u8])
    requires { array_vec_len text.old + length bytes.now ≤ piece_room }
    ensures bytes { text.new.items ≡ text.old.items ++ bytes.now }
    ensures len { array_vec_len text.new ≡ array_vec_len text.old + length bytes.now }
{
    let put = text.try_extend_from_slice(bytes);
    prove!(put.is_ok());
}

/// Adds a number.
pub(crate) fn push_number(text: &mut Lines, number: u64)
    requires { array_vec_len text.old + longest_number ≤ piece_room }
    ensures bytes { text.new.items ≡ text.old.items ++ decimal number }
    ensures grown { array_vec_len text.new ≤ array_vec_len text.old + longest_number }
{
    let mut digits = [0u8; LONGEST_NUMBER];
    let at = write_digits(number, &mut digits, LONGEST_NUMBER);
    push_bytes(text, &digits[at..]);
}

/// Adds a number that mostly has one digit or two.
fn push_small(text: &mut Lines, number: u64)
    requires { array_vec_len text.old + longest_number ≤ piece_room }
    ensures bytes { text.new.items ≡ text.old.items ++ decimal number }
    ensures grown { array_vec_len text.new ≤ array_vec_len text.old + longest_number }
{
    if number < 10 {
        text.push(b'0' + number as u8);
        return;
    }
    if number < 100 {
        text.push(b'0' + (number / 10) as u8);
        text.push(b'0' + (number % 10) as u8);
        return;
    }
    push_number(text, number);
}

/// Adds the name of a signal of node `i`: its letter and the node's number.
fn push_id(text: &mut Lines, letter: u8, i: usize)
    requires { array_vec_len text.old + longest_id ≤ piece_room }
    ensures bytes { text.new.items ≡ text.old.items ++ signal_id (letter ∷ []) i }
    ensures grown { array_vec_len text.new ≤ array_vec_len text.old + longest_id }
{
    text.push(letter);
    push_small(text, i as u64);
}

/// Adds the time of a tick. `stamp` has the digits of an earlier one.
pub(crate) fn push_time(text: &mut Lines, stamp: &mut Stamp, tick: Tick, t: u64)
    requires room { array_vec_len text.old + longest_time_line ≤ piece_room }
    requires early { t ≤ latest_end }
    ensures line { text.new.items ≡ text.old.items ++ time_line tick t }
    ensures grown { array_vec_len text.new ≤ array_vec_len text.old + longest_time_line }
{
    text.push(b'#');
    stamp.push(text, t * u64::from(tick.count));
    text.push(b'\n');
}

/// Adds the level of a signal of node `i`.
fn push_value(text: &mut Lines, letter: u8, i: usize, high: bool)
    requires room { array_vec_len text.old + longest_level_line ≤ piece_room }
    ensures line { text.new.items ≡ text.old.items ++ value_line (letter ∷ []) i high }
    ensures grown { array_vec_len text.new ≤ array_vec_len text.old + longest_level_line }
{
    text.push(if high { b'1' } else { b'0' });
    push_id(text, letter, i);
    text.push(b'\n');
}

/// Adds the level of a signal of node `i`, if it is another than before.
fn push_change(text: &mut Lines, letter: u8, i: usize, was: bool, now: bool)
    requires room { array_vec_len text.old + longest_level_line ≤ piece_room }
    ensures line { text.new.items ≡ text.old.items ++ change_line (letter ∷ []) i was now }
    ensures grown { array_vec_len text.new ≤ array_vec_len text.old + longest_level_line }
{
    if was != now {
        push_value(text, letter, i, now);
    }
}

/// Adds a number of node `i`, if it is another than before.
fn push_number_change(text: &mut Lines, letter: u8, i: usize, was: u64, now: u64)
    requires room { array_vec_len text.old + longest_number_line ≤ piece_room }
    ensures line { text.new.items ≡ text.old.items ++ number_change (letter ∷ []) i was now }
    ensures grown { array_vec_len text.new ≤ array_vec_len text.old + longest_number_line }
{
    if was == now {
        return;
    }
    text.push(b'r');
    push_number(text, now);
    text.push(b' ');
    push_id(text, letter, i);
    text.push(b'\n');
}

/// Adds a word of node `i`, if it is another than before.
fn push_word_change(text: &mut Lines, letter: u8, i: usize, was: &str, now: &str)
    requires room { array_vec_len text.old + longest_word_line ≤ piece_room }
    requires word { length now.now ≤ longest_word }
    ensures line { text.new.items ≡ text.old.items ++ word_change (letter ∷ []) i was.now now.now }
    ensures grown { array_vec_len text.new ≤ array_vec_len text.old + longest_word_line }
{
    if was == now {
        return;
    }
    text.push(b's');
    push_bytes(text, now.as_bytes());
    text.push(b' ');
    push_id(text, letter, i);
    text.push(b'\n');
}

/// Adds the lines of node `i`'s drive and of the line at its place that changed.
fn push_line_changes(text: &mut Lines, i: usize, was: NodeSignals, now: NodeSignals)
    requires { array_vec_len text.old + longest_line_changes ≤ piece_room }
    ensures lines { text.new.items ≡ text.old.items ++ line_changes i was now }
    ensures grown { array_vec_len text.new ≤ array_vec_len text.old + longest_line_changes }
{
    push_change(text, b't', i, was.tx, now.tx);
    push_change(text, b'r', i, was.rx, now.rx);
    push_change(text, b'w', i, was.cable, now.cable);
    push_change(text, b'n', i, was.disturbance, now.disturbance);
}

/// Adds the marks of node `i` that changed.
fn push_mark_changes(text: &mut Lines, i: usize, was: NodeSignals, now: NodeSignals)
    requires { array_vec_len text.old + longest_mark_changes ≤ piece_room }
    ensures lines { text.new.items ≡ text.old.items ++ mark_changes i was now }
    ensures grown { array_vec_len text.new ≤ array_vec_len text.old + longest_mark_changes }
{
    push_change(text, b's', i, was.sample, now.sample);
    push_change(text, b'b', i, was.start, now.start);
}

/// Adds the levels of node `i` that changed.
fn push_level_changes(text: &mut Lines, i: usize, was: NodeSignals, now: NodeSignals)
    requires { array_vec_len text.old + longest_level_changes ≤ piece_room }
    ensures lines { text.new.items ≡ text.old.items ++ level_changes i was now }
    ensures grown { array_vec_len text.new ≤ array_vec_len text.old + longest_level_changes }
{
    push_line_changes(text, i, was, now);
    push_mark_changes(text, i, was, now);
}

/// Adds the lines of node `i`'s counters, mode and state that changed.
fn push_state_changes(text: &mut Lines, i: usize, was: NodeState, now: NodeState)
    requires { array_vec_len text.old + longest_state_changes ≤ piece_room }
    ensures lines { text.new.items ≡ text.old.items ++ state_changes i was now }
    ensures grown { array_vec_len text.new ≤ array_vec_len text.old + longest_state_changes }
{
    if was == now {
        return;
    }
    push_number_change(text, b'e', i, was.tec, now.tec);
    push_number_change(text, b'c', i, was.rec, now.rec);
    push_word_change(text, b'm', i, mode(was.mode), mode(now.mode));
    push_word_change(text, b'd', i, doing_word(was.doing), doing_word(now.doing));
}

/// Adds those signals of node `i` that changed.
pub(crate) fn push_node_changes(text: &mut Lines, i: usize, was: NodeSignals, now: NodeSignals)
    requires { array_vec_len text.old + longest_node_changes ≤ piece_room }
    ensures lines { text.new.items ≡ text.old.items ++ node_changes i was now }
    ensures grown { array_vec_len text.new ≤ array_vec_len text.old + longest_node_changes }
{
    push_level_changes(text, i, was, now);
    push_state_changes(text, i, was.state, now.state);
}
