//! Frames: transmitter and receiver, up to the end of what is stuffed and after it.

ghost use Rattle.std.specs.Prelude.{◌≡◌, ◌+◌, ◌<◌, ◌≤◌, ◌++◌, ◌&&◌, [], ◌∷◌, ℕ, nat_le, true, false, not, length, List, Option, Some, if◌then◌else◌};
ghost use Rattle.wl_level.specs.declared.Level.{Level};
ghost use Rattle.wl_level.specs.Levels.{same, opposite};
ghost use Rattle.wl_level.specs.Places.{at};
ghost use Rattle.wl_confine.specs.declared.Mode.{Mode};
ghost use Rattle.wl_frame.specs.Grammar.{Content, bits_of, is_whole};
ghost use Rattle.wl_frame.specs.Limits.{most_bits};
ghost use Rattle.wl_machine.specs.Flags.{fails};
ghost use Rattle.wl_machine.specs.Frames.{frame_role, sent_at, unanswered, last_bit};
ghost use Rattle.wl_machine.specs.Judged.{judged};
ghost use Rattle.wl_machine.specs.Keeps.{keeps_in_sent_tail, keeps_in_tail, state_keeps, with_sample};
ghost use Rattle.wl_machine.specs.Stretch.{Stretch, Sampled};
ghost use Rattle.wl_machine.specs.Stretch.Sort.{Framing as FramingSort};
ghost use Rattle.wl_machine.specs.States.{IsIn, Meets, IsStuffedPart, IsTaken, IsTail, IsReceivedTail, stretch_by, sample_of};

use crate::Done;
use crate::progress::{Progress, Step, plain};
use crate::state::{Role, State};
use wl_confine::{ErrorKind, Happened, Mode};
use wl_frame::frame::Frame;
use wl_frame::places::{is_arbitration, is_crc_right, is_whole, rtr_place};
use wl_level::Level;

/// After this many equal bits a stuff bit is due.
const STUFF_RUN: u8 = 5;

/// The acknowledgement slot, by its place after the end of what is stuffed.
pub const ACKNOWLEDGEMENT: u8 = 1;

const ACKNOWLEDGEMENT_DELIMITER: u8 = 2;

/// The first bit of the end of frame.
const END_OF_FRAME: u8 = 3;

/// The sixth bit of the end of frame, with which a frame is received.
const LAST_BUT_ONE: u8 = 8;

/// The seventh bit of the end of frame, with which a frame is sent.
const LAST: u8 = 9;

impl Progress {
    /// Returns the level that the transmitter of a stuffed part sends next.
    pub fn sent_level(&self, last: Level, run: u8) -> Level
        ensures { result
            ≡ (if nat_le 5 run then opposite last else at self.now.sent.items (length self.now.bits.items)) }
    {
        if run >= STUFF_RUN {
            last.opposite()
        } else {
            let place = self.bits.len();
            self.sent.get(place).copied().unwrap_or(Level::Recessive)
        }
    }

    /// Keeps one more bit of a stuffed part, unless it is a stuff bit. Returns the run of equal bits that it ends.
    #[inline(always)]
    fn take_bit(&mut self, last: Level, run: u8, level: Level) -> u8
        requires small { run ≤ 5 }
        requires room { run < 5 → length self.old.bits.items < most_bits }
        ensures run { result ≡ (if same last level then run + 1 else 1) }
        ensures bits { self.new.bits.items
            ≡ (if nat_le 5 run then self.old.bits.items else self.old.bits.items ++ level ∷ []) }
        ensures sent { self.new.sent.items ≡ self.old.sent.items }
    {
        if run < STUFF_RUN {
            self.bits.push(level);
        }
        if last.is(level) { run + 1 } else { 1 }
    }

    /// Puts a receiver where it is after a sample that ends this run: after the end of what is stuffed, or still before it.
    #[inline(always)]
    fn received_bit(&mut self, level: Level, run: u8)
        ensures { (head : Option Content) (own : List Level) → frame_role head own ≡ Role.Rx
            → IsTaken level run self.old.bits.items own
            → IsIn self.new (stretch_by (FramingSort head) own) }
    {
        self.state = if run < STUFF_RUN && is_whole(&self.bits) {
            State::ReceivedTail {
                place: 0,
                is_crc_right: is_crc_right(&self.bits),
            }
        } else {
            State::Receiving { last: level, run }
        };
    }

    /// Puts a transmitter where it is after a sample that ends this run, likewise.
    fn sent_bit(&mut self, level: Level, run: u8)
        ensures { (head : Content) (own : List Level) → frame_role (Some head) own ≡ Role.Tx
            → self.old.sent.items ≡ bits_of head
            → IsTaken level run self.old.bits.items own → IsIn self.new (stretch_by (FramingSort (Some head)) own) }
    {
        self.state = if run < STUFF_RUN && is_whole(&self.bits) {
            State::SentTail { place: 0 }
        } else {
            State::Sending { last: level, run }
        };
    }

    /// Takes one sample of a receiver, up to the end of what is stuffed.
    pub fn receiving(&mut self, last: Level, run: u8, level: Level, mode: Mode) -> Step
        requires small { run ≤ 5 }
        requires room { run < 5 → length self.old.bits.items < most_bits }
        ensures { (head given : Option Content) (own : List Level) → frame_role head own ≡ Role.Rx
            → IsStuffedPart last run self.old.bits.items own
            → Meets self.new result (stretch_by (FramingSort head) own) (sample_of level given mode) }
    {
        if run >= STUFF_RUN && last.is(level) {
            self.fail(Role::Rx, mode);
            return plain(Happened::RxError(ErrorKind::Stuff));
        }
        let run = self.take_bit(last, run, level);
        self.received_bit(level, run);
        plain(Happened::Nothing)
    }

    /// Takes one sample of a receiver, up to the end of what is stuffed, unless it is the sixth of equal ones. Then it returns false, and
    /// does nothing.
    #[inline(always)]
    fn keep_bit(&mut self, last: Level, run: u8, level: Level) -> bool
        requires small { run ≤ 5 }
        requires room { run < 5 → length self.old.bits.items < most_bits }
        ensures value { result ≡ not (nat_le 5 run && same last level) }
        ensures same { result ≡ false → self.new ≡ self.old }
        ensures next { result ≡ true → (head : Option Content) (own : List Level) → frame_role head own ≡ Role.Rx
            → IsStuffedPart last run self.old.bits.items own
            → IsIn self.new (stretch_by (FramingSort head) (own ++ level ∷ [])) }
    {
        if run >= STUFF_RUN && last.is(level) {
            return false;
        }
        let run = self.take_bit(last, run, level);
        self.received_bit(level, run);
        true
    }

    /// Takes one recessive sample of a receiver's ACK delimiter, if the CRC sequence is right, or of its end of frame before the last bit but
    /// one. If it isn't one, returns false, and does nothing (Bosch CAN 2.0 part B, section 3.2.1).
    #[inline(always)]
    fn keep_tail(&mut self, place: u8, is_crc_right: bool, level: Level) -> bool
        ensures value { result ≡ keeps_in_tail is_crc_right place level }
        ensures same { result ≡ false → self.new ≡ self.old }
        ensures next { result ≡ true
            → self.new ≡ record self.old { state = State.ReceivedTail (place + 1) is_crc_right } }
    {
        let first = if is_crc_right {
            ACKNOWLEDGEMENT_DELIMITER
        } else {
            END_OF_FRAME
        };
        if place < first || LAST_BUT_ONE <= place || level.is_dominant() {
            return false;
        }
        self.state = State::ReceivedTail {
            place: place + 1,
            is_crc_right,
        };
        true
    }

    /// Takes one recessive sample of a transmitter after the end of what is stuffed, but for the acknowledgement slot and the last bit of the
    /// end of frame. If it isn't one, returns false, and does nothing (Bosch CAN 2.0 part B, section 3.2.1).
    #[inline(always)]
    fn keep_sent_tail(&mut self, place: u8, level: Level) -> bool
        ensures value { result ≡ keeps_in_sent_tail place level }
        ensures same { result ≡ false → self.new ≡ self.old }
        ensures next { result ≡ true → self.new ≡ record self.old { state = State.SentTail (place + 1) } }
    {
        if place == ACKNOWLEDGEMENT || LAST <= place || level.is_dominant() {
            return false;
        }
        self.state = State::SentTail { place: place + 1 };
        true
    }

    /// Takes one sample that changes nothing but that it is kept. If it isn't one, returns false, and does nothing.
    #[inline(always)]
    pub fn keep(&mut self, level: Level) -> bool
        requires { ∥ ((s : Stretch) × IsIn self.old s) ∥₁ }
        ensures value { result ≡ state_keeps self.old.state level }
        ensures same { result ≡ false → self.new ≡ self.old }
        ensures next { result ≡ true → (s : Stretch) → IsIn self.old s → IsIn self.new (with_sample s level) }
    {
        match self.state {
            State::Receiving { last, run } => self.keep_bit(last, run, level),
            State::ReceivedTail {
                place,
                is_crc_right,
            } => self.keep_tail(place, is_crc_right, level),
            State::SentTail { place } => self.keep_sent_tail(place, level),
            State::Delimiter { role, count } => self.keep_delimiter(role, count, level),
            State::Intermission { role, count } => self.keep_intermission(role, count, level),
            _ => false,
        }
    }

    /// Takes one sample of a transmitter, up to the end of what is stuffed.
    pub fn sending(&mut self, last: Level, run: u8, level: Level, mode: Mode) -> Step
        requires small { run ≤ 5 }
        requires room { run < 5 → length self.old.bits.items < most_bits }
        ensures { (head : Content) (given : Option Content) (own : List Level) → frame_role (Some head) own ≡ Role.Tx
            → self.old.sent.items ≡ bits_of head
            → IsStuffedPart last run self.old.bits.items own
            → Meets self.new result (stretch_by (FramingSort (Some head)) own) (sample_of level given mode) }
    {
        let sent = self.sent_level(last, run);
        if !sent.is(level) {
            return self.differing(sent, last, run, level, mode);
        }
        let run = self.take_bit(last, run, level);
        self.sent_bit(level, run);
        plain(Happened::Nothing)
    }

    /// Takes a sample of a level that the transmitter did not send.
    fn differing(&mut self, sent: Level, last: Level, run: u8, level: Level, mode: Mode) -> Step
        requires small { run ≤ 5 }
        requires room { run < 5 → length self.old.bits.items < most_bits }
        ensures { (head : Content) (given : Option Content) (own : List Level) → frame_role (Some head) own ≡ Role.Tx
            → self.old.sent.items ≡ bits_of head
            → IsStuffedPart last run self.old.bits.items own → sent ≡ sent_at head own (length own) → same sent level ≡ false
            → Meets self.new result (stretch_by (FramingSort (Some head)) own) (sample_of level given mode) }
    {
        if sent.is_dominant() {
            return self.bit_error(mode);
        }
        let place = self.bits.len();
        if run >= STUFF_RUN {
            if place > rtr_place(&self.sent) {
                return self.bit_error(mode);
            }
            self.fail(Role::Tx, mode);
            return plain(Happened::TxFree);
        }
        if !is_arbitration(&self.sent, place) {
            return self.bit_error(mode);
        }
        let run = self.take_bit(last, run, level);
        self.received_bit(level, run);
        plain(Happened::Nothing)
    }

    /// Takes a sample of a level that the transmitter did not send, outside the exceptions of section 8, rule 3: a bit error.
    fn bit_error(&mut self, mode: Mode) -> Step
        ensures { (s : Stretch) (x : Sampled) → judged s x ≡ fails Role.Tx mode ErrorKind.Bit
            → Meets self.new result s x }
    {
        self.fail(Role::Tx, mode);
        plain(Happened::TxError(ErrorKind::Bit))
    }

    /// Takes one sample of a transmitter after the end of what is stuffed.
    pub fn sent_tail(&mut self, place: u8, level: Level, mode: Mode) -> Step
        requires { place < 10 }
        ensures { (head : Content) (given : Option Content) (own : List Level) (end : ℕ)
            → frame_role (Some head) own ≡ Role.Tx → IsTail place end own
            → Meets self.new result (stretch_by (FramingSort (Some head)) own) (sample_of level given mode) }
    {
        if place == ACKNOWLEDGEMENT {
            if !level.is_dominant() {
                return self.unanswered(mode);
            }
        } else if level.is_dominant() {
            self.fail(Role::Tx, mode);
            return plain(Happened::TxError(ErrorKind::Bit));
        } else if place == LAST {
            self.state = State::Intermission {
                role: Role::Tx,
                count: 0,
            };
            return Step {
                happened: Happened::Sent,
                done: Done::Sent,
            };
        }
        self.state = State::SentTail { place: place + 1 };
        plain(Happened::Nothing)
    }

    /// Takes the sample at which a transmitter found no acknowledgement.
    fn unanswered(&mut self, mode: Mode) -> Step
        ensures { (s : Stretch) (x : Sampled) → judged s x ≡ unanswered mode → Meets self.new result s x }
    {
        match mode {
            Mode::Passive => {
                self.state = State::PassiveFlag {
                    role: Role::Tx,
                    counts_missing_ack: true,
                    last: Level::Recessive,
                    run: 0,
                };
                plain(Happened::TxFree)
            }
            _ => {
                self.fail(Role::Tx, mode);
                plain(Happened::TxError(ErrorKind::Ack))
            }
        }
    }

    /// Takes one sample of a receiver after the end of what is stuffed.
    #[inline(never)]
    pub fn received_tail(&mut self, place: u8, is_crc_right: bool, level: Level, mode: Mode) -> Step
        requires within { place < 10 }
        requires whole { is_whole self.old.bits.items ≡ true }
        ensures { (head given : Option Content) (own : List Level) (end : ℕ) → frame_role head own ≡ Role.Rx
            → IsReceivedTail place end is_crc_right self.old.bits.items own
            → Meets self.new result (stretch_by (FramingSort head) own) (sample_of level given mode) }
    {
        if place == ACKNOWLEDGEMENT {
            return self.acknowledging(is_crc_right, level, mode);
        }
        if place == LAST {
            return self.last_received(level);
        }
        if level.is_dominant() {
            self.fail(Role::Rx, mode);
            return plain(Happened::RxError(ErrorKind::Form));
        }
        if place == ACKNOWLEDGEMENT_DELIMITER && !is_crc_right {
            self.fail(Role::Rx, mode);
            return plain(Happened::RxError(ErrorKind::Crc));
        }
        if place == LAST_BUT_ONE {
            let frame = Frame::from_bits(&self.bits);
            self.state = State::ReceivedTail {
                place: LAST,
                is_crc_right,
            };
            return Step {
                happened: Happened::Nothing,
                done: Done::Received(frame),
            };
        }
        self.state = State::ReceivedTail {
            place: place + 1,
            is_crc_right,
        };
        plain(Happened::Nothing)
    }

    /// Takes a receiver's sample of the acknowledgement slot, which it drives dominant if the CRC sequence is right.
    fn acknowledging(&mut self, is_crc_right: bool, level: Level, mode: Mode) -> Step
        ensures { (head given : Option Content) (own : List Level) (end : ℕ) → frame_role head own ≡ Role.Rx
            → IsReceivedTail 1 end is_crc_right self.old.bits.items own
            → Meets self.new result (stretch_by (FramingSort head) own) (sample_of level given mode) }
    {
        if is_crc_right && !level.is_dominant() {
            self.fail(Role::Rx, mode);
            return plain(Happened::RxError(ErrorKind::Bit));
        }
        self.state = State::ReceivedTail {
            place: 2,
            is_crc_right,
        };
        if is_crc_right {
            plain(Happened::Acked)
        } else {
            plain(Happened::Nothing)
        }
    }

    /// Takes a receiver's sample of the last bit of the end of frame.
    fn last_received(&mut self, level: Level) -> Step
        ensures { (s : Stretch) (x : Sampled) → x.level ≡ level → judged s x ≡ last_bit x → Meets self.new result s x }
    {
        if level.is_dominant() {
            self.overload(Role::Rx);
        } else {
            self.state = State::Intermission {
                role: Role::Rx,
                count: 0,
            };
        }
        plain(Happened::Nothing)
    }
}
