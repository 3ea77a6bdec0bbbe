//! Flags, the wait after a flag, and the delimiter.

ghost use Rattle.std.specs.Prelude.{◌≡◌, ◌+◌, ◌<◌, Bool, true, false, List, [], Option, if◌then◌else◌};
ghost use Rattle.wl_level.specs.declared.Level.{Level};
ghost use Rattle.wl_level.specs.Levels.{is_dominant};
ghost use Rattle.wl_level.specs.Places.{run_at_end};
ghost use Rattle.wl_confine.specs.declared.Mode.{Mode};
ghost use Rattle.wl_frame.specs.Grammar.{Content};
ghost use Rattle.wl_machine.specs.Flags.{flag_bit_of, long_of, is_after_flag};
ghost use Rattle.wl_machine.specs.Keeps.{keeps_in_delimiter};
ghost use Rattle.wl_machine.specs.Stretch.{Flag as FlagSort};
ghost use Rattle.wl_machine.specs.Stretch.Flag.{PassiveFlag as PassiveSort};
ghost use Rattle.wl_machine.specs.Stretch.Sort.{Flagging as FlaggingSort, Waiting as WaitingSort, Delimiting as DelimitingSort};
ghost use Rattle.wl_machine.specs.States.{Meets, IsCount, IsPassive, IsWait, flag_of, stretch_by, sample_of};

use crate::progress::{Progress, Step, error_of, plain};
use crate::state::{Cause, Role, State};
use wl_confine::{ErrorKind, Happened, Mode};
use wl_level::Level;

/// With this many dominant samples in a row, those of the flag among them, a wait is long.
const LONG_AFTER_FLAG: u8 = 14;

/// With this many after a passive flag a wait is long.
const LONG_AFTER_PASSIVE_FLAG: u8 = 8;

/// And with each 8 more.
const LONG_AGAIN: u8 = 8;

/// Returns what a dominant run that is too long counts.
fn long_of(role: Role) -> Happened
    ensures { result ≡ long_of role }
{
    match role {
        Role::Tx => Happened::TxLong,
        Role::Rx => Happened::RxLong,
    }
}

/// Returns what a sample of a dominant flag counts.
fn flag_happens(role: Role, level: Level) -> Happened
    ensures { result ≡ (if is_dominant level then Happened.Nothing else flag_bit_of role) }
{
    if level.is_dominant() {
        return Happened::Nothing;
    }
    match role {
        Role::Tx => Happened::TxFlagBit,
        Role::Rx => Happened::RxFlagBit,
    }
}

/// True if a dominant sample right after this flag is late.
fn is_late(cause: Cause, role: Role) -> bool
    ensures { result ≡ is_after_flag (flag_of cause) role [] }
{
    match (cause, role) {
        (Cause::Error, Role::Rx) => true,
        _ => false,
    }
}

impl Progress {
    /// Takes one sample of an active flag or of the flag of an overload.
    pub fn dominant_flag(
        &mut self,
        cause: Cause,
        role: Role,
        count: u8,
        run: u8,
        level: Level,
    ) -> Step
        requires within { count < 6 }
        requires short { run < 6 }
        ensures { (own : List Level) (head : Option Content) (mode : Mode) → IsCount count own 6
            → run ≡ run_at_end Level.Dominant own
            → Meets self.new result (stretch_by (FlaggingSort (flag_of cause) role) own) (sample_of level head mode) }
    {
        let run = if level.is_dominant() { run + 1 } else { 0 };
        self.state = if count < 5 {
            State::Flag {
                cause,
                role,
                count: count + 1,
                run,
            }
        } else {
            State::Wait {
                role,
                is_late: is_late(cause, role),
                until_long: LONG_AFTER_FLAG - run,
            }
        };
        plain(flag_happens(role, level))
    }

    /// Takes one sample of a passive flag.
    pub fn passive_flag(
        &mut self,
        role: Role,
        counts_missing_ack: bool,
        last: Level,
        run: u8,
        level: Level,
    ) -> Step
        requires { run < 6 }
        ensures { (own : List Level) (head : Option Content) (mode : Mode) (unacknowledged : Bool)
            → IsPassive counts_missing_ack unacknowledged last run own
            → Meets self.new result (stretch_by (FlaggingSort (PassiveSort unacknowledged) role) own) (sample_of level head mode) }
    {
        let run = if level.is(last) { run + 1 } else { 1 };
        self.state = if run < 6 {
            State::PassiveFlag {
                role,
                counts_missing_ack: counts_missing_ack & !level.is_dominant(),
                last: level,
                run,
            }
        } else {
            State::Wait {
                role,
                is_late: is_late(Cause::Error, role),
                until_long: LONG_AFTER_PASSIVE_FLAG,
            }
        };
        let counts = counts_missing_ack & level.is_dominant();
        plain(if counts {
            Happened::PassiveAck
        } else {
            Happened::Nothing
        })
    }

    /// Takes one sample of the wait after a flag.
    pub fn waiting(&mut self, role: Role, is_late: bool, until_long: u8, level: Level) -> Step
        requires { 0 < until_long }
        ensures { (own : List Level) (head : Option Content) (mode : Mode) (flag : FlagSort) (flagged : List Level)
            → IsWait is_late until_long flag role flagged own
            → Meets self.new result (stretch_by (WaitingSort flag role flagged) own) (sample_of level head mode) }
    {
        if !level.is_dominant() {
            self.state = State::Delimiter { role, count: 1 };
            return plain(Happened::Nothing);
        }
        let is_long = until_long == 1;
        self.state = State::Wait {
            role,
            is_late: false,
            until_long: if is_long { LONG_AGAIN } else { until_long - 1 },
        };
        if is_late {
            plain(Happened::RxAfterFlag)
        } else if is_long {
            plain(long_of(role))
        } else {
            plain(Happened::Nothing)
        }
    }

    /// Takes one sample of a delimiter.
    pub fn delimiting(&mut self, role: Role, count: u8, level: Level, mode: Mode) -> Step
        requires { count < 8 }
        ensures { (own : List Level) (head : Option Content) → IsCount count own 8
            → Meets self.new result (stretch_by (DelimitingSort role) own) (sample_of level head mode) }
    {
        if level.is_dominant() {
            if count == 7 {
                self.overload(role);
            } else {
                self.fail(role, mode);
                let kind = match role {
                    Role::Tx => ErrorKind::Bit,
                    Role::Rx => ErrorKind::Form,
                };
                return plain(error_of(role, kind));
            }
        } else if count == 7 {
            self.state = State::Intermission { role, count: 0 };
        } else {
            self.state = State::Delimiter {
                role,
                count: count + 1,
            };
        }
        plain(Happened::Nothing)
    }

    /// Takes one recessive sample of a delimiter before its eighth bit. If it isn't one, returns false, and does nothing (Bosch CAN 2.0
    /// part B, section 3.2.3).
    #[inline(always)]
    pub fn keep_delimiter(&mut self, role: Role, count: u8, level: Level) -> bool
        ensures value { result ≡ keeps_in_delimiter count level }
        ensures same { result ≡ false → self.new ≡ self.old }
        ensures next { result ≡ true → self.new ≡ record self.old { state = State.Delimiter role (count + 1) } }
    {
        if 7 <= count || level.is_dominant() {
            return false;
        }
        self.state = State::Delimiter {
            role,
            count: count + 1,
        };
        true
    }
}
