//! Between frames: integration, idle, intermission, suspension and bus off.

ghost use Rattle.std.specs.Prelude.{◌≡◌, ◌+◌, ◌<◌, true, false, List, [], ◌∷◌};
ghost use Rattle.std.specs.Option.{option_copied};
ghost use Rattle.wl_level.specs.declared.Level.{Level};
ghost use Rattle.wl_level.specs.Places.{run_at_end};
ghost use Rattle.wl_confine.specs.declared.Mode.{Mode};
ghost use Rattle.wl_machine.specs.Stretch.Sort.{Integration as IntegrationSort, Idle as IdleSort, Framing as FramingSort, Intermission as IntermissionSort, Suspension as SuspensionSort, OffBus as OffBusSort};
ghost use Rattle.wl_machine.specs.BetweenFrames.{begun_head};
ghost use Rattle.wl_machine.specs.Keeps.{keeps_in_intermission};
ghost use Rattle.wl_machine.specs.States.{IsIn, Meets, IsCount, IsBusOff, stretch_by, sample_of};

use crate::progress::{Progress, Step, plain};
use crate::state::{Role, State};
use wl_confine::{Happened, Mode};
use wl_frame::frame::Frame;
use wl_level::Level;

impl Progress {
    /// Takes one sample of an integration.
    pub fn integrating(&mut self, run: u8, level: Level, head: Option<&Frame>) -> Step
        requires { run < 11 }
        ensures { (own : List Level) (mode : Mode) → run ≡ run_at_end Level.Recessive own
            → Meets self.new result (stretch_by IntegrationSort own) (sample_of level (option_copied head.entry) mode) }
    {
        if level.is_dominant() {
            self.state = State::Integrating { run: 0 };
        } else if run == 10 {
            self.free(head);
        } else {
            self.state = State::Integrating { run: run + 1 };
        }
        plain(Happened::Nothing)
    }

    /// Takes one sample of an idle bus.
    pub fn idle_bit(&mut self, level: Level, head: Option<&Frame>) -> Step
        ensures { (own : List Level) (mode : Mode)
            → Meets self.new result (stretch_by IdleSort own) (sample_of level (option_copied head.entry) mode) }
    {
        if level.is_dominant() {
            self.receive();
        } else {
            self.free(head);
        }
        plain(Happened::Nothing)
    }

    /// Takes one sample of an intermission.
    pub fn intermission(
        &mut self,
        role: Role,
        count: u8,
        level: Level,
        head: Option<&Frame>,
        mode: Mode,
    ) -> Step
        requires { count < 3 }
        ensures { (own : List Level) → IsCount count own 3
            → Meets self.new result (stretch_by (IntermissionSort role) own) (sample_of level (option_copied head.entry) mode) }
    {
        if level.is_dominant() {
            if count == 2 {
                self.begun_by_others(role, head, mode);
            } else {
                self.overload(role);
            }
        } else if count < 2 {
            self.state = State::Intermission {
                role,
                count: count + 1,
            };
        } else if role == Role::Tx && mode == Mode::Passive {
            self.state = State::Suspended { count: 0 };
        } else {
            self.free(head);
        }
        plain(Happened::Nothing)
    }

    /// Takes one recessive sample of an intermission before its third bit. If it isn't one, returns false, and does nothing (Bosch CAN 2.0
    /// part B, section 3.2.5).
    #[inline(always)]
    pub fn keep_intermission(&mut self, role: Role, count: u8, level: Level) -> bool
        ensures value { result ≡ keeps_in_intermission count level }
        ensures same { result ≡ false → self.new ≡ self.old }
        ensures next { result ≡ true → self.new ≡ record self.old { state = State.Intermission role (count + 1) } }
    {
        if 2 <= count || level.is_dominant() {
            return false;
        }
        self.state = State::Intermission {
            role,
            count: count + 1,
        };
        true
    }

    /// Takes a dominant third bit of an intermission: the start of frame of the head, if there is one, and else of a frame that the node
    /// receives. A passive transmitter takes no part with its next frame yet.
    fn begun_by_others(&mut self, role: Role, head: Option<&Frame>, mode: Mode)
        ensures { IsIn self.new
            (stretch_by (FramingSort (begun_head role mode (option_copied head.entry))) (Level.Dominant ∷ [])) }
    {
        match head {
            Some(frame) if role != Role::Tx || mode != Mode::Passive => self.join(frame),
            _ => self.receive(),
        }
    }

    /// Takes one sample of a suspended transmitter.
    pub fn suspended(&mut self, count: u8, level: Level, head: Option<&Frame>) -> Step
        requires { count < 8 }
        ensures { (own : List Level) (mode : Mode) → IsCount count own 8
            → Meets self.new result (stretch_by SuspensionSort own) (sample_of level (option_copied head.entry) mode) }
    {
        if level.is_dominant() {
            self.receive();
        } else if count == 7 {
            self.free(head);
        } else {
            self.state = State::Suspended { count: count + 1 };
        }
        plain(Happened::Nothing)
    }

    /// Takes one sample in bus off.
    pub fn bus_off_bit(&mut self, runs: u8, run: u8, level: Level, head: Option<&Frame>) -> Step
        requires few { runs < 128 }
        requires short { run < 11 }
        ensures { (own : List Level) (mode : Mode) → IsBusOff runs run own
            → Meets self.new result (stretch_by OffBusSort own) (sample_of level (option_copied head.entry) mode) }
    {
        if level.is_dominant() {
            self.state = State::BusOff { runs, run: 0 };
        } else if run < 10 {
            self.state = State::BusOff { runs, run: run + 1 };
        } else if runs < 127 {
            self.state = State::BusOff {
                runs: runs + 1,
                run: 0,
            };
        } else {
            self.free(head);
            return plain(Happened::Recovered);
        }
        plain(Happened::Nothing)
    }
}
