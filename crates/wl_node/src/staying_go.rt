//! Quanta of one level. What ends a way to run them is its name, and each ends by `most` quanta at the latest:
//!
//! - `go`, `to_drive_change`: the quantum that changes the drive, which runs too.
//! - `to_unkept_sample`: a sample that the machine doesn't only keep, or an edge after the first quantum; it doesn't run.
//! - `to_sample`, `through_sample`: the next sample, which runs too. No edge comes before it.
//! - `to_event`: an edge, a sample, or a start of a bit that changes the drive; it doesn't run, but in `through_event`.
//! - `whole_idle_bits`: the bit of a free bus in which the next frame is ready. Whole bits run, so it doesn't.

ghost use Rattle.std.specs.Prelude.{◌≡◌, ℕ, suc, ◌+◌, ◌-◌, ◌*◌, ◌<◌, ◌≤◌, true, None, Some, vec_len, vec_capacity};
ghost use Rattle.wl_level.specs.declared.Level.{Level};
ghost use Rattle.wl_level.specs.Levels.{same};
ghost use Rattle.wl_segments.specs.Lengths.{bit_quanta};
ghost use Rattle.wl_sync.specs.Skips.{free_quanta, quanta_before_sample, IsSampleAhead};
ghost use Rattle.wl_node.specs.declared.setup.NodeSetup.{NodeSetup};
ghost use Rattle.wl_node.specs.History.{ready_head};
ghost use Rattle.wl_node.specs.IdleBits.{AlwaysRests};
ghost use Rattle.wl_node.specs.Kept.{HasProgressedBy, FitsQuanta, IsRoomy, KeepsCounts, KeepsDrive};
ghost use Rattle.wl_node.specs.Limits.{most_run_quanta};
ghost use Rattle.wl_node.specs.Unsent.{left_in};

use crate::progress::NodeProgress;
use crate::setup::NodeSetup;
use crate::staying_node::StayingNode;
use std::alloc::AllocError;
use wl_level::Level;
use wl_sync::Beat;

impl StayingNode {
    ghost use Rattle.std.specs.Prelude.{OnErr, IfOk};
    ghost use Rattle.wl_node.specs.Staying.{StayingHasGone, StayingHasStopped, StayingStands, StayingTurns};

    /// Runs quanta of one level as [`crate::Node::go`] does.
    #[inline(always)]
    pub fn go(&mut self, level: Level, most: u64) -> Result<u64, AllocError>
        requires some { 0 < most }
        requires short { self.old.progress.quanta + most ≤ most_run_quanta }
        ensures gone { IfOk result (λ n. StayingHasGone level n self.old self.new) }
        ensures some { IfOk result (λ n. 0 < n) }
        ensures few { IfOk result (λ n. n ≤ most) }
        ensures turned { IfOk result (λ n. n < most → StayingTurns self.old level n) }
        ensures stopped { OnErr result (StayingHasStopped level most self.old self.new) }
    {
        let heard = self.to_unkept_sample(level, most);
        if heard == most {
            return Ok(heard);
        }
        Ok(heard + self.to_drive_change(level, most - heard)?)
    }

    /// Runs quanta of this level as long as the node only listens: at most `most`. The drive stays. Returns how many.
    #[inline(always)]
    fn to_unkept_sample(&mut self, level: Level, most: u64) -> u64
        requires some { 0 < most }
        requires short { self.old.progress.quanta + most ≤ most_run_quanta }
        ensures gone { StayingHasGone level result self.old self.new }
        ensures stands { StayingStands self.old level result }
        ensures few { result ≤ most }
    {
        self.progress.to_unkept_sample(level, most)
    }

    /// Runs quanta as `go` does, whatever the node does.
    #[inline(never)]
    fn to_drive_change(&mut self, level: Level, most: u64) -> Result<u64, AllocError>
        requires some { 0 < most }
        requires short { self.old.progress.quanta + most ≤ most_run_quanta }
        ensures gone { IfOk result (λ n. StayingHasGone level n self.old self.new) }
        ensures some { IfOk result (λ n. 0 < n) }
        ensures few { IfOk result (λ n. n ≤ most) }
        ensures turned { IfOk result (λ n. n < most → StayingTurns self.old level n) }
        ensures stopped { OnErr result (StayingHasStopped level most self.old self.new) }
    {
        let before = self.drive();
        let mut done = 0;
        while done < most {
            done += self.to_sample_or_event(level, most - done)?;
            if !self.drive().is(before) {
                return Ok(done);
            }
        }
        Ok(done)
    }

    /// Runs quanta of this level: at least one, and at most `most`. Refused if memory runs out: fewer than `most` were run then, or none, and
    /// the node drives what it drove.
    fn to_sample_or_event(&mut self, level: Level, most: u64) -> Result<u64, AllocError>
        requires some { 0 < most }
        requires short { self.old.progress.quanta + most ≤ most_run_quanta }
        ensures gone { IfOk result (λ n. StayingHasGone level n self.old self.new) }
        ensures some { IfOk result (λ n. 0 < n) }
        ensures few { IfOk result (λ n. n ≤ most) }
        ensures stopped { OnErr result (StayingHasStopped level most self.old self.new) }
    {
        let passed = self.whole_idle_bits_or_to_sample(level, most);
        if 0 < passed {
            return Ok(passed);
        }
        Ok(passed + self.through_event(level, most - passed)?)
    }

    /// Runs whole bits of a free bus, or else the quanta up to and including the next sample: at most `most`. The drive
    /// stays. Returns how many, also none.
    fn whole_idle_bits_or_to_sample(&mut self, level: Level, most: u64) -> u64
        requires some { 0 < most }
        requires short { self.old.progress.quanta + most ≤ most_run_quanta }
        ensures gone { StayingHasGone level result self.old self.new }
        ensures stands { StayingStands self.old level result }
        ensures few { result ≤ most }
    {
        let rested = self.whole_idle_bits(level, most);
        if 0 < rested {
            return rested;
        }
        rested + self.to_sample(level, most - rested)
    }

    /// Runs quanta of this level up to and including the next sample, or `most` if that comes later; none if it can't be done at once.
    fn to_sample(&mut self, level: Level, most: u64) -> u64
        requires some { 0 < most }
        requires short { self.old.progress.quanta + most ≤ most_run_quanta }
        ensures gone { StayingHasGone level result self.old self.new }
        ensures stands { StayingStands self.old level result }
        ensures few { result ≤ most }
    {
        self.progress.to_sample(&self.setup, level, most)
    }

    /// Skips the quanta of this level without effect, then runs one: at least one quantum, and at most `most`. Refused if memory runs out:
    /// fewer than `most` were run then, or none, and the node drives what it drove.
    fn through_event(&mut self, level: Level, most: u64) -> Result<u64, AllocError>
        requires some { 0 < most }
        requires short { self.old.progress.quanta + most ≤ most_run_quanta }
        ensures gone { IfOk result (λ n. StayingHasGone level n self.old self.new) }
        ensures some { IfOk result (λ n. 0 < n) }
        ensures few { IfOk result (λ n. n ≤ most) }
        ensures stopped { OnErr result (StayingHasStopped level most self.old self.new) }
    {
        let passed = self.to_event(level, most);
        if passed == most {
            return Ok(passed);
        }
        self.prepare()?;
        self.run(level);
        Ok(passed + 1)
    }

    /// Skips quanta of this level in which nothing happens at all.
    fn to_event(&mut self, level: Level, most: u64) -> u64
        requires short { self.old.progress.quanta + most ≤ most_run_quanta }
        ensures gone { StayingHasGone level result self.old self.new }
        ensures stands { StayingStands self.old level result }
        ensures few { result ≤ most }
    {
        self.progress.to_event(level, most)
    }

    /// Skips whole bits of a recessive line on a free bus, at most `most` quanta. Only their samples are kept. It skips none if a frame is
    /// ready, and no more than there is room for.
    fn whole_idle_bits(&mut self, level: Level, most: u64) -> u64
        requires short { self.old.progress.quanta + most ≤ most_run_quanta }
        ensures gone { StayingHasGone level result self.old self.new }
        ensures stands { StayingStands self.old level result }
        ensures few { result ≤ most }
    {
        if level.is_dominant() {
            return 0;
        }
        match self.progress.idle_bit() {
            Some(quanta) => self.idle_bits_to_frame(quanta, most),
            None => 0,
        }
    }

    /// Skips bits of this many quanta each, at most `most` quanta in all, and no more bits than a run of samples takes.
    fn idle_bits_to_frame(&mut self, quanta: u16, most: u64) -> u64
        requires rests { AlwaysRests self.old.progress quanta }
        requires some { 0 < quanta }
        requires short { self.old.progress.quanta + most ≤ most_run_quanta }
        ensures gone { StayingHasGone Level.Recessive result self.old self.new }
        ensures stands { StayingStands self.old Level.Recessive result }
        ensures few { result ≤ most }
    {
        let ready = self.progress.ready_from(&self.setup);
        let left = ready.saturating_sub(self.progress.quanta).min(most);
        let bits = (left / quanta as u64).min(u8::MAX as u64) as u8;
        if bits == 0 || !self.progress.has_room() {
            return 0;
        }
        self.idle_bits(quanta, bits);
        bits as u64 * quanta as u64
    }

    /// Skips this many such bits. None of them reaches the quantum at which a frame is ready.
    fn idle_bits(&mut self, quanta: u16, bits: u8)
        requires rests { AlwaysRests self.old.progress quanta }
        requires some { 0 < quanta }
        requires none { (quantum : ℕ) → quantum < self.old.progress.quanta + bits * quanta
            → ready_head (left_in self.old.setup self.old.progress.traffic.unsent) quantum ≡ None }
        requires room { vec_len self.old.progress.traffic.samples.runs
            < vec_capacity self.old.progress.traffic.samples.runs }
        requires many { 0 < bits }
        requires short { self.old.progress.quanta + bits * quanta ≤ most_run_quanta }
        ensures gone { StayingHasGone Level.Recessive (bits * quanta) self.old self.new }
        ensures stands { StayingStands self.old Level.Recessive (bits * quanta) }
    {
        self.progress.idle_bits(&self.setup, quanta, bits);
    }
}

impl NodeProgress {
    /// Runs quanta of this level as long as the machine only keeps what is sampled: at most `most`. The first of them may find an edge. It
    /// runs none if there is no room. Returns how many.
    #[inline(always)]
    pub fn to_unkept_sample(&mut self, level: Level, most: u64) -> u64
        requires some { 0 < most }
        requires short { self.old.quanta + most ≤ most_run_quanta }
        requires fits { FitsQuanta self.old }
        ensures place { (setup : NodeSetup) → HasProgressedBy setup level result self.old self.new }
        ensures drive { (setup : NodeSetup) → KeepsDrive setup level (suc result) self.old }
        ensures few { result ≤ most }
        ensures keeps { KeepsCounts result self.old self.new }
    {
        let mut done = self.through_edge(level);
        while done < most {
            let kept = self.to_edge_or_unkept_sample(level, most - done);
            if kept == 0 {
                return done;
            }
            done += kept;
        }
        done
    }

    /// Runs one quantum of this level, if that finds an edge and isn't a sample, in a node that drives what its machine wants. Returns how
    /// many ran: 1 or none.
    #[inline(always)]
    fn through_edge(&mut self, level: Level) -> u64
        requires short { self.old.quanta < most_run_quanta }
        requires fits { FitsQuanta self.old }
        ensures place { (setup : NodeSetup) → HasProgressedBy setup level result self.old self.new }
        ensures drive { (setup : NodeSetup) → KeepsDrive setup level (suc result) self.old }
        ensures few { result ≤ 1 }
        ensures keeps { KeepsCounts result self.old self.new }
    {
        if !level.is_dominant() || !self.drive.is(self.traffic.pending) || !self.syncs.has_room() {
            return 0;
        }
        if self.clock.until_sample(level).is_some() {
            return 0;
        }
        self.edge_quantum(level)
    }

    /// Runs that quantum, unless it is a sample.
    #[inline(always)]
    fn edge_quantum(&mut self, level: Level) -> u64
        requires settled { self.old.drive ≡ self.old.traffic.pending }
        requires room { vec_len self.old.syncs.phases < vec_capacity self.old.syncs.phases }
        requires short { self.old.quanta < most_run_quanta }
        requires fits { FitsQuanta self.old }
        ensures place { (setup : NodeSetup) → HasProgressedBy setup level result self.old self.new }
        ensures drive { (setup : NodeSetup) → KeepsDrive setup level (suc result) self.old }
        ensures few { result ≤ 1 }
        ensures keeps { KeepsCounts result self.old self.new }
    {
        let was = self.clock;
        let seen = self.sees(level);
        let (beat, sync) = self.clock.see(seen);
        match beat {
            Beat::Sample(_) => {
                self.clock = was;
                return 0;
            }
            _ => {}
        }
        self.syncs.note(self.quanta, sync);
        self.quanta += 1;
        1
    }

    /// Runs quanta of this level in a node that drives recessive, as long as the machine only keeps what is sampled: at most `most`. If the
    /// next sample comes later than that, it runs `most`. It runs none if an edge comes, if the machine doesn't keep the next sample, or if
    /// there is no room. Returns how many.
    #[inline(always)]
    fn to_edge_or_unkept_sample(&mut self, level: Level, most: u64) -> u64
        requires some { 0 < most }
        requires short { self.old.quanta + most ≤ most_run_quanta }
        requires fits { FitsQuanta self.old }
        ensures place { (setup : NodeSetup) → HasProgressedBy setup level result self.old self.new }
        ensures drive { (setup : NodeSetup) → KeepsDrive setup level (suc result) self.old }
        ensures few { result ≤ most }
        ensures keeps { KeepsCounts result self.old self.new }
    {
        if self.drive.is_dominant() || !self.has_room() {
            return 0;
        }
        match self.clock.until_sample(level) {
            Some(before) if (before as u64) < most => self.through_kept_samples(
                level, before, most,
            ),
            Some(_) if !self.traffic.pending.is_dominant() => {
                self.skip(level, most as u16);
                most
            }
            _ => 0,
        }
    }

    /// Runs the `before` quanta that come before the next sample, that sample, and what follows, as long as the machine only keeps the
    /// samples: at most `most` quanta. It runs none if the machine doesn't keep the first sample. Returns how many.
    #[inline(always)]
    fn through_kept_samples(&mut self, level: Level, before: u16, most: u64) -> u64
        requires ahead { IsSampleAhead self.old.clock level }
        requires before { before ≡ quanta_before_sample self.old.clock }
        requires recessive { self.old.drive ≡ Level.Recessive }
        requires room { vec_len self.old.traffic.samples.runs < vec_capacity self.old.traffic.samples.runs }
        requires long { before < most }
        requires short { self.old.quanta + most ≤ most_run_quanta }
        requires fits { FitsQuanta self.old }
        ensures place { (setup : NodeSetup) → HasProgressedBy setup level result self.old self.new }
        ensures drive { (setup : NodeSetup) → KeepsDrive setup level (suc result) self.old }
        ensures few { result ≤ most }
        ensures keeps { KeepsCounts result self.old self.new }
    {
        let kept = self.to_last_kept_sample(level, before, most);
        if kept == 0 {
            return 0;
        }
        kept + self.to_most(level, most - kept)
    }

    /// Does the same up to and including the last of these samples.
    #[inline(always)]
    fn to_last_kept_sample(&mut self, level: Level, before: u16, most: u64) -> u64
        requires ahead { IsSampleAhead self.old.clock level }
        requires before { before ≡ quanta_before_sample self.old.clock }
        requires recessive { self.old.drive ≡ Level.Recessive }
        requires room { vec_len self.old.traffic.samples.runs < vec_capacity self.old.traffic.samples.runs }
        requires long { before < most }
        requires short { self.old.quanta + most ≤ most_run_quanta }
        requires fits { FitsQuanta self.old }
        ensures place { (setup : NodeSetup) → HasProgressedBy setup level result self.old self.new }
        ensures drive { (setup : NodeSetup) → KeepsDrive setup level (suc result) self.old }
        ensures few { result ≤ most }
        ensures keeps { KeepsCounts result self.old self.new }
        ensures free { 0 < result
            → free_quanta true self.new.clock level ≡ bit_quanta self.new.clock.lengths - 1 }
    {
        let bit = self.clock.bit_quanta();
        let from = self.quanta + before as u64;
        let bits = self
            .traffic
            .keep_bits(from, level, before as u64 + 1, bit, most);
        if bits == 0 {
            return 0;
        }
        self.clock.sample_bits(level, bits - 1);
        let done = before as u64 + 1 + (bits - 1) as u64 * bit as u64;
        self.quanta += done;
        done
    }

    /// Skips `rest` quanta right after a sample of this level. It skips none if the next sample is among them, or if the drive is to change.
    /// Returns how many.
    #[inline(always)]
    fn to_most(&mut self, level: Level, rest: u64) -> u64
        requires free { free_quanta true self.old.clock level ≡ bit_quanta self.old.clock.lengths - 1 }
        requires short { self.old.quanta + rest ≤ most_run_quanta }
        requires fits { FitsQuanta self.old }
        ensures place { (setup : NodeSetup) → HasProgressedBy setup level result self.old self.new }
        ensures drive { (setup : NodeSetup) → KeepsDrive setup level (suc result) self.old }
        ensures few { result ≤ rest }
        ensures keeps { KeepsCounts result self.old self.new }
    {
        if rest == 0
            || self.clock.bit_quanta() as u64 <= rest
            || !self.drive.is(self.traffic.pending)
        {
            return 0;
        }
        self.skip(level, rest as u16);
        rest
    }

    /// Runs quanta of this level up to and including the next sample, in a node that drives what its machine wants. If the sample comes
    /// later than `most` quanta, it runs `most`. If an edge comes, or if there is no room, it runs none. Returns how many.
    #[inline(always)]
    pub fn to_sample(&mut self, setup: &NodeSetup, level: Level, most: u64) -> u64
        requires some { 0 < most }
        requires short { self.old.quanta + most ≤ most_run_quanta }
        requires fits { FitsQuanta self.old }
        ensures place { HasProgressedBy setup.now level result self.old self.new }
        ensures drive { KeepsDrive setup.now level (suc result) self.old }
        ensures few { result ≤ most }
        ensures keeps { KeepsCounts result self.old self.new }
    {
        if !self.drive.is(self.traffic.pending) || !self.has_room() || !self.has_frame_room() {
            return 0;
        }
        match self.clock.until_sample(level) {
            Some(before) if (before as u64) < most => self.through_sample(setup, level, before),
            Some(_) => {
                self.skip(level, most as u16);
                most
            }
            None => 0,
        }
    }

    /// Runs this many quanta and the sample after them. Returns how many ran.
    #[inline(always)]
    fn through_sample(&mut self, setup: &NodeSetup, level: Level, before: u16) -> u64
        requires ahead { IsSampleAhead self.old.clock level }
        requires before { before ≡ quanta_before_sample self.old.clock }
        requires settled { same self.old.drive self.old.traffic.pending ≡ true }
        requires room { vec_len self.old.traffic.samples.runs < vec_capacity self.old.traffic.samples.runs }
        requires frames { vec_len self.old.traffic.frames < vec_capacity self.old.traffic.frames }
        requires short { self.old.quanta + before < most_run_quanta }
        requires fits { FitsQuanta self.old }
        ensures place { HasProgressedBy setup.now level result self.old self.new }
        ensures drive { KeepsDrive setup.now level (suc result) self.old }
        ensures all { result ≡ before + 1 }
        ensures keeps { KeepsCounts result self.old self.new }
    {
        let quantum = self.quanta + before as u64;
        self.traffic.take(setup, quantum, level);
        self.clock.sample(level);
        self.quanta = quantum + 1;
        before as u64 + 1
    }

    /// True only if there is room for one more frame.
    fn has_frame_room(&self) -> bool
        ensures { result ≡ true → vec_len self.now.traffic.frames < vec_capacity self.now.traffic.frames }
    {
        self.traffic.frames.len() < self.traffic.frames.capacity()
    }

    /// Skips quanta of this level, at most `most`, in which nothing happens. None is a sample, none finds an edge, and a bit starts only if
    /// the node drives what its machine wants. Returns how many.
    pub fn to_event(&mut self, level: Level, most: u64) -> u64
        requires short { self.old.quanta + most ≤ most_run_quanta }
        requires fits { FitsQuanta self.old }
        ensures place { (setup : NodeSetup) → HasProgressedBy setup level result self.old self.new }
        ensures drive { (setup : NodeSetup) → KeepsDrive setup level (suc result) self.old }
        ensures few { result ≤ most }
        ensures room { IsRoomy self.old → IsRoomy self.new }
        ensures keeps { KeepsCounts result self.old self.new }
    {
        let settled = self.drive.is(self.traffic.pending);
        let free = (self.clock.free_quanta(level, settled) as u64).min(most);
        if 0 < free {
            self.skip(level, free as u16);
        }
        free
    }

    /// Skips this many of them at once.
    pub fn skip(&mut self, level: Level, quanta: u16)
        requires some { 0 < quanta }
        requires few { quanta ≤ free_quanta (same self.old.drive self.old.traffic.pending) self.old.clock level }
        requires short { self.old.quanta + quanta ≤ most_run_quanta }
        requires fits { FitsQuanta self.old }
        ensures place { (setup : NodeSetup) → HasProgressedBy setup level quanta self.old self.new }
        ensures drive { (setup : NodeSetup) → KeepsDrive setup level (suc quanta) self.old }
        ensures room { IsRoomy self.old → IsRoomy self.new }
        ensures keeps { KeepsCounts quanta self.old self.new }
    {
        self.clock.skip(level, quanta);
        self.quanta += quanta as u64;
    }

    /// Returns the quanta of a bit, if that number of recessive ones leaves all but the samples as it is, as long as no frame is ready. So
    /// it is on a free bus, right after the sample of a bit that nothing moved.
    pub fn idle_bit(&self) -> Option<u16>
        ensures rests { (n : ℕ) → result ≡ Some n → AlwaysRests self.now n }
        ensures some { (n : ℕ) → result ≡ Some n → 0 < n }
    {
        if !self.traffic.machine.is_free() || !self.drive.is(self.traffic.pending) {
            return None;
        }
        self.clock.resting_bit()
    }

    /// Runs this many such bits at once. In none of them a frame is ready, and there is room for a run of samples.
    pub fn idle_bits(&mut self, setup: &NodeSetup, quanta: u16, bits: u8)
        requires rests { AlwaysRests self.old quanta }
        requires some { 0 < quanta }
        requires none { (quantum : ℕ) → quantum < self.old.quanta + bits * quanta
            → ready_head (left_in setup.now self.old.traffic.unsent) quantum ≡ None }
        requires room { vec_len self.old.traffic.samples.runs < vec_capacity self.old.traffic.samples.runs }
        requires many { 0 < bits }
        requires short { self.old.quanta + bits * quanta ≤ most_run_quanta }
        requires fits { FitsQuanta self.old }
        ensures place { HasProgressedBy setup.now Level.Recessive (bits * quanta) self.old self.new }
        ensures drive { KeepsDrive setup.now Level.Recessive (suc (bits * quanta)) self.old }
        ensures keeps { KeepsCounts (bits * quanta) self.old self.new }
    {
        let from = self.quanta + quanta as u64 - 1;
        self.traffic
            .samples
            .push_run(from, quanta, Level::Recessive, bits);
        self.quanta += bits as u64 * quanta as u64;
    }

    /// True only if there is room for one more sample.
    pub fn has_room(&self) -> bool
        ensures { result ≡ true → vec_len self.now.traffic.samples.runs < vec_capacity self.now.traffic.samples.runs }
    {
        self.traffic.samples.runs.len() < self.traffic.samples.runs.capacity()
    }

    /// Returns the quantum before which no frame is ready, as long as none is sent.
    pub fn ready_from(&self, setup: &NodeSetup) -> u64
        ensures { (quantum : ℕ) → quantum < result
            → ready_head (left_in setup.now self.now.traffic.unsent) quantum ≡ None }
    {
        match self.traffic.unsent.frames(setup).first() {
            Some(first) => first.ready,
            None => u64::MAX,
        }
    }
}
