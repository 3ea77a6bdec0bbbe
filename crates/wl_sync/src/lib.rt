//! The bit clock of a node: which quantum begins a bit, which one samples it, and how edges of the line move both.
//!
//! A bit is SYNC_SEG, PROP_SEG, PHASE_SEG1 and PHASE_SEG2, and is sampled after PHASE_SEG1. An edge from recessive to dominant synchronises
//! the bit (Bosch CAN 2.0 part B, section 10; ISO 11898-1, bit timing). If it may be a start of frame it begins a new bit: hard
//! synchronisation. Otherwise it moves the sample or the end of the bit by the jump width at most: resynchronisation. The line is looked at
//! once a quantum, at the tick where the quantum begins: that is this project's profile. The segments have the rules: whether an edge lies
//! in the quantum that finds it or in the one before, and where it may be a start of frame.
#![tactic(auto)]

ghost use Rattle.std.specs.Prelude.{◌≡◌, ◌≢◌, ◌↔◌, ℕ, suc, ◌+◌, ◌-◌, ◌<◌, ◌≤◌, replicate, ◌==◌, ◌&&◌, true, false, List, [], ◌∷◌, ◌++◌, Some, MatchOption, if◌then◌else◌};
ghost use Rattle.wl_segments.specs.Lengths.{Lengths, AreLengths, sample_at, bit_quanta, found_at};

mod laws;

pub use laws::{clock_goes_on, recessive_samples_are_bits_apart, the_sample_comes_near};
use std::marker::Model;
use wl_level::Level;
use wl_segments::{Segments, SyncRules};

/// What a quantum is in its bit.
#[derive(Clone, Copy, Debug, PartialEq, Eq)]
pub enum Beat {
    /// Neither of the others.
    Plain,
    /// It samples the bit, at this level.
    Sample(Level),
    /// It begins a bit.
    Start,
}

/// How a quantum synchronises its bit.
#[derive(Clone, Copy, Debug, PartialEq, Eq)]
pub enum Sync {
    /// Hard synchronisation: the edge may be a start of frame, and the bit begins again with the quantum in which the edge lies.
    Hard,
    /// Resynchronisation at a phase error, in quanta: 0 at the start of the bit, positive before the sample, negative after it.
    Error(i16),
}

/// What a node sees at one quantum, and what it does then.
#[derive(Clone, Copy)]
pub struct Seen {
    /// The line's level at the quantum.
    pub level: Level,
    /// True if the bus is idle to the node: it is idle or in suspend transmission.
    pub idle: bool,
    /// True if the next edge may be a start of frame to the node. So it is idle, suspended or integrating, or has decided to send, or is
    /// between the samples of the first and the third bit of an intermission.
    pub awaits: bool,
    /// True if the node integrates: it waits for eleven recessive bits in a row.
    pub integrates: bool,
    /// True if the node drove dominant up to this quantum.
    pub driving: bool,
}

/// The bit clock of a node: its segments, and what it keeps of the running bit.
#[derive(Clone, Copy, Debug, PartialEq, Eq)]
pub struct BitClock {
    segments: Segments,
    quanta: u16,
    longer: u16,
    shorter: u16,
    synced: bool,
    level: Level,
    sample: Level,
}

impl Model for BitClock {
    ghost use Rattle.wl_sync.specs.Running.{Running};
    ghost use Rattle.wl_sync.specs.Steps.{IsBitClock};

    ghost Value = { Running };

    ghost view = { λ c. record {
      lengths = c.segments;
      quanta = c.quanta;
      longer = c.longer;
      shorter = c.shorter;
      synced = c.synced;
      level = c.level;
      sample = c.sample;
    } };

    ghost inverse = { λ r. record {
      segments = r.lengths;
      quanta = r.quanta;
      longer = r.longer;
      shorter = r.shorter;
      synced = r.synced;
      level = r.level;
      sample = r.sample;
    } };

    ghost invariant = { λ c. IsBitClock (record {
      lengths = c.segments;
      quanta = c.quanta;
      longer = c.longer;
      shorter = c.shorter;
      synced = c.synced;
      level = c.level;
      sample = c.sample;
    }) };
}

impl BitClock {
    ghost use Rattle.wl_sync.specs.Edges.{again_by, promised_seen, is_hard_edge, longer_by, looks, phase_error, restarts_at, shorter_by};
    ghost use Rattle.wl_sync.specs.Bits.{beat_of, sync_of, before_sample, bit_of};
    ghost use Rattle.wl_sync.specs.Running.{clock_after, Follows};
    ghost use Rattle.wl_sync.specs.Skips.{finds_edge, free_quanta, moved_place, quanta_before_sample, sampled_bits, sampled_new, sampled_on, steady_clock, IsPlain, IsRestingBit, IsSampleAhead, IsSampledAfter, IsUnmoved, IsUnsampled, SamplesAfter};
    ghost use Rattle.wl_sync.specs.Steps.{IsBitClock, MeetsStart, beat_between, end_of, is_by_the_book, is_sampled, longer_with, passed_edge, running_counts, running_due, running_edge, running_moved, running_on, running_passed, running_started, samples};

    /// Returns the bit clock before the first quantum, on a line that was recessive. A bit begins with that quantum, or with the edge that
    /// it finds.
    pub fn new(segments: Segments) -> BitClock
        ensures { result ≡ clock_after segments [] }
    {
        let quanta = match segments.sync() {
            SyncRules::After => 0,
            SyncRules::Book => segments.bit_quanta() as u16,
        };
        let _ = segments.sample_at();
        BitClock {
            segments,
            quanta,
            longer: 0,
            shorter: 0,
            synced: false,
            level: Level::Recessive,
            sample: Level::Recessive,
        }
    }

    /// Runs one quantum, at which the node sees this, and returns what the quantum is in its bit, and how it synchronises the bit, if it does.
    ///
    /// The profile's rules synchronise hard with `idle`, those of the book with `awaits` and without `driving`. A bit synchronises once, but
    /// for a node that integrates: by the book it synchronises hard by each edge. After any list of quanta both answers, and what the clock
    /// keeps, are those of that list.
    #[inline(always)]
    pub fn see(&mut self, seen: Seen) -> (Beat, Option<Sync>)
        ensures clock { Follows self.old (λ l past. self.new ≡ clock_after l (past ++ seen ∷ [])) }
        ensures beat { Follows self.old (λ l past. result.0 ≡ beat_of l past seen) }
        ensures sync { Follows self.old (λ l past. result.1 ≡ sync_of l past seen) }
    {
        if self.goes_on(seen.level) {
            let beat = self.go_on(seen.level);
            return (beat, None);
        }
        if self.meets_start(seen.level, seen.idle) {
            self.start(seen.level);
            return (Beat::Start, Some(Sync::Error(0)));
        }
        self.look(seen)
    }

    /// Does the same of a node that awaits a start of frame only on an idle bus, and doesn't integrate.
    pub fn step(&mut self, level: Level, idle: bool, driving: bool) -> (Beat, Option<Sync>)
        ensures clock { Follows self.old (λ l past. self.new ≡ clock_after l (past ++ promised_seen level idle driving ∷ [])) }
        ensures beat { Follows self.old (λ l past. result.0 ≡ beat_of l past (promised_seen level idle driving)) }
        ensures sync { Follows self.old (λ l past. result.1 ≡ sync_of l past (promised_seen level idle driving)) }
    {
        self.see(Seen {
            level,
            idle,
            awaits: idle,
            integrates: false,
            driving,
        })
    }

    /// Returns the number of quanta up to and including the sample of the current bit: from 1 to 385. `None` before quantum 0, and from the
    /// sample up to the next bit's start.
    ///
    /// It goes from the last quantum's place in its bit to the place of the sample, as edges have moved that so far. An edge that comes
    /// later makes it longer.
    pub fn before_sample(&self) -> Option<u16>
        ensures { Follows self.now (λ l past. result ≡ before_sample l (bit_of l past)) }
    {
        let place = self.sample_at() + self.longer;
        if 0 < self.quanta && self.quanta <= place {
            Some(place + 1 - self.quanta)
        } else {
            None
        }
    }

    /// Returns how many quanta of this level come before the next that samples or begins a bit; with `starts`, before the next that samples
    /// one. 0 if the first of them finds an edge from recessive to dominant. From 0 to 384.
    pub fn free_quanta(&self, level: Level, starts: bool) -> u16
        ensures { result ≡ free_quanta starts self.now level }
    {
        if level.is_dominant() && !self.level.is_dominant() {
            return 0;
        }
        let place = self.sample_at() + self.longer;
        if self.quanta <= place {
            if starts || 0 < self.quanta {
                return place - self.quanta;
            }
            return 0;
        }
        let rest = self.end_at() - self.quanta;
        if starts {
            rest + self.sample_at()
        } else {
            rest
        }
    }

    /// Returns how many quanta of this level come before the next that samples a bit: from 0 to 384. `None` if the first of them, or that
    /// sample itself, finds an edge from recessive to dominant.
    #[inline(always)]
    pub fn until_sample(&self, level: Level) -> Option<u16>
        ensures ahead { (n : ℕ) → result ≡ Some n → IsSampleAhead self.now level }
        ensures value { (n : ℕ) → result ≡ Some n → n ≡ quanta_before_sample self.now }
    {
        if !self.level.is_dominant() && level.is_dominant() {
            return None;
        }
        let place = self.sample_at() + self.longer;
        if place < self.quanta {
            return Some(self.end_at() - self.quanta + self.sample_at());
        }
        if self.shorter == 0 {
            Some(place - self.quanta)
        } else {
            None
        }
    }

    /// Runs the quanta of this level that come before the next sample, as [`BitClock::until_sample`] counts them, and that sample, at once.
    /// What the clock keeps is what it keeps after the same number of steps. No edge synchronises, and the last one alone is a sample.
    #[inline(always)]
    pub fn sample(&mut self, level: Level)
        requires { IsSampleAhead self.old level }
        ensures clock { Follows self.old (λ l past. (x : Seen) → x.level ≡ level
            → self.new ≡ clock_after l (past ++ replicate (suc (quanta_before_sample self.old)) x)) }
        ensures sampled { Follows self.old (λ l past. (x : Seen) → x.level ≡ level
            → IsSampledAfter l past x (quanta_before_sample self.old)) }
        ensures value { self.new ≡ sampled_bits self.old level 0 }
    {
        if self.sample_at() + self.longer < self.quanta {
            self.sample_next(level);
            return;
        }
        self.sample_this(level);
    }

    /// Runs the quanta of this level up to and including the next sample, as [`BitClock::sample`] does, and then `more` bits, each up to and
    /// including its sample. Each of these is as long as a bit that nothing moved. No edge synchronises.
    #[inline(always)]
    pub fn sample_bits(&mut self, level: Level, more: u8)
        requires { IsSampleAhead self.old level }
        ensures clock { self.new ≡ sampled_bits self.old level more }
        ensures first { SamplesAfter self.old level (quanta_before_sample self.old) (sampled_bits self.old level 0) }
        ensures next { (k : ℕ) → SamplesAfter (sampled_bits self.old level k) level (bit_quanta self.old.lengths - 1)
            (sampled_bits self.old level (suc k)) }
        ensures free { free_quanta true self.new level ≡ bit_quanta self.old.lengths - 1 }
    {
        // The proof needs what holds of each bit clock.
        let _ = &self.segments;
        if 0 < more {
            self.sample_next(level);
            return;
        }
        self.sample(level);
    }

    /// Goes to the sample of the running bit.
    #[inline(always)]
    fn sample_this(&mut self, level: Level)
        requires { moved_place self.old < end_of self.old }
        ensures clock { self.new ≡ sampled_on self.old level }
        ensures kept { IsBitClock self.old }
    {
        self.quanta = self.sample_at() + self.longer + 1;
        self.level = level;
        self.sample = level;
    }

    /// Goes to the sample of the next bit.
    #[inline(always)]
    fn sample_next(&mut self, level: Level)
        ensures clock { self.new ≡ sampled_new self.old level }
        ensures kept { IsBitClock self.old }
    {
        self.quanta = self.sample_at() + 1;
        self.longer = 0;
        self.shorter = 0;
        self.synced = false;
        self.level = level;
        self.sample = level;
    }

    /// Returns the quanta of a bit, if that number of recessive ones would leave what the clock keeps as it is: the last of them samples
    /// the bit, and nothing else happens. So it is right after the recessive sample of a bit that nothing moved; `None` elsewhere.
    pub fn resting_bit(&self) -> Option<u16>
        ensures steady { MatchOption result (self.now ≢ steady_clock self.now.lengths)
            (λ n. (self.now ≡ steady_clock self.now.lengths) × (n ≡ bit_quanta self.now.lengths)) }
        ensures some { (n : ℕ) → result ≡ Some n → 0 < n }
        ensures rests { (n : ℕ) → result ≡ Some n → Follows self.now (λ l past. (x : Seen) → x.level ≡ Level.Recessive
            → IsRestingBit l past x n) }
    {
        if self.is_steady() {
            Some(self.bit_quanta())
        } else {
            None
        }
    }

    /// True if the last quantum was the recessive sample of a bit that nothing moved.
    fn is_steady(&self) -> bool
        ensures { result ≡ true ↔ self.now ≡ steady_clock self.now.lengths }
    {
        !self.synced
            && self.quanta == self.sample_at() + 1
            && self.longer == 0
            && self.shorter == 0
            && !self.level.is_dominant()
            && !self.sample.is_dominant()
    }

    /// Runs this many quanta of this level at once. There are no more than [`BitClock::free_quanta`] says with `starts`, so none of them is
    /// a sample, and no edge synchronises. What the clock keeps is what it keeps after the same number of steps. If there are no more than
    /// [`BitClock::free_quanta`] says without `starts`, none begins a bit.
    #[inline(always)]
    pub fn skip(&mut self, level: Level, quanta: u16)
        requires some { 0 < quanta }
        requires few { quanta ≤ free_quanta true self.old level }
        ensures clock { Follows self.old (λ l past. (x : Seen) → x.level ≡ level
            → self.new ≡ clock_after l (past ++ replicate quanta x)) }
        ensures unmoved { Follows self.old (λ l past. (x : Seen) → x.level ≡ level → IsUnmoved l past x quanta) }
        ensures unsampled { Follows self.old (λ l past. (x : Seen) → x.level ≡ level → IsUnsampled l past x quanta) }
        ensures plain { quanta ≤ free_quanta false self.old level
            → Follows self.old (λ l past. (x : Seen) → x.level ≡ level → IsPlain l past x quanta) }
    {
        let end = self.end_at();
        self.quanta += quanta;
        if end < self.quanta {
            self.quanta -= end;
            self.longer = 0;
            self.shorter = 0;
            self.synced = false;
        }
        self.level = level;
    }

    /// Returns the quanta of the bit as it was moved.
    #[inline(always)]
    fn end_at(&self) -> u16
        ensures end { result ≡ end_of self.now }
        ensures clock { IsBitClock self.now }
    {
        self.bit_quanta() + self.longer - self.shorter
    }

    /// Returns the place of the sample in a bit that nothing moved.
    #[inline(always)]
    fn sample_at(&self) -> u16
        ensures place { result ≡ sample_at self.now.lengths }
        ensures lengths { AreLengths self.now.lengths }
    {
        self.segments.sample_at() as u16
    }

    /// Returns the quanta of a bit that nothing moved.
    #[inline(always)]
    pub fn bit_quanta(&self) -> u16
        ensures quanta { result ≡ bit_quanta self.now.lengths }
        ensures lengths { AreLengths self.now.lengths }
    {
        self.segments.bit_quanta() as u16
    }

    /// Returns the jump width.
    #[inline(always)]
    fn jump(&self) -> u16
        ensures jump { result ≡ self.now.lengths.sjw }
        ensures lengths { AreLengths self.now.lengths }
    {
        self.segments.sjw() as u16
    }

    /// Returns the place, in the bit that an edge begins, of the quantum that finds the edge.
    #[inline(always)]
    fn found_at(&self) -> u16
        ensures { result ≡ found_at self.now.lengths }
    {
        self.segments.found_at() as u16
    }

    /// True if the quantum finds no edge, and comes in the running bit, which has begun.
    #[inline(always)]
    fn goes_on(&self, level: Level) -> bool
        ensures edge { result ≡ true → finds_edge self.now level ≡ false }
        ensures begun { result ≡ true → 0 < self.now.quanta }
        ensures inside { result ≡ true → self.now.quanta < end_of self.now }
        ensures clock { IsBitClock self.now }
    {
        let finds_edge = level.is_dominant() && !self.level.is_dominant();
        !finds_edge && 0 < self.quanta && self.quanta < self.end_at()
    }

    /// Runs such a quantum: it samples the bit, or does nothing.
    #[inline(always)]
    fn go_on(&mut self, level: Level) -> Beat
        requires begun { 0 < self.old.quanta }
        requires inside { self.old.quanta < end_of self.old }
        ensures clock { self.new ≡ running_on self.old level }
        ensures beat { result ≡ (if is_sampled self.old then Beat.Sample level else Beat.Plain) }
    {
        let is_sampled = self.quanta == self.sample_at() + self.longer;
        self.count(level, is_sampled)
    }

    /// True only if the running bit is over and the next one begins with an edge right at its start, of phase error 0. That needs
    /// [`SyncRules::After`] and a bus that isn't idle. The general way gives the same; this one is short.
    #[inline(always)]
    fn meets_start(&self, level: Level, idle: bool) -> bool
        ensures { result ≡ true → MeetsStart self.now level idle }
    {
        let after = match self.segments.sync() {
            SyncRules::After => true,
            SyncRules::Book => false,
        };
        after
            && !idle
            && level.is_dominant()
            && !self.level.is_dominant()
            && !self.sample.is_dominant()
            && self.quanta == self.end_at()
    }

    /// Begins such a bit.
    #[inline(always)]
    fn start(&mut self, level: Level)
        ensures { self.new ≡ running_started self.old level }
    {
        self.quanta = 1;
        self.longer = 0;
        self.shorter = 0;
        self.synced = true;
        self.level = level;
    }

    /// Runs one quantum that may find an edge, or begin a bit.
    #[inline(always)]
    fn look(&mut self, seen: Seen) -> (Beat, Option<Sync>)
        ensures clock { Follows self.old (λ l past. self.new ≡ clock_after l (past ++ seen ∷ [])) }
        ensures beat { Follows self.old (λ l past. result.0 ≡ beat_of l past seen) }
        ensures sync { Follows self.old (λ l past. result.1 ≡ sync_of l past seen) }
    {
        self.reach_edge();
        let hard = self.is_hard_edge(seen);
        let counts = self.is_sync(seen, hard);
        let sync = if counts { Some(self.sync(hard)) } else { None };
        let restarts = self.is_restart(counts, hard);
        let beat = self.place(seen.level, counts, restarts);
        (beat, sync)
    }

    /// Goes to the bit in which the edge lies that this quantum finds, if it finds one: its own, or that of the quantum before.
    #[inline(always)]
    fn reach_edge(&mut self)
        ensures edge { self.new ≡ running_edge self.old }
        ensures room { self.new.lengths.sync ≡ SyncRules.After
            → self.new.quanta + self.new.shorter < bit_quanta self.new.lengths + self.new.longer }
    {
        match self.segments.sync() {
            SyncRules::After => self.begin_due(),
            SyncRules::Book => {}
        }
    }

    /// Begins a new bit if the running one is over.
    #[inline(always)]
    fn begin_due(&mut self)
        ensures due { self.new ≡ running_due self.old }
        ensures room { self.new.quanta + self.new.shorter < bit_quanta self.new.lengths + self.new.longer }
    {
        if self.quanta == self.bit_quanta() + self.longer - self.shorter {
            self.quanta = 0;
            self.longer = 0;
            self.shorter = 0;
            self.synced = false;
        }
    }

    /// True if the node synchronises hard: on an idle bus, or by the book wherever the next edge may be a start of frame, up to its own.
    #[inline(always)]
    fn is_hard_edge(&self, seen: Seen) -> bool
        ensures { result ≡ is_hard_edge self.now.lengths.sync seen }
    {
        match self.segments.sync() {
            SyncRules::After => seen.idle,
            SyncRules::Book => seen.awaits && !seen.driving,
        }
    }

    /// True if an edge synchronises also a bit that has synchronised: by the book it does so hard at a node that integrates.
    #[inline(always)]
    fn syncs_again(&self, hard: bool, integrates: bool) -> bool
        ensures { result ≡ again_by self.now.lengths.sync hard integrates }
    {
        match self.segments.sync() {
            SyncRules::After => false,
            SyncRules::Book => hard && integrates,
        }
    }

    /// True if the quantum looks for an edge.
    #[inline(always)]
    fn looks(&self) -> bool
        ensures { result ≡ looks self.now.lengths.sync (sample_at self.now.lengths) self.now.quanta }
    {
        match self.segments.sync() {
            SyncRules::After => self.quanta != self.sample_at(),
            SyncRules::Book => 0 < self.quanta,
        }
    }

    /// True if the edge that is seen now counts.
    #[inline(always)]
    fn is_sync(&self, seen: Seen, hard: bool) -> bool
        ensures { result ≡ running_counts self.now seen hard }
    {
        let is_late = self.found_at() < self.quanta && self.quanta <= self.sample_at();
        seen.level.is_dominant()
            && !self.level.is_dominant()
            && !self.sample.is_dominant()
            && self.looks()
            && !(is_late && seen.driving && !hard)
            && (!self.synced || self.syncs_again(hard, seen.integrates))
    }

    /// Returns how an edge that counts synchronises the bit.
    fn sync(&self, hard: bool) -> Sync
        ensures { result ≡ (if hard then Sync.Hard else Sync.Error (phase_error self.now.lengths self.now.quanta)) }
    {
        if hard {
            return Sync::Hard;
        }
        let found_at = self.found_at();
        if self.quanta > self.sample_at() {
            Sync::Error(self.quanta as i16 - (found_at + self.bit_quanta()) as i16)
        } else {
            Sync::Error(self.quanta.saturating_sub(found_at) as i16)
        }
    }

    /// True if the edge counts, and begins the bit again.
    #[inline(always)]
    fn is_restart(&self, counts: bool, hard: bool) -> bool
        ensures restart { result ≡ (counts && restarts_at self.now.lengths hard self.now.quanta) }
        ensures stays { counts ≡ true → result ≡ false → sample_at self.now.lengths < self.now.quanta
            → self.now.lengths.sjw < found_at self.now.lengths + bit_quanta self.now.lengths - self.now.quanta }
    {
        let is_near_end = self.sample_at() < self.quanta
            && (self.found_at() + self.bit_quanta()).saturating_sub(self.quanta) <= self.jump();
        counts && (hard || is_near_end)
    }

    /// Puts the quantum into its bit, and returns what it is there.
    #[inline(always)]
    fn place(&mut self, level: Level, counts: bool, restarts: bool) -> Beat
        requires room { self.old.lengths.sync ≡ SyncRules.After
            → self.old.quanta + self.old.shorter < bit_quanta self.old.lengths + self.old.longer }
        requires fresh { counts ≡ true → restarts ≡ false → self.old.synced ≡ false }
        requires stays { counts ≡ true → restarts ≡ false → sample_at self.old.lengths < self.old.quanta
            → self.old.lengths.sjw < found_at self.old.lengths + bit_quanta self.old.lengths - self.old.quanta }
        ensures clock { self.new ≡ running_passed self.old counts restarts level }
        ensures beat { result ≡ beat_between restarts self.old self.new level }
    {
        if restarts {
            self.restart(level);
            return Beat::Start;
        }
        let is_sampled = self.pass_edge(counts);
        self.reach_quantum();
        let is_sampled = is_sampled && 0 < self.quanta;
        self.count(level, is_sampled)
    }

    /// Begins a new bit, by the edge too, if an edge lies in the quantum before and the running bit is over.
    #[inline(always)]
    fn reach_quantum(&mut self)
        requires room { self.old.lengths.sync ≡ SyncRules.After
            → self.old.quanta + self.old.shorter < bit_quanta self.old.lengths + self.old.longer }
        ensures quantum { self.new ≡ (if is_by_the_book self.old.lengths.sync then running_due self.old else self.old) }
        ensures room { self.new.quanta + self.new.shorter < bit_quanta self.new.lengths + self.new.longer }
    {
        match self.segments.sync() {
            SyncRules::After => {}
            SyncRules::Book => self.begin_due(),
        }
    }

    /// Begins a bit again with the quantum in which the edge lies.
    #[inline(always)]
    fn restart(&mut self, level: Level)
        ensures { self.new ≡ record self.old {
          quanta = suc (found_at self.old.lengths);
          longer = 0;
          shorter = 0;
          synced = true;
          level = level;
        } }
    {
        self.quanta = 1 + self.found_at();
        self.longer = 0;
        self.shorter = 0;
        self.synced = true;
        self.level = level;
    }

    /// Moves the bit by an edge that counts. True if the quantum is the sample even so.
    #[inline(always)]
    fn pass_edge(&mut self, counts: bool) -> bool
        requires room { self.old.lengths.sync ≡ SyncRules.After
            → self.old.quanta + self.old.shorter < bit_quanta self.old.lengths + self.old.longer }
        requires fresh { counts ≡ true → self.old.synced ≡ false }
        requires stays { counts ≡ true → sample_at self.old.lengths < self.old.quanta
            → self.old.lengths.sjw < found_at self.old.lengths + bit_quanta self.old.lengths - self.old.quanta }
        ensures bit { self.new ≡ passed_edge self.old counts }
        ensures sample { result ≡ samples self.old (longer_with self.old counts) }
        ensures room { self.new.lengths.sync ≡ SyncRules.After
            → self.new.quanta + self.new.shorter < bit_quanta self.new.lengths + self.new.longer }
    {
        if counts {
            self.synchronise();
        }
        self.quanta == self.sample_at() + self.longer
    }

    /// Moves the sample or the end of a bit that nothing moved yet; the sample also if this quantum would be it.
    #[inline(always)]
    fn synchronise(&mut self)
        requires fresh { self.old.synced ≡ false }
        requires stays { sample_at self.old.lengths < self.old.quanta
            → self.old.lengths.sjw < found_at self.old.lengths + bit_quanta self.old.lengths - self.old.quanta }
        requires room { self.old.lengths.sync ≡ SyncRules.After
            → self.old.quanta + self.old.shorter < bit_quanta self.old.lengths + self.old.longer }
        ensures { self.new ≡ record self.old {
          longer = longer_by self.old.lengths (Some self.old.quanta);
          shorter = shorter_by self.old.lengths (Some self.old.quanta);
          synced = true;
        } }
    {
        let sample_at = self.sample_at();
        let jump = self.jump();
        if self.quanta <= sample_at {
            self.longer = self.quanta.saturating_sub(self.found_at()).min(jump);
        }
        if sample_at < self.quanta {
            self.shorter = jump;
        }
        self.synced = true;
    }

    /// Counts the quantum.
    fn count(&mut self, level: Level, is_sampled: bool) -> Beat
        requires { self.old.quanta + self.old.shorter < bit_quanta self.old.lengths + self.old.longer }
        ensures clock { self.new ≡ record self.old {
          quanta = self.old.quanta + 1;
          level = level;
          sample = if is_sampled then level else self.old.sample;
        } }
        ensures beat { result
            ≡ (if self.old.quanta + 1 == 1 then Beat.Start else if is_sampled then Beat.Sample level else Beat.Plain) }
    {
        self.level = level;
        self.quanta += 1;
        if is_sampled {
            self.sample = level;
        }
        if self.quanta == 1 {
            Beat::Start
        } else if is_sampled {
            Beat::Sample(level)
        } else {
            Beat::Plain
        }
    }
}
