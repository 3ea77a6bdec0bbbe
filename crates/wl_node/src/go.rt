//! Quanta of one level of a node that may leave the bus among them.

ghost use Rattle.std.specs.Prelude.{◌≡◌, ◌+◌, ◌<◌, ◌≤◌, true, false, OnErr, IfOk};
ghost use Rattle.wl_node.specs.History.{is_after, quanta_before};
ghost use Rattle.wl_node.specs.Limits.{most_run_quanta};

use crate::node::Node;
use std::alloc::AllocError;
use wl_level::Level;

impl Node {
    ghost use Rattle.wl_node.specs.Reached.{node_setup, quanta_of, HasGone, HasStopped, StandsFor, TurnsAfter};

    /// Runs quanta of one level, up to and including the first that changes the drive: at most `most`, which is above 0. Returns how many
    /// ran, at least one.
    ///
    /// At most [`MOST_RUN_QUANTA`](crate::MOST_RUN_QUANTA) quanta were run, `most` more counted. Refused if memory runs out: fewer than
    /// `most` were run then, or none, and the node drives what it drove.
    #[inline(always)]
    pub fn go(&mut self, level: Level, most: u64) -> Result<u64, AllocError>
        requires some { 0 < most }
        requires short { quanta_of self.old + most ≤ most_run_quanta }
        ensures gone { IfOk result (λ n. HasGone level n self.old self.new) }
        ensures some { IfOk result (λ n. 0 < n) }
        ensures few { IfOk result (λ n. n ≤ most) }
        ensures turned { IfOk result (λ n. n < most → TurnsAfter self.old level n) }
        ensures stopped { OnErr result (HasStopped level most self.old self.new) }
    {
        if self.staying.setup.until.is_some() {
            return self.go_until(level, most);
        }
        self.go_there(level, most)
    }

    /// Runs such quanta of a node that has a quantum at which it leaves.
    #[inline(never)]
    fn go_until(&mut self, level: Level, most: u64) -> Result<u64, AllocError>
        requires some { 0 < most }
        requires short { quanta_of self.old + most ≤ most_run_quanta }
        ensures gone { IfOk result (λ n. HasGone level n self.old self.new) }
        ensures some { IfOk result (λ n. 0 < n) }
        ensures few { IfOk result (λ n. n ≤ most) }
        ensures turned { IfOk result (λ n. n < most → TurnsAfter self.old level n) }
        ensures stopped { OnErr result (HasStopped level most self.old self.new) }
    {
        if self.is_away() {
            return Ok(self.go_away(level, most));
        }
        let before = self.drive();
        let there = self.quanta_there(most);
        let ran = self.go_there(level, there)?;
        if ran < there || ran == most || !self.drive().is(before) {
            return Ok(ran);
        }
        Ok(ran + self.go_away(level, most - ran))
    }

    /// Returns how many of these quanta come before the node leaves the bus.
    fn quanta_there(&self, most: u64) -> u64
        ensures { result ≡ quanta_before (node_setup self.now).until self.now.staying.progress.quanta most }
    {
        match self.staying.setup.until {
            Some(until) => most.min(until.saturating_sub(self.staying.progress.quanta)),
            None => most,
        }
    }

    /// Runs such quanta before the node leaves.
    #[inline(always)]
    fn go_there(&mut self, level: Level, most: u64) -> Result<u64, AllocError>
        requires there { most ≤ quanta_before (node_setup self.old).until self.old.staying.progress.quanta most }
        requires some { 0 < most }
        requires short { quanta_of self.old + most ≤ most_run_quanta }
        ensures gone { IfOk result (λ n. HasGone level n self.old self.new) }
        ensures some { IfOk result (λ n. 0 < n) }
        ensures few { IfOk result (λ n. n ≤ most) }
        ensures turned { IfOk result (λ n. n < most → TurnsAfter self.old level n) }
        ensures stopped { OnErr result (HasStopped level most self.old self.new) }
        ensures quanta { IfOk result (λ n. self.new.staying.progress.quanta ≡ self.old.staying.progress.quanta + n) }
    {
        let ran = self.staying.go(level, most)?;
        Ok(ran)
    }

    /// Runs such quanta of a node that leaves with the first of them, or has left: at its first one it drives recessive.
    fn go_away(&mut self, level: Level, most: u64) -> u64
        requires away { is_after (node_setup self.old).until self.old.staying.progress.quanta ≡ true }
        requires some { 0 < most }
        requires short { quanta_of self.old + most ≤ most_run_quanta }
        ensures gone { HasGone level result self.old self.new }
        ensures some { 0 < result }
        ensures few { result ≤ most }
        ensures turned { result < most → TurnsAfter self.old level result }
    {
        if self.drive().is_dominant() {
            self.away += 1;
            return 1;
        }
        self.away += most;
        most
    }
}
