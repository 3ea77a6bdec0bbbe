//! A message in numbers: what the inequalities are about.
ghost use Rattle.std.specs.Prelude.{◌≡◌, ◌<◌, ◌^◌};
ghost use Rattle.wl_respond.specs.Rows.{cost_limit, period_limit, wait_limit};

use std::marker::Model;

/// Windows and waits are less than this many millionths of a tick.
pub(crate) const WAIT_LIMIT: u128 = 1 << 90;

/// A message in numbers. Times are in millionths of a tick.
#[derive(Clone, Copy, Debug)]
pub(crate) struct Row {
    node: u8,
    field: u64,
    level: u64,
    cost: u128,
    tail: u128,
    period: u128,
    window: u128,
    wait: u128,
    first: usize,
}

impl Model for Row {
    ghost use Rattle.wl_respond.specs.Rows.{IsRow, MessageTerms};

    ghost Value = { MessageTerms };

    ghost view = { λ r. record {
      node = r.node;
      field = r.field;
      level = r.level;
      cost = r.cost;
      tail = r.tail;
      period = r.period;
      window = r.window;
      wait = r.wait;
      first = r.first;
    } };

    ghost inverse = { λ r. record {
      node = r.node;
      field = r.field;
      level = r.level;
      cost = r.cost;
      tail = r.tail;
      period = r.period;
      window = r.window;
      wait = r.wait;
      first = r.first;
    } };

    ghost invariant = { λ r. IsRow (record {
      node = r.node;
      field = r.field;
      level = r.level;
      cost = r.cost;
      tail = r.tail;
      period = r.period;
      window = r.window;
      wait = r.wait;
      first = r.first;
    }) };
}

/// What a row is made of.
#[derive(Clone, Copy)]
pub(crate) struct Parts {
    /// The node, and the field of the message.
    pub(crate) node: u8,
    pub(crate) field: u64,
    /// The greatest field that may go before it.
    pub(crate) level: u64,
    /// The time from a frame's beginning to that of the next winner, and to its own end.
    pub(crate) cost: u128,
    pub(crate) tail: u128,
    /// The shortest time between two of its frames.
    pub(crate) period: u128,
}

impl Row {
    /// Returns the row of these numbers, with no window and no wait yet.
    pub(crate) fn of(parts: Parts) -> Row
        requires some { 0 < parts.period }
        requires period { parts.period < period_limit }
        requires cost { parts.cost < cost_limit }
        requires tail { parts.tail < cost_limit }
        ensures { result ≡ record {
          node = parts.node;
          field = parts.field;
          level = parts.level;
          cost = parts.cost;
          tail = parts.tail;
          period = parts.period;
          window = 0;
          wait = 0;
          first = 0;
        } }
    {
        Row {
            node: parts.node,
            field: parts.field,
            level: parts.level,
            cost: parts.cost,
            tail: parts.tail,
            period: parts.period,
            window: 0,
            wait: 0,
            first: 0,
        }
    }

    /// Returns the row with this window and this wait, whose first instance's window is at the place `first`.
    pub(crate) fn with(self, window: u128, wait: u128, first: usize) -> Row
        requires window { window < wait_limit }
        requires wait { wait < wait_limit }
        ensures { result ≡ record self { window = window; wait = wait; first = first } }
    {
        Row {
            window,
            wait,
            first,
            ..self
        }
    }

    /// Returns the node.
    pub(crate) fn node(&self) -> u8
        ensures { result ≡ self.now.node }
    {
        self.node
    }

    /// Returns the field of the message.
    pub(crate) fn field(&self) -> u64
        ensures { result ≡ self.now.field }
    {
        self.field
    }

    /// Returns the greatest field that may go before it.
    pub(crate) fn level(&self) -> u64
        ensures { result ≡ self.now.level }
    {
        self.level
    }

    /// Returns the time from a frame's beginning to that of the next winner.
    pub(crate) fn cost(&self) -> u128
        ensures value { result ≡ self.now.cost }
        ensures most { result < cost_limit }
    {
        self.cost
    }

    /// Returns the time from a frame's beginning to its end.
    pub(crate) fn tail(&self) -> u128
        ensures value { result ≡ self.now.tail }
        ensures most { result < cost_limit }
    {
        self.tail
    }

    /// Returns the shortest time between two frames.
    pub(crate) fn period(&self) -> u128
        ensures value { result ≡ self.now.period }
        ensures some { 0 < result }
        ensures most { result < period_limit }
    {
        self.period
    }

    /// Returns the length of a window of a frame.
    pub(crate) fn window(&self) -> u128
        ensures value { result ≡ self.now.window }
        ensures most { result < wait_limit }
    {
        self.window
    }

    /// Returns the greatest wait.
    pub(crate) fn wait(&self) -> u128
        ensures value { result ≡ self.now.wait }
        ensures most { result < wait_limit }
    {
        self.wait
    }

    /// Returns the place of its first instance's window in the list of those of all messages.
    pub(crate) fn first(&self) -> usize
        ensures { result ≡ self.now.first }
    {
        self.first
    }
}
