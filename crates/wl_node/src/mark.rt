//! A mark of where a node is, and the ways back and on to it.

ghost use Rattle.std.specs.Prelude.{◌+◌, ◌≤◌};
ghost use Rattle.wl_node.specs.Limits.{most_run_quanta};

use crate::node::Node;
use crate::staying_mark::StayingMark;

/// Where a node was: what it keeps beside its lists, and how many samples and frames it had stored.
#[derive(Drop)]
pub struct Mark {
    pub(crate) staying: StayingMark,
    /// How many quanta it had run since it left the bus.
    pub(crate) away: u64,
    ghost few: { staying.quanta + away ≤ most_run_quanta },
}

impl Node {
    ghost use Rattle.std.specs.Prelude.{◌≡◌, ◌++◌, List, true, false};
    ghost use Rattle.wl_level.specs.declared.Level.{Level};
    ghost use Rattle.wl_node.specs.Marks.{IsMark, HasGoneOn, HasPassed, LiesAhead, NoFrameIn, quanta_marked};
    ghost use Rattle.wl_node.specs.Reached.{IsNode, keeps_lists, node_setup, quanta_of};

    /// Returns a mark of where the node is. It takes no memory.
    pub fn keep(&self) -> Mark
        ensures mark { (levels : List Level) → IsNode levels self.now → IsMark (node_setup self.now) levels result }
        ensures quanta { quanta_marked result ≡ quanta_of self.now }
    {
        Mark {
            staying: self.staying.keep(),
            away: self.away,
        }
    }

    /// Puts the node back to where it was at a mark: what it has stored since is dropped. It takes no memory, and none is given back.
    pub fn back(&mut self, mark: &Mark)
        requires { HasPassed mark.now self.old }
        ensures node { (levels more : List Level) → HasGoneOn mark.now levels more self.old → IsNode levels self.new }
        ensures setup { node_setup self.new ≡ node_setup self.old }
        ensures quanta { quanta_of self.new ≡ quanta_marked mark.now }
        ensures keeps { keeps_lists self.new ≡ keeps_lists self.old }
    {
        self.staying.back(&mark.staying);
        self.away = mark.away;
    }

    /// Takes the node on to a mark of a place after it, and returns true, if it stored nothing on the way there: it only counts its samples and
    /// phase errors, and no frame came to its end. Else it stays as it is, and the answer is false. It takes no memory.
    pub fn forth(&mut self, mark: &Mark) -> bool
        requires { LiesAhead mark.now self.old }
        ensures node { result ≡ true → (levels more : List Level) → IsNode levels self.old
            → IsMark (node_setup self.old) (levels ++ more) mark.now → IsNode (levels ++ more) self.new }
        ensures setup { node_setup self.new ≡ node_setup self.old }
        ensures quanta { result ≡ true → quanta_of self.new ≡ quanta_marked mark.now }
        ensures keeps { keeps_lists self.new ≡ keeps_lists self.old }
        ensures same { result ≡ false → self.new ≡ self.old }
        ensures goes { keeps_lists self.old ≡ false → (levels more : List Level) → IsNode levels self.old
            → IsMark (node_setup self.old) (levels ++ more) mark.now → NoFrameIn (node_setup self.old) levels more
            → result ≡ true }
    {
        if !self.staying.forth(&mark.staying) {
            return false;
        }
        self.away = mark.away;
        true
    }
}
