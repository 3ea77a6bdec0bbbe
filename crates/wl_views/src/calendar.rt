//! The nodes in the order of the ticks up to which their signals stay.
ghost use Rattle.std.specs.Prelude.{◌≡◌, ◌≢◌, ℕ, ◌+◌, ◌-◌, ◌*◌, ◌/◌, ◌<◌, ◌≤◌, ◌^◌};
ghost use Rattle.wl_views.specs.Calendar.{IsFirst, IsTreeBut, date_at};

/// The number of a node that has no date.
const NO_DATE: u64 = u64::MAX;

/// Which node's date comes first, of up to 64: a tree of numbers, each a tick and a node. It has a leaf for each node, so few nodes make it
/// low.
#[derive(Drop)]
pub(crate) struct Calendar {
    pub(crate) tree: [u64; 128],
    pub(crate) nodes: usize,
    ghost some: { 1 ≤ nodes },
    ghost few: { nodes ≤ 64 },
    ghost ordered: { IsTreeBut nodes 0 tree },
}

impl Calendar {
    /// Returns the calendar of these many nodes, before any has a date.
    pub(crate) fn new(nodes: usize) -> Calendar
        requires some { 1 ≤ nodes }
        requires few { nodes ≤ 64 }
        ensures { result.nodes ≡ nodes }
    {
        Calendar {
            tree: [NO_DATE; 128],
            nodes,
        }
    }

    /// Puts the date of node `i` at this tick.
    pub(crate) fn put(&mut self, i: usize, tick: u64)
        requires node { i < self.old.nodes }
        requires early { tick < 2 ^ 58 - 1 }
        ensures nodes { self.new.nodes ≡ self.old.nodes }
        ensures here { date_at self.new.tree (self.old.nodes + i) ≡ tick * 64 + i }
        ensures others { (k : ℕ) → k < self.old.nodes → k ≢ i
            → date_at self.new.tree (self.old.nodes + k) ≡ date_at self.old.tree (self.old.nodes + k) }
    {
        let at = self.nodes + i;
        self.tree[at] = tick * 64 + i as u64;
        settle(&mut self.tree, self.nodes, at);
    }

    /// Returns the least tick, and the first node whose date it is.
    pub(crate) fn first(&self) -> (u64, usize)
        ensures { IsFirst self.now.nodes self.now.tree result }
    {
        let least = self.tree[1];
        (least / 64, (least % 64) as usize)
    }
}

/// Orders a tree of these many leaves again whose number at this place is another than before.
fn settle(tree: &mut [u64; 128], nodes: usize, from: usize)
    requires some { 1 ≤ from }
    requires inside { from < 2 * nodes }
    requires few { nodes ≤ 64 }
    requires tree { IsTreeBut nodes (from / 2) tree.old }
    ensures tree { IsTreeBut nodes 0 tree.new }
    ensures leaves { (k : ℕ) → nodes ≤ k → date_at tree.new k ≡ date_at tree.old k }
{
    let mut at = from;
    while 1 < at {
        at /= 2;
        tree[at] = tree[2 * at].min(tree[2 * at + 1]);
    }
}
