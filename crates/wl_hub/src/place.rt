//! The place of a slot's word in its table, and how many words the tables have.
ghost use Rattle.std.specs.Prelude.{◌≡◌, ◌<◌, ◌↔◌, ◌^◌, ◌-◌, min, sum, slice_index, IfSome, IsSome};
ghost use Rattle.wl_hub.specs.Places.{place, AreFirsts};
ghost use Rattle.wl_hub.specs.Words.{edge_widths, silence_widths};

/// Returns the numbers of edge words and of silence words of a node; none of a number that is no node.
pub(crate) fn words_of(shape: &[(u32, u32)], node: u8) -> (u32, u32)
    ensures edges { result.0 ≡ slice_index (edge_widths shape.now) node }
    ensures silences { result.1 ≡ slice_index (silence_widths shape.now) node }
{
    if (node as usize) < shape.len() {
        return shape[node as usize];
    }
    (0, 0)
}

/// Returns the word of change `seq` of a node in the table of edges.
fn edge_place(shape: &[(u32, u32)], node: usize, seq: u32) -> Option<usize>
    requires { node < 256 }
    ensures place { result ≡ place (edge_widths shape.now) node seq }
{
    let mut start = 0u64;
    for (i, width) in shape.iter().enumerate() {
        if i == node {
            return if seq < width.0 {
                Some((start + u64::from(seq)) as usize)
            } else {
                None
            };
        }
        start += u64::from(width.0);
    }
    None
}

/// Returns the word of the silence of a node after `count` changes, in the table of silences.
fn silence_place(shape: &[(u32, u32)], node: usize, count: u32) -> Option<usize>
    requires { node < 256 }
    ensures place { result ≡ place (silence_widths shape.now) node count }
{
    let mut start = 0u64;
    for (i, width) in shape.iter().enumerate() {
        if i == node {
            return if count < width.1 {
                Some((start + u64::from(count)) as usize)
            } else {
                None
            };
        }
        start += u64::from(width.1);
    }
    None
}

/// For each number that a node may have, its first word in one of the tables; 0 if it has none there.
pub(crate) type Firsts = [usize; 256];

/// Returns the first word of each node in the table of edges.
pub(crate) fn edge_firsts(shape: &[(u32, u32)]) -> Firsts
    ensures { AreFirsts (edge_widths shape.now) result }
{
    let mut firsts = [0; 256];
    for node in 0..256 {
        firsts[node] = edge_place(shape, node, 0).unwrap_or(0);
    }
    firsts
}

/// Returns the first word of each node in the table of silences.
pub(crate) fn silence_firsts(shape: &[(u32, u32)]) -> Firsts
    ensures { AreFirsts (silence_widths shape.now) result }
{
    let mut firsts = [0; 256];
    for node in 0..256 {
        firsts[node] = silence_place(shape, node, 0).unwrap_or(0);
    }
    firsts
}

/// Returns the numbers of edge words and of silence words of a shape, each 2^64 - 1 if it is more.
pub(crate) fn totals(shape: &[(u32, u32)]) -> (usize, usize)
    ensures edges { result.0 ≡ min (sum (edge_widths shape.now)) (2 ^ 64 - 1) }
    ensures silences { result.1 ≡ min (sum (silence_widths shape.now)) (2 ^ 64 - 1) }
{
    let mut edges = 0usize;
    let mut silences = 0usize;
    for width in shape {
        edges = edges.saturating_add(width.0 as usize);
        silences = silences.saturating_add(width.1 as usize);
    }
    (edges, silences)
}
