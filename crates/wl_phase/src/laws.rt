//! Laws of clocks and their edges, each proved as the contract of a function that does nothing.

ghost use Rattle.std.specs.Prelude.{◌≡◌, ℕ, suc, ◌+◌, ◌-◌, ◌*◌, ◌/◌, ◌<◌, ◌≤◌, List, ◌++◌, length};
ghost use Rattle.wl_level.specs.declared.Level.{Level};
ghost use Rattle.wl_level.specs.declared.Level.TheVariants.{Dominant, Recessive};
ghost use Rattle.wl_phase.specs.Answer.{ComesAfterSample, ComesInTime, EndsAfterMove, EndsBeforeSample, EndsInTime, FindsDominant, FindsEarly, FindsItsEnd, FitsBit, HearsAnswer, IsAnswered, SamplesNext, answer_begin, answer_end, moved_sample, own_sample};
ghost use Rattle.wl_segments.specs.Lengths.{Lengths, bit_quanta, sample_at};
ghost use Rattle.wl_sync.specs.declared.Seen.{Seen};
ghost use Rattle.wl_frame.specs.Laws.{up_to_ack};
ghost use Rattle.wl_frame.specs.Stuffing.{Stuffs};
ghost use Rattle.wl_phase.specs.Clocks.{Finds, Steady, IsSteady, instant, steady_tick};
ghost use Rattle.wl_phase.specs.InStep.{ClocksAreNear, FindsTheFirst, HaveEdges, Listener, Listens, SamplesBit, Sender, SyncsHard};
ghost use Rattle.wl_phase.specs.Ways.{ByTheBook, PhaseLaws, WayLaws};

/// Law: quantum `k` of a clock with `num / den` ticks per quantum begins at its instant, rounded down to a tick. So any `n` quanta take
/// `n * num / den` ticks, by less than one more or less.
pub fn quanta_take_their_ticks()
    ensures instant { (c : Steady) (k : ℕ) → IsSteady c → steady_tick c k ≡ instant c k / c.den }
    ensures low { (c : Steady) (k n : ℕ) → IsSteady c
        → c.den * steady_tick c k + n * c.num < c.den * steady_tick c (k + n) + c.den }
    ensures high { (c : Steady) (k n : ℕ) → IsSteady c
        → c.den * steady_tick c (k + n) < c.den * steady_tick c k + n * c.num + c.den }
{}

/// Law: what one quantum does to the way to the next sample, by the rules of the book. It takes one off, and a sample begins the way of the
/// next bit. A hard synchronisation puts the edge into SYNC_SEG. Any other edge that counts moves the sample to where that would put it, by
/// the jump width at most. Its phase error is the place of the sample, less one, less the way.
pub fn an_edge_moves_the_sample()
    ensures { WayLaws }
{
    wl_sync::clock_goes_on();
}

/// Law: where an edge lies after it has synchronised a node, in ticks. After a hard synchronisation it lies in SYNC_SEG of
/// the new bit. After a resynchronisation it does so if its phase error is within the jump width; else the sample
/// moved by the jump width, and the edge lies still on the same side of SYNC_SEG.
pub fn an_edge_moves_the_phase()
    ensures { PhaseLaws }
{
    quanta_take_their_ticks();
    an_edge_moves_the_sample();
}

/// Law: the first edge that a node finds after its power-up on a silent line synchronises it hard, if it awaits a start of
/// frame then and drives recessive.
pub fn the_first_edge_synchronises_hard()
    ensures { (l : Lengths) (seen : ℕ → Seen) (found : ℕ) → ByTheBook l → FindsTheFirst seen found
        → SyncsHard l seen found }
{
    wl_sync::clock_goes_on();
}

/// Law: a listener stays in step with a sender whose bits nothing moves, for all its bits. The conditions: ten bits in a row always have an
/// edge, and both clocks are near enough. Then the n-th sample after the edge of the start of frame is that of bit n, and it comes while
/// that bit is there.
pub fn a_listener_stays_in_step()
    ensures { (s : Sender) (j : Listener) (seen : ℕ → Seen) (found : ℕ) → IsSteady s.clock → IsSteady j.clock
        → ByTheBook j.lengths → ClocksAreNear s j → HaveEdges s.bits → Listens s j seen found
        → (b : ℕ) → b < length s.bits → (k : ℕ) × SamplesBit s j seen found b k }
{
    an_edge_moves_the_sample();
    wl_sync::clock_goes_on();
}

/// Law: so it is if the sender's bits are a front of those of a frame, up to an ACK slot that is acknowledged.
pub fn a_listener_samples_each_frame()
    ensures { (s : Sender) (j : Listener) (seen : ℕ → Seen) (found : ℕ) → IsSteady s.clock → IsSteady j.clock
        → ByTheBook j.lengths → ClocksAreNear s j → Listens s j seen found
        → (x y rest : List Level) → Stuffs y x → s.bits ++ rest ≡ up_to_ack y
        → (b : ℕ) → b < length s.bits → (k : ℕ) × SamplesBit s j seen found b k }
{
    a_listener_stays_in_step();
    wl_frame::laws::ten_bits_have_an_edge();
}

/// Law: the acknowledgement of a listener comes back in time, if the way there and back is no longer than PROP_SEG and PHASE_SEG1 leave
/// beside ten bits' drift. Let the listener drive a level in the bit after one that it has sampled. It reaches the sender after the sample
/// of that bit, by the sample of the next one, and for long enough.
pub fn an_acknowledgement_comes_in_time()
    ensures { (s : Sender) (own : Lengths) (j : Listener) (seen : ℕ → Seen) (found back d k : ℕ) → IsSteady s.clock
        → IsSteady j.clock → ByTheBook own → ByTheBook j.lengths → s.bit_quanta ≡ bit_quanta own → ClocksAreNear s j
        → ComesInTime s own j back → SamplesBit s j seen found d k → IsAnswered s own j back d k }
{}

/// Law: let a node have sampled a recessive bit that nothing moved, and then find a dominant level by the quantum of its next sample and up
/// to it. Then it samples that level next.
pub fn the_next_sample_is_dominant()
    ensures { (l : Lengths) (seen : ℕ → Seen) (k n : ℕ) → ByTheBook l → FindsDominant l seen k n
        → SamplesNext l seen k (moved_sample l k n) Dominant }
{
    an_edge_moves_the_sample();
    wl_sync::clock_goes_on();
}

/// Law: let a listener drive a level in the bit after one that it has sampled. It reaches another listener after that one's sample of the
/// same bit, if the way is long enough beside the drift.
pub fn an_acknowledgement_comes_after_each_sample()
    ensures { (s : Sender) (i j : Listener) (seen other_seen : ℕ → Seen) (found other_found between d k n : ℕ)
        → IsSteady s.clock → IsSteady i.clock → IsSteady j.clock → ComesAfterSample s i j between
        → SamplesBit s i seen found d k → SamplesBit s j other_seen other_found d n
        → steady_tick j.clock n < answer_begin i between k }
{}

/// Law: the sender samples the acknowledgement: a dominant bit, next after the last one that it sent, which was recessive.
/// The sample is late by the jump width at most.
pub fn the_sender_samples_the_acknowledgement()
    ensures { (s : Sender) (own : Lengths) (j : Listener) (seen sender_seen : ℕ → Seen) (found back d k : ℕ)
        → IsSteady s.clock → IsSteady j.clock → ByTheBook own → ByTheBook j.lengths → s.bit_quanta ≡ bit_quanta own
        → ClocksAreNear s j → ComesInTime s own j back → SamplesBit s j seen found d k
        → HearsAnswer s own j back d k sender_seen
        → (m : ℕ) × (m ≤ own_sample s own (suc d) + own.sjw)
        × SamplesNext own sender_seen (own_sample s own d) m Dominant }
{
    an_acknowledgement_comes_in_time();
    the_next_sample_is_dominant();
}

/// Law: the acknowledgement of a listener is over by the sender's sample after the one that it moved. The condition: the way there and back
/// is no longer than PROP_SEG and PHASE_SEG1 leave beside eleven bits' drift.
pub fn an_acknowledgement_ends_in_time()
    ensures { (s : Sender) (own : Lengths) (j : Listener) (seen : ℕ → Seen) (found back d k n : ℕ) → IsSteady s.clock
        → IsSteady j.clock → ByTheBook own → ByTheBook j.lengths → s.bit_quanta ≡ bit_quanta own → ClocksAreNear s j
        → ComesInTime s own j back → EndsInTime s own j back → SamplesBit s j seen found d k
        → Finds s.clock n (answer_begin j back k) → n ≤ own_sample s own (suc d)
        → answer_end j back k ≤ steady_tick s.clock (moved_sample own (own_sample s own d) n + bit_quanta own) }
{}

/// Law: a node that samples a dominant bit after an edge, and then finds the line go recessive within a bit, samples recessive next, a bit
/// after that sample. The end of a dominant level moves nothing.
pub fn the_sample_after_is_recessive()
    ensures { (l : Lengths) (seen : ℕ → Seen) (k n : ℕ) → ByTheBook l → FindsDominant l seen k n
        → FindsItsEnd l seen (moved_sample l k n)
        → SamplesNext l seen (moved_sample l k n) (moved_sample l k n + bit_quanta l) Recessive }
{
    an_edge_moves_the_sample();
    wl_sync::clock_goes_on();
}

/// Law: the sender samples the acknowledgement and, a bit later, a recessive ACK delimiter, if the line is silent as soon as
/// the acknowledgement is over.
pub fn the_sender_samples_the_delimiter()
    ensures { (s : Sender) (own : Lengths) (j : Listener) (seen sender_seen : ℕ → Seen) (found back d k : ℕ)
        → IsSteady s.clock → IsSteady j.clock → ByTheBook own → ByTheBook j.lengths → s.bit_quanta ≡ bit_quanta own
        → ClocksAreNear s j → ComesInTime s own j back → EndsInTime s own j back → SamplesBit s j seen found d k
        → HearsAnswer s own j back d k sender_seen
        → ((i : ℕ) → answer_end j back k ≤ steady_tick s.clock i → (sender_seen i).level ≡ Recessive)
        → (m : ℕ) × SamplesNext own sender_seen (own_sample s own d) m Dominant
        × SamplesNext own sender_seen m (m + bit_quanta own) Recessive }
{
    an_acknowledgement_comes_in_time();
    an_acknowledgement_ends_in_time();
    the_next_sample_is_dominant();
    the_sample_after_is_recessive();
}

/// Law: an acknowledgement is over everywhere in time, if nothing has moved the nodes that it reaches: at each other listener by its
/// sample of the ACK delimiter, and at the sender by that of its own bits.
pub fn an_acknowledgement_is_over_everywhere()
    ensures ends { (s : Sender) (i j : Listener) (seen other_seen : ℕ → Seen) (found other_found between d k n : ℕ)
        → IsSteady s.clock → IsSteady i.clock → IsSteady j.clock → EndsBeforeSample s i j between
        → SamplesBit s i seen found d k → SamplesBit s j other_seen other_found d n
        → answer_end i between k ≤ steady_tick j.clock (n + 2 * bit_quanta j.lengths) }
    ensures ends_there { (s : Sender) (own : Lengths) (j : Listener) (seen : ℕ → Seen) (found back d k : ℕ)
        → IsSteady s.clock → IsSteady j.clock → ByTheBook own → ByTheBook j.lengths → s.bit_quanta ≡ bit_quanta own
        → ClocksAreNear s j
        → ComesInTime s own j back → EndsInTime s own j back → SamplesBit s j seen found d k
        → answer_end j back k ≤ steady_tick s.clock (own_sample s own (suc (suc d))) }
{}

/// Law: an acknowledgement that is early moves a node that finds it in its PHASE_SEG2. It is there until the sample that it
/// moves, and over by the one after it; so are those of all others. A listener's sample so many bits after the end of its own
/// comes no later than the sender's after as many bits and one more.
pub fn an_early_acknowledgement_moves_a_node()
    ensures finds { (s : Sender) (i j : Listener) (seen other_seen : ℕ → Seen) (found other_found between d k n : ℕ)
        → IsSteady s.clock → IsSteady i.clock → IsSteady j.clock → ByTheBook j.lengths → ComesAfterSample s i j between
        → FitsBit i j.clock j.lengths → SamplesBit s i seen found d k → SamplesBit s j other_seen other_found d n
        → answer_begin i between k ≤ steady_tick j.clock (n + j.lengths.ps2)
        → (m : ℕ) × FindsEarly j.lengths j.clock (answer_begin i between k) (answer_end i between k) n m }
    ensures over { (i : Listener) (c : Steady) (l : Lengths) (between k x : ℕ) → IsSteady i.clock → IsSteady c
        → FitsBit i c l → answer_begin i between k ≤ steady_tick c x
        → answer_end i between k ≤ steady_tick c (x + (sample_at l - 1) + bit_quanta l) }
    ensures others { (s : Sender) (i j : Listener) (c : Steady) (l : Lengths) (seen other_seen : ℕ → Seen)
        (found other_found from_i from_j d k n x : ℕ) → IsSteady s.clock → IsSteady i.clock → IsSteady j.clock
        → IsSteady c
        → EndsAfterMove s i j c l from_i from_j → SamplesBit s i seen found d k
        → SamplesBit s j other_seen other_found d n
        → answer_begin i from_i k ≤ steady_tick c x
        → answer_end j from_j n ≤ steady_tick c (x + (sample_at l - 1) + bit_quanta l) }
    ensures later { (s : Sender) (j : Listener) (back k x c : ℕ) → IsSteady s.clock → IsSteady j.clock
        → ByTheBook j.lengths → ClocksAreNear s j → 1 ≤ back → c ≤ 9 → answer_end j back k ≤ steady_tick s.clock x
        → steady_tick j.clock (k + (2 + c) * bit_quanta j.lengths) ≤ steady_tick s.clock (x + suc c * s.bit_quanta) }
    ensures sampled { (s : Sender) (own : Lengths) (j : Listener) (seen sender_seen : ℕ → Seen) (found back d k : ℕ)
        → IsSteady s.clock → IsSteady j.clock → ByTheBook own → ByTheBook j.lengths → s.bit_quanta ≡ bit_quanta own
        → ClocksAreNear s j → ComesInTime s own j back → SamplesBit s j seen found d k
        → HearsAnswer s own j back d k sender_seen
        → (m : ℕ) × Finds s.clock m (answer_begin j back k) × (own_sample s own d < m) × (m ≤ own_sample s own (suc d))
        × SamplesNext own sender_seen (own_sample s own d) (moved_sample own (own_sample s own d) m) Dominant }
{
    an_acknowledgement_comes_in_time();
    the_next_sample_is_dominant();
}
