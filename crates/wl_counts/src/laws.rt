//! Laws of counts, sums and waits, each proved as the contract of a function that does nothing.

ghost use Rattle.std.specs.Prelude.{◌≡◌, ℕ, ◌+◌, ◌-◌, ◌*◌, ◌/◌, ◌<◌, ◌≤◌, Bool, true};
ghost use Rattle.wl_counts.specs.Cases.{AreEnoughByCases, HaveCases, CaseTable};
ghost use Rattle.wl_counts.specs.Counts.{AreApart, LieIn, message_count, periods_in, picks_below, sum_below};
ghost use Rattle.wl_counts.specs.Instances.{AreEnoughByInstances};
ghost use Rattle.wl_counts.specs.Waits.{AreAtMost, AreEnough, HaveWindows, AreSporadic, FollowOn, Frames, HaveFew, Table};

/// Law: of instants that are a period apart at least, ceil(length / period) at most lie in a half-open window. The window is later than
/// `from - back` and no later than `from + on`, so its length is `back + on`.
pub fn a_window_has_few()
    ensures { (picked : ℕ → Bool) (instant : ℕ → ℕ) (n period from back on : ℕ) → 0 < period
        → AreApart picked instant n period → LieIn picked instant n from back on
        → picks_below picked n ≤ periods_in (back + on) period }
{}

/// Law: of such instants floor(length / period) + 1 at most lie in a closed window, `from` to `from + length`.
pub fn a_closed_window_has_few()
    ensures { (picked : ℕ → Bool) (instant : ℕ → ℕ) (n period from length : ℕ) → 0 < period
        → AreApart picked instant n period
        → ((k : ℕ) → k < n → picked k ≡ true → (from ≤ instant k) × (instant k ≤ from + length))
        → picks_below picked n ≤ length / period + 1 }
{
    a_window_has_few();
}

/// Law: if each frame below n is of one of the messages, the costs of the frames add up to those of the messages, each times its count.
pub fn a_sum_over_frames_is_one_over_messages()
    ensures { (message cost : ℕ → ℕ) (n messages : ℕ) → ((k : ℕ) → k < n → message k < messages)
        → sum_below (λ k. cost (message k)) n
        ≡ sum_below (λ e. message_count message e n * cost e) messages }
{}

/// Law: so if each message has a greatest count, their sum is no less than that of the frames.
pub fn a_sum_over_frames_is_bounded()
    ensures { (message cost most : ℕ → ℕ) (n messages : ℕ) → ((k : ℕ) → k < n → message k < messages)
        → ((e : ℕ) → e < messages → message_count message e n ≤ most e)
        → sum_below (λ k. cost (message k)) n ≤ sum_below (λ e. most e * cost e) messages }
{
    a_sum_over_frames_is_one_over_messages();
}

/// Law: frames without a gap begin and end in time. Let each message have no more frames than its bound among the first ones, as long as
/// these begin within `w` of the window's instant. Let the blocking time and the costs of all bounds fit into `w`. Then each frame begins
/// within `w`, and if the bounds hold with the last frame too, each also leaves the bus to the next one within `w`.
pub fn a_row_begins_in_time()
    ensures begins { (message begin cost bound : ℕ → ℕ) (n from blocking messages w : ℕ)
        → FollowOn message begin cost n from blocking messages
        → blocking + sum_below (λ e. bound e * cost e) messages ≤ w
        → ((m : ℕ) → m < n → HaveFew message begin bound m (from + w) messages)
        → (k : ℕ) → k < n → begin k ≤ from + w }
    ensures ends { (message begin cost bound : ℕ → ℕ) (n from blocking messages w : ℕ)
        → FollowOn message begin cost n from blocking messages
        → blocking + sum_below (λ e. bound e * cost e) messages ≤ w
        → ((m : ℕ) → m ≤ n → HaveFew message begin bound m (from + w) messages)
        → (k : ℕ) → k < n → begin k + cost (message k) ≤ from + w }
{
    a_sum_over_frames_is_bounded();
}

/// Law: frames of messages with periods have an arrival curve: ceil(length / period) in a half-open window.
pub fn periods_give_a_curve()
    ensures { (period message ready : ℕ → ℕ) (count : ℕ) → AreSporadic period message ready count
        → AreAtMost (λ e length. periods_in length (period e)) message ready count }
{
    a_window_has_few();
}

/// Law: a frame that is ready by up to its message's jitter after it arrived has the curve of the arrivals, in a window that is
/// longer by the jitter.
pub fn a_jitter_widens_a_curve()
    ensures { (most : ℕ → ℕ → ℕ) (jitter message arrived ready : ℕ → ℕ) (count : ℕ)
        → AreAtMost most message arrived count
        → ((k : ℕ) → k < count → (arrived k ≤ ready k) × (ready k ≤ arrived k + jitter (message k)))
        → AreAtMost (λ e length. most e (length + jitter e)) message ready count }
{}

/// Law: no frame waits longer than the bound of its message, from the instant at which it is ready to its end, if windows and bounds pass
/// the inequalities. The bounds may occur in the premises, as jitter of frames that waited after lesser ones of their own queue.
pub fn no_frame_waits_longer()
    ensures { (t : Table) (x : Frames) (w r : ℕ → ℕ) (count : ℕ) → AreEnough t w r → HaveWindows t x r count
        → (k : ℕ) → k < count → x.sent k ≤ x.ready k + r (x.message k) }
{
    a_row_begins_in_time();
}

/// Law: so it is with a window for each message and case, whose last frame isn't counted. A case may say which node blocks, and how long
/// after the window's instant the last frame becomes ready: then own frames are counted up to there, and the wait is shorter by it.
pub fn no_frame_waits_longer_by_cases()
    ensures { (t : CaseTable) (x : Frames) (w : ℕ → ℕ → ℕ) (r : ℕ → ℕ) (count : ℕ) → AreEnoughByCases t w r
        → HaveCases t x r count → (k : ℕ) → k < count → x.sent k ≤ x.ready k + r (x.message k) }
{
    a_row_begins_in_time();
}

/// Law: so it is with an inequality for each instance of a message in its window. Each is ready a period later than the one before, so later
/// ones wait less.
pub fn no_frame_waits_longer_by_instances()
    ensures { (t : Table) (x : Frames) (period whole : ℕ → ℕ) (w : ℕ → ℕ → ℕ) (r : ℕ → ℕ) (count : ℕ)
        → AreEnoughByInstances t period whole w r → HaveWindows t x r count
        → AreSporadic period x.message x.ready count
        → (k : ℕ) → k < count → x.sent k ≤ x.ready k + r (x.message k) }
{
    a_row_begins_in_time();
}

/// Law: one window with room for all instances of its message, and a wait by it, are enough for each instance.
pub fn one_window_is_enough_for_each_instance()
    ensures { (t : Table) (period w r : ℕ → ℕ) → ((m : ℕ) → m < t.messages → t.joins m m ≡ true)
        → ((e a b : ℕ) → a ≤ b → t.most e a ≤ t.most e b) → AreEnough t w r
        → AreEnoughByInstances t period w (λ m j. w m - t.cost m) r }
{}
