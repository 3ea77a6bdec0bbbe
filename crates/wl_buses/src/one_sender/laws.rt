//! Laws of a line on which one node sends, each proved as the contract of a function that does nothing.

ghost use Rattle.std.specs.Prelude.{◌≡◌, ◌≢◌, ℕ, ◌-◌, ◌<◌, ◌≤◌, ◌&&◌, nat_le, Bool, true, false, List, [], ◌∷◌, length, None};
ghost use Rattle.wl_level.specs.declared.Level.{Level};
ghost use Rattle.wl_frame.specs.Grammar.{Content};
ghost use Rattle.wl_phase.specs.Clocks.{HasRate, Steady};
ghost use Rattle.wl_topology.specs.Driven.{driven};
ghost use Rattle.wl_plan.specs.declared.plan.Plan.{Plan};
ghost use Rattle.wl_plan.specs.Checked.{IsChecked};
ghost use Rattle.wl_plan.specs.PlanLine.{setup_at};
ghost use Rattle.wl_node.specs.declared.setup.Queued.{Queued};
ghost use Rattle.wl_segments.specs.declared.SyncRules.TheVariants.{Book};
ghost use Rattle.wl_buses.specs.OneSender.OneSender.{SenderBus, IsBus, IsInStepWithAll, SendsFirst, EndsAfterSlot, IsAcknowledged};
ghost use Rattle.wl_buses.specs.BothProofs.Plans.{IsSteadyPlan};
ghost use Rattle.wl_buses.specs.OneSender.Plans.{sender_bus_of};
ghost use Rattle.wl_buses.specs.OneSender.Through.{AreFrames, EndsInSlots, GetThrough};
ghost use Rattle.wl_buses.specs.OneSender.Tolerances.{FitClocks, IsWithinTolerance, Tolerance};
ghost use Rattle.wl_buses.specs.OneSender.Bounds.{IsBoundOf};
ghost use Rattle.wl_buses.specs.OneSender.Clean.{HasOneSender, IsAlike, KeepsPace, bus_with, tolerance_of};
ghost use Rattle.wl_buses.specs.BothProofs.Plans.{IsOfFamily};
ghost use Rattle.wl_bound.specs.Oscillators.{IsPace, Pace};
ghost use Rattle.wl_bound.specs.Families.{Bus, Buses, bus_of, family_of, member_at};
ghost use Rattle.wl_bound.specs.Conditions.{IsSound, first_failure_of, plain};
ghost use Rattle.wl_bound.specs.Covered.{is_covered};
ghost use Rattle.wl_bound.specs.declared.condition.Senders.TheVariants.{One};
ghost use Rattle.wl_bound.specs.Senders.{lone_sender};

/// Law: if one node alone has driven dominant, any node finds what that one drove a delay earlier.
pub fn one_driver_is_found()
    ensures { (nodes : ℕ) (delay : ℕ → ℕ → ℕ) (drove : ℕ → ℕ → Bool) (i j t : ℕ) → i < nodes
        → ((k : ℕ) → k < nodes → k ≢ i → delay k j ≤ t → drove k (t - delay k j) ≡ false)
        → driven nodes delay drove j t ≡ (nat_le (delay i j) t && drove i (t - delay i j)) }
{
    wl_topology::driven_laws();
}

/// Law: on a bus on which one node has a frame, all others sample its bits, from their power-up to the CRC delimiter, and it samples their
/// acknowledgement. So it is at any offsets, if the clocks are near enough and the delays short enough.
pub fn the_first_frame_is_acknowledged()
    ensures { (b : SenderBus) → IsBus b → SendsFirst b → IsInStepWithAll b → EndsAfterSlot b → IsAcknowledged b }
{
    wl_sync::clock_goes_on();
    wl_frame::laws::stuffing_goes_on_bit_by_bit();
    wl_machine::laws::a_transmitter_sends_its_head_stuffed();
    wl_phase::laws::an_edge_moves_the_sample();
    wl_phase::laws::a_listener_samples_each_frame();
    wl_phase::laws::an_acknowledgement_comes_in_time();
    wl_phase::laws::an_acknowledgement_comes_after_each_sample();
    wl_phase::laws::the_sender_samples_the_acknowledgement();
    wl_topology::driven_laws();
    wl_plan::simulation_laws();
}

/// Law: each plan of such nodes on a cable is such a bus, whichever node sends, and whatever and when it sends.
pub fn a_plan_is_such_a_bus()
    ensures bus { (plan : Plan) (clocks : ℕ → Steady) → IsSteadyPlan plan clocks
        → (sender : ℕ) → sender < length plan.nodes → (frame : Content) (stuffed : List Level) (decides : ℕ)
        → IsBus (sender_bus_of plan clocks sender frame stuffed decides) }
    ensures acknowledged { (plan : Plan) (clocks : ℕ → Steady) → IsSteadyPlan plan clocks
        → (sender : ℕ) → sender < length plan.nodes → (frame : Content) (stuffed : List Level) (decides : ℕ)
        → SendsFirst (sender_bus_of plan clocks sender frame stuffed decides)
        → IsInStepWithAll (sender_bus_of plan clocks sender frame stuffed decides)
        → EndsAfterSlot (sender_bus_of plan clocks sender frame stuffed decides)
        → IsAcknowledged (sender_bus_of plan clocks sender frame stuffed decides) }
    ensures through { (plan : Plan) (clocks : ℕ → Steady) → IsSteadyPlan plan clocks
        → (sender : ℕ) → sender < length plan.nodes
        → (frame : Content) (first : List Level) (decides : ℕ) (stuffed : Content → List Level) (lengths : ℕ → ℕ)
        → SendsFirst (sender_bus_of plan clocks sender frame first decides)
        → AreFrames (sender_bus_of plan clocks sender frame first decides) stuffed lengths
        → IsInStepWithAll (sender_bus_of plan clocks sender frame first decides)
        → EndsInSlots (sender_bus_of plan clocks sender frame first decides)
        → GetThrough (sender_bus_of plan clocks sender frame first decides) lengths }
{
    wl_plan::checked_is_sound();
    the_first_frame_is_acknowledged();
    every_frame_gets_through();
}

/// Law: on such a bus every frame gets through, from the power-up of all nodes on. No node ever finds an error, and all counters
/// stay 0. Each frame is sent in time, and each listener has received it by then. An acknowledgement may be early, and is over
/// in time.
pub fn every_frame_gets_through()
    ensures { (b : SenderBus) (stuffed : Content → List Level) (lengths : ℕ → ℕ) → IsBus b → SendsFirst b
        → AreFrames b stuffed lengths → IsInStepWithAll b → EndsInSlots b → GetThrough b lengths }
{
    wl_sync::clock_goes_on();
    wl_frame::laws::stuffing_goes_on_bit_by_bit();
    wl_machine::laws::a_transmitter_sends_its_head_stuffed();
    wl_phase::laws::an_edge_moves_the_sample();
    wl_phase::laws::a_listener_samples_each_frame();
    wl_phase::laws::an_acknowledgement_comes_in_time();
    wl_phase::laws::an_acknowledgement_comes_after_each_sample();
    wl_phase::laws::the_sender_samples_the_acknowledgement();
    wl_phase::laws::the_next_sample_is_dominant();
    wl_phase::laws::an_acknowledgement_ends_in_time();
    wl_phase::laws::an_acknowledgement_is_over_everywhere();
    wl_phase::laws::an_early_acknowledgement_moves_a_node();
    wl_topology::driven_laws();
    wl_plan::simulation_laws();
}

/// Law: the inequalities over tolerances are enough: wherever within its tolerance each clock lies, a bus meets what its clocks
/// and delays have to. So all frames get through.
pub fn tolerances_are_enough()
    ensures in_step { (t : Tolerance) (b : SenderBus) → IsBus b → IsWithinTolerance t b → FitClocks t b
        → IsInStepWithAll b }
    ensures ends { (t : Tolerance) (b : SenderBus) → IsBus b → IsWithinTolerance t b → FitClocks t b → EndsInSlots b }
    ensures through { (t : Tolerance) (b : SenderBus) (stuffed : Content → List Level) (lengths : ℕ → ℕ) → IsBus b
        → SendsFirst b → AreFrames b stuffed lengths → IsWithinTolerance t b → FitClocks t b → GetThrough b lengths }
{
    every_frame_gets_through();
}

/// Law: the condition for margins, of a bus on which this node alone sends, implies these inequalities.
pub fn a_sound_bus_fits()
    ensures { (bus : Bus) (t : Tolerance) (b : SenderBus) → IsBus b → IsBoundOf bus t b → IsSound bus → FitClocks t b }
{}

/// Law: a family's bus on which this node alone sends is that of each of its plans.
pub fn a_plan_is_bound()
    ensures { (f : Buses) (plan : Plan) (clocks : ℕ → Steady) (sender : ℕ) (one : HasOneSender plan sender)
        (stuffed : Content → List Level) → IsSteadyPlan plan clocks → IsOfFamily f plan clocks
        → IsBoundOf (bus_of f (lone_sender sender)) (tolerance_of f) (bus_with plan clocks sender one stuffed) }
{
    a_plan_is_such_a_bus();
}

/// Law: a plan whose clocks keep to some oscillators is one of the family that its nodes make with these. And a family has with a plan
/// all that differ from it in frames and offsets alone.
pub fn a_family_has_all_such_plans()
    ensures own { (plan : Plan) (paces : List Pace) (clocks : ℕ → Steady)
        → length (family_of plan paces).members ≡ length plan.nodes
        → ((i : ℕ) → i < length plan.nodes → IsPace (member_at (family_of plan paces) i).oscillator)
        → ((i : ℕ) → i < length plan.nodes → KeepsPace (member_at (family_of plan paces) i).oscillator (clocks i))
        → IsOfFamily (family_of plan paces) plan clocks }
    ensures others { (f : Buses) (plan other : Plan) (clocks others : ℕ → Steady) → IsOfFamily f plan clocks
        → IsAlike plan other clocks others → IsOfFamily f other others }
{}

/// Law: let the condition for margins hold for a family on which this node alone sends. Then on each of its plans on which this
/// node alone has frames all frames get through: no node ever finds an error, and each receives every frame in time.
pub fn one_sender_is_clean()
    ensures { (f : Buses) (plan : Plan) (clocks : ℕ → Steady) (sender : ℕ) (one : HasOneSender plan sender)
        (stuffed : Content → List Level) (lengths : ℕ → ℕ) → IsSteadyPlan plan clocks → IsOfFamily f plan clocks
        → AreFrames (bus_with plan clocks sender one stuffed) stuffed lengths
        → IsSound (bus_of f (lone_sender sender)) → GetThrough (bus_with plan clocks sender one stuffed) lengths }
{
    a_plan_is_such_a_bus();
    tolerances_are_enough();
    a_sound_bus_fits();
}

/// Law: what `margin` tests before it says that this is proved is what the law on one sender asks. A plan that is covered, by the book
/// and with one rate for each clock, has all it asks of a plan, if one node alone has frames. The condition for one sender at a time is
/// that for each node with frames as the only sender.
pub fn a_covered_plan_is_one_of_these()
    ensures steady { (plan : Plan) (clocks : ℕ → Steady) → is_covered plan ≡ true → IsChecked plan
        → ((i : ℕ) → i < length plan.nodes → HasRate (setup_at plan i).clock (clocks i))
        → ((i : ℕ) → i < length plan.nodes → (setup_at plan i).segments.sync ≡ Book) → IsSteadyPlan plan clocks }
    ensures sender { (plan : Plan) (sender : ℕ) (first : Queued) (later : List Queued) → is_covered plan ≡ true
        → sender < length plan.nodes → (setup_at plan sender).queue ≡ first ∷ later
        → ((j : ℕ) → j < length plan.nodes → j ≢ sender → (setup_at plan j).queue ≡ []) → HasOneSender plan sender }
    ensures sound { (f : Buses) (sender : ℕ) → (first_failure_of f plain One ≡ None) → sender < length f.members
        → (member_at f sender).sends ≡ true → IsSound (bus_of f (lone_sender sender)) }
{
    wl_bound::condition_laws();
}
