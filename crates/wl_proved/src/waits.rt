//! What the test of a table of messages promises, proved as the contract of a function that does nothing.

ghost use Rattle.std.specs.Prelude.{◌≡◌, ℕ, Bool, true, List, length, None};
ghost use Rattle.wl_plan.specs.declared.plan.Plan.{Plan};
ghost use Rattle.wl_setup.specs.declared.bus.Bus.{Bus};
ghost use Rattle.wl_setup.specs.declared.plan_text.PlanText.{PlanText};
ghost use Rattle.wl_bound.specs.Conditions.{first_failure_of, plain};
ghost use Rattle.wl_bound.specs.Decides.{leaves_room_to_decide};
ghost use Rattle.wl_bound.specs.Families.{Buses};
ghost use Rattle.wl_bound.specs.Rooms.{leaves_room, plain_bus};
ghost use Rattle.wl_bound.specs.declared.condition.Senders.TheVariants.{Any};
ghost use Rattle.wl_respond.specs.declared.bounds.Waits.{Waits};
ghost use Rattle.wl_respond.specs.declared.message.MessageWait.{MessageWait};
ghost use Rattle.wl_respond.specs.Bounds.{AreWaitsFor};
ghost use Rattle.wl_respond.specs.Levels.{has_levels};
ghost use Rattle.wl_respond.specs.Plans.{KeepsTable};
ghost use Rattle.wl_respond.specs.Tests.{pass};
ghost use Rattle.wl_lines.specs.Shapes.{TextLine};
ghost use Rattle.wl_respond.specs.Texts.{AreLinesOfBus, IsTextOfBus};
ghost use Rattle.wl_proved.specs.PlansOfFamily.{IsPlanOfFamily, IsRunnable};
ghost use Rattle.wl_proved.specs.Waits.{HasBoundedLines, HasBoundedText, HasBoundedWaits, KeepsText, messages_asked};
ghost use Rattle.wl_proved.specs.Words.{AreSaidBounded, IsFamilyOfText, SaysBounded};

/// Law: let a table of messages pass its test. Take a plan of the family whose queues have frames of these messages. Let each message have
/// the level that its queue gives it, first in, first out or by priority. Then no frame waits longer than its message says, whatever the
/// offsets are, however many instances come, and wherever within its tolerance each clock lies. The condition for margins has to hold for
/// any senders. The bus has to have room for them, and that nobody decides twice.
pub fn respond_law()
    ensures { (f : Buses) (plan : Plan) (messages : List MessageWait) (windows : List ℕ) → IsPlanOfFamily f plan
        → first_failure_of f plain Any ≡ None → leaves_room f ≡ true → leaves_room_to_decide f ≡ true
        → pass (plain_bus f) messages windows ≡ true → KeepsTable plan messages
        → has_levels plan messages ≡ true
        → HasBoundedWaits f plan messages }
{
    wl_counts::laws::one_window_is_enough_for_each_instance();
    wl_buses::one_sender::laws::a_covered_plan_is_one_of_these();
    wl_buses::bounded_waits::tests::a_winner_has_the_lesser_field();
    wl_bound::a_field_is_its_number();
    wl_buses::bounded_waits::tests::a_tested_bus_has_room_to_decide();
    wl_buses::bounded_waits::laws::waits_are_bounded();
}

/// Law: let no premise of the waits of a bus lack. On each plan of their family that keeps their table of messages no frame waits longer than
/// its message says there. With any data it is so on each plan whose frames are those of the text but for their data. The plan of the bus is
/// such a plan. If the first of the lines of `respond` is that of a proof, the lines are about such waits, in each format; so is a text whose
/// first line is 'proved: waits_are_bounded'.
pub fn respond_means_bounded()
    ensures any { (tick : ℕ) (any : Bool) (plain : PlanText) (bus : Bus) (f : Buses) (w : Waits)
        (are : AreWaitsFor tick any plain bus f w) → w.lacking ≡ None
        → (plan : Plan) → IsPlanOfFamily f plan → KeepsTable plan (messages_asked f any plain are.0)
        → has_levels plan (messages_asked f any plain are.0) ≡ true
        → HasBoundedWaits f plan (messages_asked f any plain are.0) }
    ensures any_data { (tick : ℕ) (plain : PlanText) (bus : Bus) (f : Buses) (w : Waits)
        (are : AreWaitsFor tick true plain bus f w) → w.lacking ≡ None
        → (plan : Plan) → IsPlanOfFamily f plan → KeepsText plain plan (messages_asked f true plain are.0)
        → has_levels plan (messages_asked f true plain are.0) ≡ true
        → HasBoundedWaits f plan (messages_asked f true plain are.0) }
    ensures own { (tick : ℕ) (any : Bool) (plain : PlanText) (bus : Bus) (f : Buses) (w : Waits)
        (are : AreWaitsFor tick any plain bus f w) → w.lacking ≡ None → IsFamilyOfText plain bus f
        → IsRunnable bus.plan → length bus.deviations ≡ length bus.plan.nodes
        → HasBoundedWaits f bus.plan (messages_asked f any plain are.0) }
    ensures lines { (tick : ℕ) (any : Bool) (plain : PlanText) (bus : Bus) (lines : List TextLine) (met : Bool)
        → AreLinesOfBus tick any plain bus lines met → AreSaidBounded bus.names lines
        → IsRunnable bus.plan → length bus.deviations ≡ length bus.plan.nodes
        → HasBoundedLines tick any plain bus lines met }
    ensures text { (tick : ℕ) (any : Bool) (plain : PlanText) (bus : Bus) (text : List ℕ) (met : Bool)
        → IsTextOfBus tick any plain bus text met → SaysBounded bus.names text
        → IsRunnable bus.plan → length bus.deviations ≡ length bus.plan.nodes
        → HasBoundedText tick any plain bus text met }
{
    wl_level::place_laws();
    wl_respond::any_data_is_within_the_bits();
    wl_margin::clocks_keep_pace();
    respond_law();
}
