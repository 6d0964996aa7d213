//! Laws of scrolls: where scrollers stand, and that each accepted move counts once. They are contracts
//! of functions that do nothing, over pasts, which list the newest entry first; each part of a legal
//! past is a legal past, so what is said of a past holds after each entry of a history.

ghost use Rattle.std.specs.Prelude.{◌≡◌, ℕ, ℤ, pos, ◌+ℤ◌, Bool, true, false, not, List, ◌∷◌, Option, Some, None};
ghost use Rattle.model_states.specs.Bounds.{IsBounded};
ghost use Rattle.model_states.specs.Table.{active_value, pending_value, pull_answer};
ghost use Rattle.page_layers.specs.Scrolls.{IsInRange};
ghost use Rattle.model_history.specs.Scripts.{ScriptModel};
ghost use Rattle.model_history.specs.declared.event.Event.TheVariants as event;
ghost use Rattle.model_history.specs.declared.history.Entry.{Entry};
ghost use Rattle.page_layers.specs.declared.moves.Move.{Move};
ghost use Rattle.model_history.specs.EventFields.{sends, commits, retires, pulls, moves};
ghost use Rattle.model_history.specs.Scans.{was_named, counted};
ghost use Rattle.page_layers.specs.Axes.{Axis, amount_in};
ghost use Rattle.page_layers.specs.Scrollers.{has_scroller, most};
ghost use Rattle.model_history.specs.Frames.{pulls_of, active, up_to, active_page, pending_page};
ghost use Rattle.model_history.specs.Scrolls.{sum_of_moves, in_base, in_delta, by_send, main_moves, base, delta, offset, offset_then, pending_offset, clobbers, unsent, carried, all_moved};
ghost use Rattle.model_history.specs.Values.{values};
ghost use Rattle.model_history.specs.ScrollLaws.{frame_in_flight, pulled_by, clamps, AreSums, AreSmall, AreRising};
ghost use Rattle.model_history.specs.FrameLaws.{AtEach};
ghost use Rattle.model_history.specs.Accepted.{IsPlayable};
ghost use Rattle.model_history.specs.Legal.{Legal};

/// The offset of a scroller is the sum of the main moves of the committed frames up to the active one
/// and of all accepted moves, to which each event adds its own. Each accepted move is in the base or in
/// the delta, and not in both. Each is carried by one send at most; the pulls of a send are exactly what
/// it carries, so each move is in the pulls of one send at most, and all moves are those in the pulls and
/// those not yet sent.
pub fn scrolls_count_once()
    ensures offset { (s : ScriptModel) (h : List Entry) (sc : ℕ) (ax : Axis) → offset s h sc ax ≡ main_moves s (pulls_of h) (was_named commits h) sc ax (up_to (active h)) +ℤ all_moved s h sc ax }
    ensures each_event { (s : ScriptModel) (h : List Entry) (e : Entry) (sc : ℕ) (ax : Axis) → all_moved s (e ∷ h) sc ax ≡ amount_in sc ax (moves s e.event) +ℤ all_moved s h sc ax }
    ensures one_part { (retired : ℕ → Bool) (carrier : Option ℕ) → in_delta retired carrier ≡ not (in_base retired carrier) }
    ensures both_parts { (s : ScriptModel) (h : List Entry) (sc : ℕ) (ax : Axis) → all_moved s h sc ax ≡ sum_of_moves s sc ax (in_base (was_named retires h)) None h +ℤ delta s h sc ax }
    ensures one_send { (j k : ℕ) (carrier : Option ℕ) → by_send j carrier ≡ true → by_send k carrier ≡ true → j ≡ k }
    ensures pulls { (s : ScriptModel) (workers : ℕ) (h : List Entry) (k sc : ℕ) (ax : Axis) → Legal s workers h → was_named sends h k ≡ true → amount_in sc ax (pulls_of h k) ≡ carried s h k sc ax }
    ensures all_moves { (s : ScriptModel) (workers : ℕ) (h : List Entry) (sc : ℕ) (ax : Axis) → Legal s workers h → all_moved s h sc ax ≡ unsent s h sc ax +ℤ pulled_by (pulls_of h) sc ax (counted sends h) }
{}

/// After every legal past the five values of a scroller along an axis, kept step by step, are the
/// sums: base, delta, pending base, and what the sends of the frame in flight and of the pending commit
/// carry. So the values tell the offset, the offset as if the pending commit were active, and, if no
/// main frame is in flight, what the next send lists.
pub fn values_are_sums()
    ensures sums { (s : ScriptModel) (workers : ℕ) (h : List Entry) (sc : ℕ) (ax : Axis) → Legal s workers h → AreSums s h sc ax (values s sc ax h) }
    ensures active { (s : ScriptModel) (workers : ℕ) (h : List Entry) (sc : ℕ) (ax : Axis) → Legal s workers h → offset s h sc ax ≡ active_value (values s sc ax h) }
    ensures pending { (s : ScriptModel) (workers : ℕ) (h : List Entry) (sc : ℕ) (ax : Axis) → Legal s workers h → offset_then s h sc ax ≡ pending_value (values s sc ax h) }
    ensures next_send { (s : ScriptModel) (workers : ℕ) (h : List Entry) (sc : ℕ) (ax : Axis) → Legal s workers h → frame_in_flight h ≡ None → unsent s h sc ax ≡ pull_answer (values s sc ax h) }
{}

/// In a playable script each scroller stands in its range in the active page, and in its range in the
/// pending one. A scroller that the active page lacks stands at 0, as do all before the first
/// activation.
pub fn offsets_stay_in_range()
    ensures active { (s : ScriptModel) (workers : ℕ) (h : List Entry) (sc : ℕ) (ax : Axis) → IsPlayable s → Legal s workers h → IsInRange (most (active_page s h) sc ax) (offset s h sc ax) }
    ensures pending { (s : ScriptModel) (workers : ℕ) (h : List Entry) (sc : ℕ) (ax : Axis) → IsPlayable s → Legal s workers h → IsInRange (most (pending_page s h) sc ax) (pending_offset s h sc ax) }
    ensures lacking { (s : ScriptModel) (workers : ℕ) (h : List Entry) (sc : ℕ) (ax : Axis) → Legal s workers h → has_scroller (active_page s h) sc ≡ false → (base s h sc ax ≡ pos 0) × (delta s h sc ax ≡ pos 0) × (offset s h sc ax ≡ pos 0) }
    ensures first { (s : ScriptModel) (workers : ℕ) (h : List Entry) (sc : ℕ) (ax : Axis) → Legal s workers h → active h ≡ None → (base s h sc ax ≡ pos 0) × (delta s h sc ax ≡ pos 0) × (offset s h sc ax ≡ pos 0) }
{}

/// After the activation of a commit that clobbers a scroller, the delta of that scroller is (0, 0): the
/// moves in the delta, the listed one among them, add up to nothing.
pub fn clobbering_leaves_no_delta()
    ensures { (s : ScriptModel) (workers : ℕ) (h : List Entry) (a k : ℕ) (listed : List Move) (sc : ℕ) (ax : Axis) → Legal s workers (record { actor = a; event = event.Activate k listed } ∷ h) → clobbers s (Some k) sc ≡ true → delta s (record { actor = a; event = event.Activate k listed } ∷ h) sc ax ≡ pos 0 }
{}

/// In a legal past of a playable script each part of a pull and of an accepted move is below 2^54 in
/// absolute value, and the five values are within the bounds of every step.
pub fn moves_are_small()
    ensures parts { (s : ScriptModel) (workers : ℕ) (h : List Entry) → IsPlayable s → Legal s workers h → AtEach (λ g e. AreSmall (pulls e.event) × AreSmall (moves s e.event)) h }
    ensures values { (s : ScriptModel) (workers : ℕ) (h : List Entry) (sc : ℕ) (ax : Axis) → IsPlayable s → Legal s workers h → IsBounded (values s sc ax h) }
{}

/// The moves that a send and an activation of a playable script list stand by rising scroller, each once,
/// and none is (0, 0). Only one such list has this much for each scroller.
pub fn listed_moves_rise()
    ensures each { (s : ScriptModel) (workers : ℕ) (h : List Entry) → IsPlayable s → Legal s workers h → AtEach (λ g e. AreRising (pulls e.event) × AreRising (clamps e.event)) h }
    ensures one_list { (one other : List Move) → AreRising one → AreRising other → ((sc : ℕ) (ax : Axis) → amount_in sc ax one ≡ amount_in sc ax other) → one ≡ other }
{}
