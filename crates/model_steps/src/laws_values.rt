//! What the five scroll values of each scroller tell of the offsets of both trees, and of the moves that
//! the next events list. They are contracts of functions that do nothing, over pasts, which list the newest
//! entry first.

ghost use Rattle.std.specs.Prelude.{◌≡◌, ℕ, ℤ, pos, cond, List, None};
ghost use Rattle.model_states.specs.Table.{pull_answer};
ghost use Rattle.page_layers.specs.declared.moves.Move.{Move};
ghost use Rattle.page_layers.specs.Axes.{Axis, amount_in};
ghost use Rattle.page_layers.specs.Scrollers.{has_scroller, offsets_in, amount_taken};
ghost use Rattle.model_history.specs.declared.history.Entry.{Entry};
ghost use Rattle.model_history.specs.Scripts.{ScriptModel};
ghost use Rattle.model_history.specs.Frames.{pending, active_page, pending_page};
ghost use Rattle.model_history.specs.Scrolls.{pending_offset, clobbers, clamp_move, accepted, active_offsets, pending_offsets, next_pulls, next_clamps};
ghost use Rattle.model_history.specs.ScrollLaws.{frame_in_flight, AreRising};
ghost use Rattle.model_history.specs.Values.{values};
ghost use Rattle.model_history.specs.Accepted.{IsPlayable};
ghost use Rattle.model_history.specs.Legal.{Legal};
ghost use Rattle.model_steps.specs.Standing.{active_at, pending_at, clamped_by};

/// After every legal past the five values tell where the scrollers of both trees stand, what is accepted
/// of a scroll, and how far an activation moves a scroller.
pub fn values_tell_the_offsets()
    ensures active { (s : ScriptModel) (workers : ℕ) (h : List Entry) → Legal s workers h → active_offsets s h ≡ offsets_in (active_page s h) (active_at (λ sc ax. values s sc ax h)) }
    ensures pending { (s : ScriptModel) (workers : ℕ) (h : List Entry) → Legal s workers h → pending_offsets s h ≡ offsets_in (pending_page s h) (pending_at (clobbers s (pending h)) (pending_page s h) (λ sc ax. values s sc ax h)) }
    ensures pending_offset { (s : ScriptModel) (workers : ℕ) (h : List Entry) (sc : ℕ) (ax : Axis) → Legal s workers h → pending_offset s h sc ax ≡ pending_at (clobbers s (pending h)) (pending_page s h) (λ sc ax. values s sc ax h) sc ax }
    ensures accepted { (s : ScriptModel) (workers : ℕ) (h : List Entry) (sc : ℕ) (ax : Axis) (asked : ℤ) → Legal s workers h → accepted s h sc ax asked ≡ amount_taken (active_page s h) (active_at (λ sc ax. values s sc ax h)) sc ax asked }
    ensures clamp { (s : ScriptModel) (workers : ℕ) (h : List Entry) (sc : ℕ) (ax : Axis) → Legal s workers h → clamp_move s h sc ax ≡ clamped_by (clobbers s (pending h)) (pending_page s h) (λ sc ax. values s sc ax h) sc ax }
{}

/// A send lists the one rising list of moves that has for each scroller what the main side has not heard.
pub fn sends_list_what_is_unheard()
    ensures { (s : ScriptModel) (workers : ℕ) (h : List Entry) (ms : List Move) → Legal s workers h → frame_in_flight h ≡ None → AreRising ms → ((sc : ℕ) (ax : Axis) → amount_in sc ax ms ≡ pull_answer (values s sc ax h)) → next_pulls s h ≡ ms }
{}

/// An activation lists the one rising list of moves that brings each scroller of the pending page to its
/// pending offset.
pub fn activations_list_the_clamps()
    ensures { (s : ScriptModel) (workers : ℕ) (h : List Entry) (ms : List Move) → IsPlayable s → Legal s workers h → AreRising ms → ((sc : ℕ) (ax : Axis) → amount_in sc ax ms ≡ cond (has_scroller (pending_page s h) sc) (clamped_by (clobbers s (pending h)) (pending_page s h) (λ sc ax. values s sc ax h) sc ax) (pos 0)) → next_clamps s h ≡ ms }
{}
