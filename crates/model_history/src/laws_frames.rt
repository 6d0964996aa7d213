//! Laws of legal histories: what may come next, and how main frames go. They are contracts of
//! functions that do nothing, over pasts, which list the newest entry first.

ghost use Rattle.std.specs.Prelude.{◌≡◌, ◌⊎◌, ℕ, suc, ◌+◌, ◌<◌, ◌≤◌, nat_lt, true, false, List, ◌++◌, is_some, Some};
ghost use Rattle.model_states.specs.declared.kind.Kind.TheVariants as kind;
ghost use Rattle.model_states.specs.Kinds.{is_main_idle, is_sent};
ghost use Rattle.model_history.specs.Scripts.{ScriptModel};
ghost use Rattle.model_history.specs.declared.history.Entry.{Entry};
ghost use Rattle.model_history.specs.EventFields.{kind_of, sends, answers, commits, aborts, activates};
ghost use Rattle.model_history.specs.Scans.{was_named, newest, counted};
ghost use Rattle.model_history.specs.Frames.{has_frame_ended, changes, pulls_of, active, pending, up_to};
ghost use Rattle.model_history.specs.Legal.{sched, Next, Legal, IsLegal};
ghost use Rattle.model_history.specs.FrameLaws.{AtEach, MayCome, OneOf, is_by_actor, has_stopped};

/// At most one event of each kind may come after a past; of the kinds that each actor has for itself,
/// the start and the end of a tile and the stop, at most one of each actor. While a main frame is sent
/// and nobody has stopped, exactly one of its `Ready` and its `Abort` may come.
pub fn one_answer()
    ensures of_kind { (s : ScriptModel) (workers : ℕ) (h : List Entry) (e f : Entry) → Next s workers h e → Next s workers h f → kind_of e.event ≡ kind_of f.event → is_by_actor (kind_of e.event) ≡ false → e ≡ f }
    ensures of_actor { (s : ScriptModel) (workers : ℕ) (h : List Entry) (e f : Entry) → Next s workers h e → Next s workers h f → kind_of e.event ≡ kind_of f.event → e.actor ≡ f.actor → e ≡ f }
    ensures ready_or_abort { (s : ScriptModel) (workers : ℕ) (h : List Entry) → Legal s workers h → is_sent (sched h).main_state ≡ true → has_stopped h ≡ false → OneOf (MayCome s workers h kind.Ready) (MayCome s workers h kind.Abort) }
{}

/// Every entry of a legal history has an actor below 2 + n, where n is the number of workers.
pub fn actors_are_few()
    ensures { (s : ScriptModel) (workers : ℕ) (h : List Entry) → Legal s workers h → AtEach (λ g e. e.actor < 2 + workers) h }
{}

/// What stands before the newest entries of a legal past is legal, and so is every prefix of a legal
/// history.
pub fn beginnings_are_legal()
    ensures past { (s : ScriptModel) (workers : ℕ) (newer h : List Entry) → Legal s workers (newer ++ h) → Legal s workers h }
    ensures history { (s : ScriptModel) (workers : ℕ) (history later : List Entry) → IsLegal s workers (history ++ later) → IsLegal s workers history }
{}

/// After every legal past the frames that were sent are the first ones. Each of them has ended but the
/// last while it is in flight, in one way: by a commit if it changes something, else by an abort. Of
/// the commits some were activated, up to the active one; one that was not is pending, and later.
pub fn frames_take_their_course()
    ensures sent { (s : ScriptModel) (workers : ℕ) (h : List Entry) (k : ℕ) → Legal s workers h → was_named sends h k ≡ nat_lt k (counted sends h) }
    ensures ended { (s : ScriptModel) (workers : ℕ) (h : List Entry) (k : ℕ) → Legal s workers h → k < counted sends h → (has_frame_ended h k ≡ true) ⊎ ((is_main_idle (sched h).main_state ≡ false) × (newest sends h ≡ Some k) × (has_frame_ended h k ≡ false)) }
    ensures one_end { (s : ScriptModel) (workers : ℕ) (h : List Entry) (k : ℕ) → Legal s workers h → was_named commits h k ≡ true → was_named aborts h k ≡ false }
    ensures commit { (s : ScriptModel) (workers : ℕ) (h : List Entry) (k : ℕ) → Legal s workers h → was_named commits h k ≡ true → changes s (pulls_of h) k ≡ true }
    ensures abort { (s : ScriptModel) (workers : ℕ) (h : List Entry) (k : ℕ) → Legal s workers h → was_named aborts h k ≡ true → changes s (pulls_of h) k ≡ false }
    ensures activated { (s : ScriptModel) (workers : ℕ) (h : List Entry) (k : ℕ) → Legal s workers h → was_named activates h k ≡ true → (was_named commits h k ≡ true) × (k < up_to (active h)) }
    ensures pending { (s : ScriptModel) (workers : ℕ) (h : List Entry) (k : ℕ) → Legal s workers h → pending h ≡ Some k → (was_named commits h k ≡ true) × (was_named activates h k ≡ false) × (up_to (active h) ≤ k) }
    ensures not_activated { (s : ScriptModel) (workers : ℕ) (h : List Entry) (k : ℕ) → Legal s workers h → was_named commits h k ≡ true → (was_named activates h k ≡ true) ⊎ (pending h ≡ Some k) }
    ensures state { (s : ScriptModel) (workers : ℕ) (h : List Entry) → Legal s workers h → (sched h).has_pending ≡ is_some (pending h) }
{}

/// After every legal past all main frames that were sent are answered, but for the last while it waits
/// for its answer. The frames up to the active commit are among them, and those up to the pending one.
pub fn sent_frames_are_answered()
    ensures all { (s : ScriptModel) (workers : ℕ) (h : List Entry) → Legal s workers h → is_sent (sched h).main_state ≡ false → counted answers h ≡ counted sends h }
    ensures all_but_one { (s : ScriptModel) (workers : ℕ) (h : List Entry) → Legal s workers h → is_sent (sched h).main_state ≡ true → suc (counted answers h) ≡ counted sends h }
    ensures active { (s : ScriptModel) (workers : ℕ) (h : List Entry) → Legal s workers h → up_to (active h) ≤ counted answers h }
    ensures pending { (s : ScriptModel) (workers : ℕ) (h : List Entry) → Legal s workers h → up_to (pending h) ≤ counted answers h }
{}
