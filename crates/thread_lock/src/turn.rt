//! What a value tells so that actors can take turns with it.
ghost use Rattle.std.specs.Prelude.{◌≡◌, ℕ, List, length};

/// A value with a stem, which never changes, and a history, a list of entries that only grows.
/// Each entry stands beside the number of the actor that made it.
pub trait Turn {
    /// What the value began with.
    type Stem;

    /// What one actor did in one turn.
    type Entry;

    // What the value began with.
    ghost stem: { Self → Self.Stem };

    // The entries from the first to the last, each beside its actor's number.
    ghost history: { Self → List (ℕ × Self.Entry) };

    /// How many entries the history has.
    fn entries(&self) -> u64
        ensures { result ≡ length (history self.now) };
}
