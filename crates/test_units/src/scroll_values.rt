//! Scroll values worked by hand, as active base and delta, pending base, and what of the delta the main frame in
//! flight and the pending base contain.

use model_states::Synced;
use test_table::Checks;

/// An abort, and an activation, with a commit pending.
pub fn abort_and_activation(checks: &mut Checks) {
    let mut s = Synced::ZERO;
    s.add(10);
    checks.same("all of a delta is pulled", &s.pull(), &10);
    s.push_main(10);
    s.add(5);
    checks.same("what came since is pulled", &s.pull(), &5);
    checks.same("pulled twice", &values(s), &[0, 15, 10, 5, 10]);
    s.abort();
    checks.same("aborted", &values(s), &[5, 10, 15, 0, 10]);
    s.activate();
    checks.same("activated", &values(s), &[15, 0, 15, 0, 0]);
}

/// A clobber answers the move back to the base.
pub fn clobber_moves_to_the_base(checks: &mut Checks) {
    let mut s = Synced::ZERO;
    s.push_main(40);
    s.add(-7);
    s.activate();
    checks.same("the active value before", &s.active(), &33);
    checks.same("the move", &s.clobber(), &7);
    checks.same("the active value", &s.active(), &40);
    checks.same("the pending value", &s.pending(), &40);
}

/// The five values.
fn values(s: Synced) -> [i64; 5] {
    [
        s.active_base,
        s.active_delta,
        s.pending_base,
        s.reflected_main,
        s.reflected_pending,
    ]
}
