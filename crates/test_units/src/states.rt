//! States of the scheduler worked by hand.

use model_states::{Kind, Sched};
use test_table::Checks;

/// A frame is sent at most once in an impl frame.
pub fn one_send_in_an_impl_frame(checks: &mut Checks) {
    let start = Sched::START;
    checks.holds("a draw may begin at first", start.may(Kind::BeginDraw));
    checks.holds("nothing is to be finished", !start.may(Kind::Finish));
    let begun = start.after(Kind::BeginDraw);
    checks.holds("a frame may be sent", begun.may(Kind::Send));
    let sent = begun.after(Kind::Send);
    checks.holds("no second one", !sent.may(Kind::Send));
}
