//! Points and changes as parts of an answer.

use geom::Point;
use region::{Changes, LayerChange};
use test_table::Answer;

/// The side of the square whose points are looked at in a changed region.
const LOOKED_AT: i32 = 8;

/// Says where something stands.
pub fn say_point(words: &str, at: Point, answer: &mut Answer) {
    answer.say(words, &[i64::from(at.x), i64::from(at.y)]);
}

/// Says what of a layer changed: all, or the points near its corner that its region covers.
fn say_change(change: &LayerChange, answer: &mut Answer) {
    let words = if change.whole {
        "whole layer"
    } else {
        "part of layer"
    };
    answer.say(words, &[i64::from(change.layer)]);
    for y in 0..LOOKED_AT {
        for x in 0..LOOKED_AT {
            let at = Point { x, y };
            if change.region.covers(at) {
                say_point("point", at, answer);
            }
        }
    }
}

/// Says what changed.
pub fn say_changes(changes: &Changes, answer: &mut Answer) {
    if changes.retiled() {
        answer.say("other tiles", &[]);
    } else if changes.len() == 0 {
        answer.say("nothing", &[]);
    }
    for i in 0..changes.len() {
        if let Some(change) = changes.at(i) {
            say_change(change, answer);
        }
    }
}
