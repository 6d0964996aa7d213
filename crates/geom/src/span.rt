//! One axis of a rect: the whole numbers from `at` on, `len` of them.

ghost use Rattle.std.specs.Prelude.{◌≡◌, ℤ, ◌&&◌, ◌+ℤ◌, ◌<◌, ◌+◌, IfSome, FitsSigned};
ghost use mir.Syntax.{w32};
ghost use Rattle.geom.specs.Covers.{within, IsSpan};
ghost use Rattle.geom.specs.Common;
ghost use Rattle.geom.specs.Gaps.{span_gap};

use crate::rect::Rect;

/// The numbers from `at` on, `len` of them.
#[derive(Clone, Copy)]
pub struct Span {
    /// The least of them.
    pub at: i32,
    /// How many.
    pub len: i32,
}

/// Whether `p` is one of the `len` numbers from `at` on.
#[tactic(auto, unfolding(crate::specs::Covers::within))]
pub fn is_within(at: i32, len: i32, p: i32) -> bool
    requires { IsSpan at len }
    ensures { result ≡ within at len p }
{
    let end = at + len;
    at <= p && p < end
}

/// The numbers of both spans; None if there are none.
#[tactic(auto, unfolding(crate::specs::Common::common_span))]
pub fn common_span(at: i32, len: i32, other_at: i32, other_len: i32) -> Option<Span>
    requires first { IsSpan at len }
    requires second { IsSpan other_at other_len }
    ensures value { result ≡ Common.common_span at len other_at other_len }
    ensures inside { IfSome result (λ s. Common.IsCommon at len s) }
{
    let start = at.max(other_at);
    let end = (at + len).min(other_at + other_len);
    if start < end {
        Some(Span {
            at: start,
            len: end - start,
        })
    } else {
        None
    }
}

/// The rect of two spans; the rect (0, 0, 0, 0) if one is missing.
pub fn rect_of_spans(across: Option<Span>, down: Option<Span>) -> Rect
    ensures { result ≡ Common.rect_of_spans across down }
{
    match (across, down) {
        (Some(across), Some(down)) => Rect {
            x: across.at,
            y: down.at,
            w: across.len,
            h: down.len,
        },
        _ => Rect {
            x: 0,
            y: 0,
            w: 0,
            h: 0,
        },
    }
}

/// Whether two spans share a number.
#[tactic(auto, unfolding(crate::specs::Common::spans_meet))]
pub fn have_common(at: i32, len: i32, other_at: i32, other_len: i32) -> bool
    requires first { IsSpan at len }
    requires second { IsSpan other_at other_len }
    ensures { result ≡ Common.spans_meet at len other_at other_len }
{
    let start = at.max(other_at);
    let end = (at + len).min(other_at + other_len);
    start < end
}

/// A start moved by `by`.
pub fn moved(at: i32, by: i32) -> i32
    requires { FitsSigned w32 (at +ℤ by) }
    ensures { result ≡ at +ℤ by }
{
    at + by
}

/// How many numbers lie between two spans.
#[tactic(auto, unfolding(crate::specs::Gaps::span_gap))]
pub fn gap(at: i32, len: i32, other_at: i32, other_len: i32) -> u32
    requires first { IsSpan at len }
    requires second { IsSpan other_at other_len }
    ensures { result ≡ span_gap at len other_at other_len }
{
    let to_other = other_at - (at + len);
    let from_other = at - (other_at + other_len);
    to_other.max(from_other).max(0) as u32
}
