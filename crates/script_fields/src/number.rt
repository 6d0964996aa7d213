//! The number that a token of JSON writes.

ghost use Rattle.std.specs.Prelude.{◌≡◌, ◌==◌, ◌<◌, length, slice_index, option_map, IsTrue, true, false, pos, int_lt};
ghost use Rattle.serde_json.specs.Data.{negative as below_zero};
ghost use Rattle.serde_json.specs.Read.{number_of, number_from, float_of};
ghost use Rattle.serde_json.specs.View.{number_view};

use fast_float::Numeral;
use serde_json::Number;

fn has_minus(bytes: &[u8]) -> bool
    ensures value { result ≡ (slice_index bytes.now 0 == 45) }
    ensures some { IsTrue result → 0 < length bytes.now }
{
    !bytes.is_empty() && bytes[0] == b'-'
}

// The nearest float, unless that is infinite.
fn nearest(negative: bool, numeral: &Numeral<'_>) -> Option<Number>
    ensures { option_map number_view result ≡ float_of negative numeral.now }
{
    Number::from_f64(numeral.to_float::<f64>(negative))
}

#[tactic(auto, using(crate::proofs::Signs::of_negative))]
fn negative_integer(n: i64) -> Number
    requires { int_lt n (pos 0) ≡ true }
    ensures { number_view result ≡ below_zero n }
{
    Number::from(n)
}

fn without_minus(numeral: &Numeral<'_>) -> Option<Number>
    ensures { option_map number_view result ≡ number_from false numeral.now }
{
    match numeral.to_u64() {
        Some(n) => Some(Number::from(n)),
        None => nearest(false, numeral),
    }
}

fn after_minus(numeral: &Numeral<'_>) -> Option<Number>
    ensures { option_map number_view result ≡ number_from true numeral.now }
{
    if let Some(n) = numeral.to_i64(true) {
        if n < 0 {
            return Some(negative_integer(n));
        }
    }
    nearest(true, numeral)
}

/// The number that a token of JSON writes; none if it is a float beyond the largest.
pub(crate) fn number_of(text: &str) -> Option<Number>
    ensures { option_map number_view result ≡ number_of text.now }
{
    let bytes = text.as_bytes();
    if has_minus(bytes) {
        after_minus(&Numeral::scan(&bytes[1..]))
    } else {
        without_minus(&Numeral::scan(bytes))
    }
}
