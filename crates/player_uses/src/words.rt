//! The words of the command line.

ghost use Rattle.std.specs.Prelude.{◌≡◌, ◌≤◌, ◌^◌, ◌+◌, ◌-◌, ◌*◌, Ok, IfOk, IfSome, MatchOption, is_some, decimal, map, string_bytes};
ghost use Rattle.std.specs.Str.{bytes_eq};
ghost use Rattle.player_uses.specs.Words as words;
ghost use Rattle.player_uses.specs.Words.{IsFew};

use itoa::Buffer;

/// What the words ask for.
#[derive(Clone, Copy, Debug, Drop, PartialEq)]
pub enum Use {
    /// `step N`: plays a script in lockstep with N raster workers and writes its recording.
    Step {
        /// How many raster workers there are, 1 to 16. The recording is the same for every number.
        workers: u32,
    },
    /// `play N`: plays a script by actors on threads, with N raster workers, and writes its recording.
    Play {
        /// How many raster workers there are, 1 to 16.
        workers: u32,
    },
    /// `gen NUMBER`: writes the script of a number.
    Gen {
        /// The number of which the script is made.
        number: u64,
    },
    /// `demo NUMBER`: plays the script of a number in lockstep and writes a line that sums up its recording.
    Demo {
        /// The number of which the script is made.
        number: u64,
    },
    /// `film N`: plays a script in lockstep with N raster workers and writes the images of its recording alone.
    Film {
        /// How many raster workers there are, 1 to 16. The images are the same for every number.
        workers: u32,
    },
    /// `shot N`: plays a script in lockstep with N raster workers and writes the picture of its last draw as a PNG
    /// file.
    Shot {
        /// How many raster workers there are, 1 to 16. The picture is the same for every number.
        workers: u32,
    },
    /// `frames`: writes the images of a recording.
    Frames,
    /// `check`: judges a recording without the core and what draws.
    Check,
    /// `serve N`: answers each line of a client, which is a script, with its recording.
    Serve {
        /// How many raster workers there are, 1 to 16. The recordings in the answers are the same for every number,
        /// and not the pieces in which they come.
        workers: u32,
    },
}

impl Use {
    // The number of raster workers of `play N`; None for other uses.
    fn players(self) -> Option<u32>
        requires { IsFew self }
        ensures play { is_some result ≡ words.is_play self }
        ensures workers { IfSome result (λ workers. self ≡ Use.Play workers) }
        ensures few { IfSome result (λ workers. (1 ≤ workers) × (workers ≤ 16)) }
    {
        match self {
            Use::Play { workers } => Some(workers),
            Use::Step { .. }
            | Use::Gen { .. }
            | Use::Demo { .. }
            | Use::Film { .. }
            | Use::Shot { .. }
            | Use::Frames
            | Use::Check
            | Use::Serve { .. } => None,
        }
    }
}

// Whether two texts are the same.
fn is_same(a: &str, b: &str) -> bool
    ensures { result ≡ bytes_eq a.now b.now }
{
    a == b
}

// The next value, if a digit stands after it; None if it does not fit.
fn value_behind(value: u64, digit: u8) -> Option<u64>
    ensures { MatchOption result (2 ^ 64 ≤ value * 10 + (digit - 48)) (λ n. n ≡ value * 10 + (digit - 48)) }
{
    let tens = value.checked_mul(10)?;
    tens.checked_add(u64::from(digit.saturating_sub(48)))
}

// What the digits of a word say; None if it does not fit.
fn value_of(word: &[u8]) -> Option<u64>
    ensures { MatchOption result (2 ^ 64 ≤ words.digits_value 0 word.now) (λ n. n ≡ words.digits_value 0 word.now) }
{
    let mut value = 0u64;
    let mut rest = word;
    while let Some((digit, after)) = rest.split_first() {
        let Some(next) = value_behind(value, *digit) else {
            return None;
        };
        value = next;
        rest = after;
    }
    Some(value)
}

// Whether a word is the plain decimal of a number.
fn is_number(word: &str, number: u64) -> bool
    ensures { result ≡ bytes_eq (decimal number) word.now }
{
    let mut buffer = Buffer::new();
    is_same(buffer.format(number), word)
}

// The number below 2^64 whose plain decimal a word is.
#[tactic(auto, unfolding(crate::specs::Words::number_in))]
fn number_of(word: &str) -> Option<u64>
    ensures { result ≡ words.number_in word.now }
{
    let Some(number) = value_of(word.as_bytes()) else {
        return None;
    };
    if is_number(word, number) {
        Some(number)
    } else {
        None
    }
}

// The number of raster workers that a word is, if it is one.
fn workers_of(word: &str) -> Option<u32>
    ensures { result ≡ words.workers_in word.now }
{
    match number_of(word) {
        Some(count) if 1 <= count && count <= 16 => Some(count as u32),
        _ => None,
    }
}

// The use, if no word is left; else the index of the next one.
fn no_more(wanted: Use, index: u32, rest: &[String]) -> Result<Use, u32>
    ensures { result ≡ words.no_more_words wanted index (map string_bytes rest.now) }
{
    match rest {
        [] => Ok(wanted),
        [_, ..] => Err(index),
    }
}

// What the words after `step` ask for, or the index of the first that does not fit.
fn after_step(rest: &[String]) -> Result<Use, u32>
    ensures { result ≡ words.with_number words.workers_in Use.Step (map string_bytes rest.now) }
{
    let [word, more @ ..] = rest else {
        return Err(1);
    };
    match workers_of(word.as_str()) {
        Some(workers) => no_more(Use::Step { workers }, 2, more),
        None => Err(1),
    }
}

// What the words after `play` ask for, or the index of the first that does not fit.
fn after_play(rest: &[String]) -> Result<Use, u32>
    ensures { result ≡ words.with_number words.workers_in Use.Play (map string_bytes rest.now) }
{
    let [word, more @ ..] = rest else {
        return Err(1);
    };
    match workers_of(word.as_str()) {
        Some(workers) => no_more(Use::Play { workers }, 2, more),
        None => Err(1),
    }
}

// What the words after `film` ask for, or the index of the first that does not fit.
fn after_film(rest: &[String]) -> Result<Use, u32>
    ensures { result ≡ words.with_number words.workers_in Use.Film (map string_bytes rest.now) }
{
    let [word, more @ ..] = rest else {
        return Err(1);
    };
    match workers_of(word.as_str()) {
        Some(workers) => no_more(Use::Film { workers }, 2, more),
        None => Err(1),
    }
}

// What the words after `shot` ask for, or the index of the first that does not fit.
fn after_shot(rest: &[String]) -> Result<Use, u32>
    ensures { result ≡ words.with_number words.workers_in Use.Shot (map string_bytes rest.now) }
{
    let [word, more @ ..] = rest else {
        return Err(1);
    };
    match workers_of(word.as_str()) {
        Some(workers) => no_more(Use::Shot { workers }, 2, more),
        None => Err(1),
    }
}

// What the words after `serve` ask for, or the index of the first that does not fit.
fn after_serve(rest: &[String]) -> Result<Use, u32>
    ensures { result ≡ words.with_number words.workers_in Use.Serve (map string_bytes rest.now) }
{
    let [word, more @ ..] = rest else {
        return Err(1);
    };
    match workers_of(word.as_str()) {
        Some(workers) => no_more(Use::Serve { workers }, 2, more),
        None => Err(1),
    }
}

// What the words after `gen` ask for, or the index of the first that does not fit.
fn after_gen(rest: &[String]) -> Result<Use, u32>
    ensures { result ≡ words.with_number words.number_in Use.Gen (map string_bytes rest.now) }
{
    let [word, more @ ..] = rest else {
        return Err(1);
    };
    match number_of(word.as_str()) {
        Some(number) => no_more(Use::Gen { number }, 2, more),
        None => Err(1),
    }
}

// What the words after `demo` ask for, or the index of the first that does not fit.
fn after_demo(rest: &[String]) -> Result<Use, u32>
    ensures { result ≡ words.with_number words.number_in Use.Demo (map string_bytes rest.now) }
{
    let [word, more @ ..] = rest else {
        return Err(1);
    };
    match number_of(word.as_str()) {
        Some(number) => no_more(Use::Demo { number }, 2, more),
        None => Err(1),
    }
}

// What the words after a first word that is not `step` ask for, or the index of the first that does not
// fit.
fn after_other(first: &str, rest: &[String]) -> Result<Use, u32>
    ensures { result ≡ words.after_other first.now (map string_bytes rest.now) }
{
    if is_same(first, "play") {
        after_play(rest)
    } else if is_same(first, "gen") {
        after_gen(rest)
    } else if is_same(first, "demo") {
        after_demo(rest)
    } else if is_same(first, "film") {
        after_film(rest)
    } else if is_same(first, "shot") {
        after_shot(rest)
    } else if is_same(first, "frames") {
        no_more(Use::Frames, 1, rest)
    } else if is_same(first, "check") {
        no_more(Use::Check, 1, rest)
    } else if is_same(first, "serve") {
        after_serve(rest)
    } else {
        Err(0)
    }
}

/// What the words ask for; or the index of the first word that, with those before it, begins no use of
/// the program. If there is no such word but more words are needed, it is their count.
pub fn use_of(given: &[String]) -> Result<Use, u32>
    ensures found { result ≡ words.use_of (map string_bytes given.now) }
    ensures few { IfOk result IsFew }
{
    match given {
        [first, rest @ ..] if is_same(first.as_str(), "step") => after_step(rest),
        [first, rest @ ..] => after_other(first.as_str(), rest),
        _ => Err(0),
    }
}

/// The number of raster workers of `play N`; None if the words are others.
pub fn players(given: &[String]) -> Option<u32>
    ensures play { is_some result ≡ words.asks_play (words.use_of (map string_bytes given.now)) }
    ensures workers { IfSome result (λ workers. words.use_of (map string_bytes given.now) ≡ Ok (Use.Play workers)) }
    ensures few { IfSome result (λ workers. (1 ≤ workers) × (workers ≤ 16)) }
{
    match use_of(given) {
        Ok(wanted) => wanted.players(),
        Err(_) => None,
    }
}
