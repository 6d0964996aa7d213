//! The program: a script on standard input, its recording on standard output; a recording, and its
//! pictures; or a script that is made of a number.
#![tactic(auto)]

use byte_io::{OpenGate, Sink, StdSink, StdSource};
use player_lines::{Ends, Session};
use player_run::{Streams, run_played, run_std};
use std::alloc::{AllocError, Global};
use std::env::{Env, FillError};
use std::process::ExitCode;

// What `--help` prints.
const HELP: &str = "\
cc_player: plays scripts of page changes and inputs

usage: cc_player step N < SCRIPT > RECORDING
       cc_player play N < SCRIPT > RECORDING
       cc_player film N < SCRIPT > PICTURES
       cc_player shot N < SCRIPT > FILE.png
       cc_player serve N < SCRIPTS > ANSWERS
       cc_player frames < RECORDING > PICTURES
       cc_player check < RECORDING
       cc_player gen NUMBER > SCRIPT
       cc_player demo NUMBER

  step N       reads a script (JSON) from standard input, plays it with N raster workers (1 to 16)
               and writes its recording to standard output: every event, and after each draw the
               picture as a raw portable pixmap (P6); the recording is the same for every N
  play N       plays it by threads, N raster workers (1 to 16) among them, so that the recording is
               one of many, each legal; if threads cannot be started it does as step N
  film N       reads a script, plays it as step N does and writes its pictures alone, one after
               another, each a raw portable pixmap (P6): as step N | frames, for runs of any length
  shot N       reads a script, plays it as step N does and writes the picture of its last draw as a PNG
               file; a script without inputs is played to the picture of its last main frame
  serve N      reads scripts, one a line, and answers each before it reads more: its recording in
               pieces, each after a line data B with the number of its bytes, then a line ok K for
               line K, counted from 0; or no K S: with the status S, and why
  frames       reads a recording from standard input and writes its pictures to standard output,
               one after another, each a raw portable pixmap (P6)
  check        reads a recording from standard input and judges it without the core: whether its
               history is legal, and each picture the painting; it writes nothing
  gen NUMBER   writes the script of a number (0 to 18446744073709551615)
  demo NUMBER  plays the script of a number and writes one line: how many events, pictures, missing
               tiles and bytes its recording has, and the sum of the bytes
  --help       prints this text
  --version    prints the version, and the kit with which the program is proved and built

status:
   0  done
   2  the words fit no use
   3  the input is no JSON
   4  the input is no script: list, index and field of the first fault are told
   5  a command is refused: the first one, and why, are told
   6  standard input could not be read
   7  standard output could not be written
   8  the script is longer than 16777216 bytes, or the recording longer than 268435456
   9  the input is no recording: the place of its first bad part is told, as an offset in bytes
  10  the recording is wrong: the first event that may not come, or whose picture differs, is told
  11  out of memory
  12  no draw of the script gave a picture

example: cc_player step 1 < examples/first.json > first.rec
         cc_player frames < first.rec > first.ppm
         cc_player film 4 < examples/page.json > page.ppm
         cc_player shot 4 < examples/page.json > page.png
         cc_player serve 4 < scripts.jsonl
         cc_player gen 7 | cc_player step 4 > seven.rec
";

// What `--version` prints: the version, and the kit with which the program is proved and built.
const VERSION: &str = "cc_player 0.1.0 (rattle-kit-13f)\n";

// How long a word may be in bytes. All words that the program knows are shorter.
const LONGEST: usize = 256;

// A word as text; the empty text if it is none.
fn word_of(alloc: Global, bytes: &[u8]) -> Result<String, AllocError> {
    match str::from_utf8(bytes) {
        Ok(text) => text.to_string(alloc),
        Err(_) => Ok(String::new(alloc)),
    }
}

// The words after the program's name. One that is no text, or longer than any word that the program
// knows, is the empty text, which fits no use.
fn words_of<E: Env>(env: &E, alloc: Global) -> Result<Vec<String>, AllocError> {
    let mut words = Vec::new(alloc);
    let mut buffer = [0u8; LONGEST];
    for i in 1..usize::MAX {
        let word = match env.arg(i, &mut buffer) {
            Ok(length) => word_of(alloc, &buffer[..length])?,
            Err(FillError::TooLong) => String::new(alloc),
            Err(FillError::NotPresent) => break,
        };
        words.push(word)?;
    }
    Ok(words)
}

// The text that the only word asks for, if it asks for one.
fn told(words: &[String]) -> Option<&'static str> {
    match words {
        [word] if word.as_str() == "--help" => Some(HELP),
        [word] if word.as_str() == "--version" => Some(VERSION),
        _ => None,
    }
}

fn main(rt: HostRuntime) -> ExitCode {
    let mut out = StdSink::new(rt.stdout());
    let mut notes = StdSink::new(rt.stderr());
    let Ok(words) = words_of(&rt, rt.alloc()) else {
        let _ = notes.put(b"cc: out of memory\n");
        return ExitCode::from(11);
    };
    if let Some(text) = told(words.as_slice()) {
        return match out.put(text.as_bytes()) {
            Ok(()) => ExitCode::from(0),
            Err(_) => ExitCode::from(7),
        };
    }
    let ends = Ends::new(StdSource::new(rt.stdin()), StdSink::new(rt.stdout()));
    let mut streams = Streams {
        source: StdSource::new(rt.stdin()),
        out,
        notes,
        session: Session::new(ends),
    };
    let words = words.as_slice();
    let outcome = match run_std(&rt, rt.alloc(), words, &mut streams) {
        Some(outcome) => outcome,
        None => run_played(&rt, rt.alloc(), words, &mut streams, &OpenGate),
    };
    ExitCode::from(outcome.status())
}
