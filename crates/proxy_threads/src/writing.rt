//! Writing what was played, outside of any turn.

ghost use Rattle.std.specs.Prelude.{◌≡◌, ◌≤◌, ◌++◌, []};
ghost use Rattle.std.specs.Io.KnownBytes.{Appends};
ghost use Rattle.thread_pieces.specs.Scenes.{scene_image};
ghost use Rattle.proxy_threads.specs.declared.turned.Turned.TheVariants.{Blocked};
ghost use Rattle.proxy_threads.specs.Writing.{WritesBytes};
ghost use Rattle.proxy_threads.specs.inner.Steps.{Answers, answer_at, image_in, text_for, GoesOrGivesUp};

use crate::playing::Played;
use crate::turned::Turned;
use byte_io::PutFault;
use thread_pieces::SceneSink;
use viz_scene::Scene;

// The answer if a piece was not put.
fn refused(fault: PutFault) -> Turned
    ensures { result ≡ answer_at fault }
{
    match fault {
        PutFault::Failed => Turned::WriteFault,
        PutFault::Memory(_) => Turned::Memory,
    }
}

// Puts the image of a scene.
fn put_image<K: SceneSink>(out: &mut K, scene: Scene) -> Turned
    ensures put { WritesBytes K.Sink out.old out.new (scene_image scene) result }
    ensures answer { GoesOrGivesUp result }
{
    match out.put_scene(scene) {
        Ok(()) => Turned::Went,
        Err(PutFault::Failed) => Turned::WriteFault,
        Err(PutFault::Memory(_)) => Turned::Memory,
    }
}

// Passes on what the sink gathered, as the compositor has nothing to do.
#[tactic(auto, using(crate::proofs::Gained::appends_none))]
fn put_nothing<K: SceneSink>(out: &mut K)
    ensures bytes { Appends (K.held out.old) (K.held out.new) [] }
    ensures grows { K.faults out.old ≤ K.faults out.new }
    ensures place { K.place out.new ≡ K.place out.old }
{
    out.pass_on();
}

// The answer if the compositor has nothing to do.
fn wait<K: SceneSink>(out: &mut K) -> Turned
    ensures bytes { Appends (K.held out.old) (K.held out.new) [] }
    ensures answer { result ≡ Blocked }
    ensures grows { K.faults out.old ≤ K.faults out.new }
    ensures place { K.place out.new ≡ K.place out.old }
{
    put_nothing(out);
    Turned::Blocked
}

// Puts the image of what was drawn, if anything was, and answers for what was played.
fn show<K: SceneSink>(out: &mut K, played: Played) -> Turned
    ensures put { WritesBytes K.Sink out.old out.new (image_in played) result }
    ensures answer { Answers played result }
{
    match played {
        Played::Ended => Turned::Ended,
        Played::Blocked => wait(out),
        Played::Plain => Turned::Went,
        Played::Shown(scene) => put_image(out, scene),
        Played::Memory => Turned::Memory,
    }
}

// Puts the lines, and then the image of what was drawn, if anything was, and answers for what was played.
fn put_played<K: SceneSink>(out: &mut K, lines: &[u8], played: Played) -> Turned
    ensures put { WritesBytes K.Sink out.old out.new (lines.now ++ image_in played) result }
    ensures answer { Answers played result }
{
    match out.put(lines) {
        Ok(()) => show(out, played),
        Err(fault) => refused(fault),
    }
}

/// Puts the lines, and then the image of what was drawn, if anything was, and answers for what was played.
/// If memory was refused before, nothing is put.
pub(crate) fn write<K: SceneSink>(out: &mut K, lines: &[u8], played: Played) -> Turned
    ensures put { WritesBytes K.Sink out.old out.new (text_for played lines.now) result }
    ensures answer { Answers played result }
{
    if let Played::Memory = played {
        Turned::Memory
    } else {
        put_played(out, lines, played)
    }
}
