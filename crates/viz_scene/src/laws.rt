//! Laws of scenes.

ghost use Rattle.viz_scene.specs.Laws.{RootIsTheLastPass, HiddenQuadsDoNotShow};

/// The pixels of a scene are its last pass over its background, if groups have the colours of the passes
/// before it.
pub fn root_is_the_last_pass()
    ensures { RootIsTheLastPass }
{}

/// A quad that later quads of its pass hide makes no difference.
pub fn hidden_quads_do_not_show()
    ensures { HiddenQuadsDoNotShow }
{}
