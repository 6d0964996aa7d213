//! The lines of the table, and what they ask.

use crate::asks;
use crate::pages::scene_of_script;
use crate::parts::{image_of, scene_of_text};
use std::alloc::{AllocError, Global};
use std::sync::Arc;
use test_table::{Answer, LineFault, Subject, wholes};
use tile_raster::TileImage;
use viz_painter::{Painter, Redrawer};
use viz_scene::Scene;

/// What a line says of a scene.
#[derive(Drop)]
enum SceneLine {
    /// Its background and its parts.
    Parts(String),
    /// Which tile it lacks as the scene of the page of the script that stands above.
    Page(String),
}

/// What is asked about: the scenes that stand above.
pub struct Scenes {
    alloc: Global,
    /// The images of the table.
    images: Vec<Arc<TileImage>>,
    /// The text of the script that stands above.
    script: String,
    /// The scene before the new one.
    old: Option<SceneLine>,
    /// The scene that stands right above.
    new: Option<SceneLine>,
}

// Written out, since a derived drop is proved anew, field by field, in each function that lets one go.
impl Drop for Scenes {
    fn drop(self) {
        let Scenes {
            alloc: _,
            images: _,
            script: _,
            old: _,
            new: _,
        } = self;
    }
}

impl Scenes {
    /// No scene was read.
    pub fn new(alloc: Global) -> Scenes {
        Scenes {
            alloc,
            images: Vec::new(alloc),
            script: String::new(alloc),
            old: None,
            new: None,
        }
    }

    /// The scene of a line.
    fn scene_of_line(&self, line: &Option<SceneLine>) -> Result<Scene, LineFault> {
        match line {
            Some(SceneLine::Parts(text)) => {
                scene_of_text(self.alloc, self.images.as_slice(), text.as_str())
            }
            Some(SceneLine::Page(missing)) => {
                scene_of_script(self.alloc, self.script.as_str(), missing.as_str())
            }
            None => Err(LineFault::NoScene),
        }
    }

    /// Shows both scenes and the old one again.
    fn show_both(&self, answer: &mut Answer) -> Result<(), LineFault> {
        let mut painter = Painter::new(self.alloc, 1, 1)?;
        let old = self.scene_of_line(&self.old)?;
        asks::show(&mut painter, old, answer)?;
        answer.say("then", &[]);
        let new = self.scene_of_line(&self.new)?;
        asks::show(&mut painter, new, answer)?;
        answer.say("then", &[]);
        let again = self.scene_of_line(&self.old)?;
        asks::show(&mut painter, again, answer)
    }

    /// Shows both scenes and the old one again in a buffer, whose rows have a gap of one pixel of sevens.
    fn show_in_buffer(&self, answer: &mut Answer) -> Result<(), LineFault> {
        let old = self.scene_of_line(&self.old)?;
        let (w, h) = (old.w(), old.h());
        let mut bytes = vec![in self.alloc; 7u8; 4 * ((w as usize + 1) * h as usize)]?;
        let buffer = bytes.as_mut_slice();
        let mut redrawer = Redrawer::new(self.alloc);
        asks::redraw(&mut redrawer, old, w, h, buffer, answer)?;
        answer.say("then", &[]);
        let new = self.scene_of_line(&self.new)?;
        asks::redraw(&mut redrawer, new, w, h, buffer, answer)?;
        answer.say("then", &[]);
        let again = self.scene_of_line(&self.old)?;
        asks::redraw(&mut redrawer, again, w, h, buffer, answer)
    }

    /// Answers a question about the change from the old scene to the new one.
    fn ask_change(&self, kind: &str, answer: &mut Answer) -> Result<(), LineFault> {
        let old = self.scene_of_line(&self.old)?;
        let new = self.scene_of_line(&self.new)?;
        match kind {
            "damage" => asks::damage(self.alloc, &old, &new, answer),
            "painted" => asks::painted(self.alloc, &old, &new, answer),
            _ => asks::redrawn(self.alloc, &old, &new, answer),
        }
    }

    /// Says the colour of the image of a number.
    fn ask_colour(&self, question: &str, answer: &mut Answer) -> Result<(), LineFault> {
        let [place] = wholes::<1>(question, ' ')?;
        let Some(image) = self.images.get(place as usize) else {
            return Err(LineFault::NoNumber);
        };
        asks::colour(image, answer);
        Ok(())
    }

    /// Takes a scene, which is the new one.
    fn take_scene(&mut self, line: SceneLine) {
        self.old = self.new.replace(line);
    }

    /// Takes an image.
    fn take_image(&mut self, text: &str) -> Result<(), LineFault> {
        let image = image_of(self.alloc, text)?;
        self.images.push(image)?;
        Ok(())
    }
}

impl Subject for Scenes {
    fn take(&mut self, key: &str, value: &str) -> Result<bool, LineFault> {
        match key {
            "image" => self.take_image(value)?,
            "scene" => self.take_scene(SceneLine::Parts(value.to_string(self.alloc)?)),
            "page" => self.take_scene(SceneLine::Page(value.to_string(self.alloc)?)),
            "script" => self.script = value.to_string(self.alloc)?,
            _ => return Ok(false),
        }
        Ok(true)
    }

    fn ask(&self, kind: &str, question: &str, answer: &mut Answer) -> Result<(), LineFault> {
        match kind {
            "damage" | "painted" | "redrawn" => self.ask_change(kind, answer),
            "shown" => self.show_both(answer),
            "buffer" => self.show_in_buffer(answer),
            "colour" => self.ask_colour(question, answer),
            "culled" => {
                let new = self.scene_of_line(&self.new)?;
                asks::culled(self.alloc, &new, answer)
            }
            _ => Err(LineFault::NoForm),
        }
    }
}
