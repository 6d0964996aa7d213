//! Asks of pairs of scenes what is hidden, where they differ and what is drawn, and compares the answers with a table.
//!
//! | Line | What it says |
//! |---|---|
//! | `image: LAYER COLUMN ROW STAMP W H; ITEM; ..` | an image of this key, W by H pixels large, of the items `X Y W H COLOUR`; images are numbered from 0 |
//! | `scene: W H COLOUR; PART; ..` | a scene over a background, the new one; the new one before becomes the old one |
//! | `script: JSON` | the script whose page, after all its main frames, the scenes of pages below are of |
//! | `page: TILE` | the scene of that page as the new one, if the tile of this number, in key order, is missing; `none` for no tile |
//! | `KIND: QUESTION => ANSWER` | a question about both scenes |
//!
//! A part is `tile IMAGE X Y W H FROM_X FROM_Y`, `solid X Y W H COLOUR`, `group PASS OPACITY`, `nothing`, or
//! `end` between two passes. A colour is `R G B A`, premultiplied.
//!
//! | Kind | Question | Answer |
//! |---|---|---|
//! | `damage` | | the rects of the damage from the old scene to the new one, how many points it covers, and in how many points the pictures differ |
//! | `painted` | | the same of both scenes without their hidden quads |
//! | `redrawn` | | the colours of the old picture in which the damage was drawn again |
//! | `shown` | | the colours of both pictures as one painter shows them, and of the old one when it is shown once more |
//! | `buffer` | | the same as one redrawer shows them in a buffer of rows with a gap of one pixel, which is told too |
//! | `culled` | | the parts of the new scene without its hidden quads |
//! | `colour` | the number of an image | its colour, if it has only one |
//!
//! The colours of a picture are told row by row, each with how many pixels in a row have it.
#![tactic(auto)]

mod answers;
mod asks;
mod pages;
mod parts;
mod pictures;
mod words;

pub use answers::Scenes;
