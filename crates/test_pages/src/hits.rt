//! Asks the hit test about pages, and compares its answers with a table.
//!
//! | Line | What it says |
//! |---|---|
//! | `script: JSON` | the script whose page, after all its main frames, is asked about below; its scrollers stand at their main values |
//! | `target X Y => LAYER` | the layer that the point hits, 0 if it hits none |
//! | `chain LAYER => SCROLLER ..` | the scrollers that take a wheel over the layer, the nearest first; `-` if there is none |
//! | `wheel X Y DX DY => LAYER RX,RY SCROLLER:PX,PY ..` | what a wheel of DX, DY at the point does: the layer that it hits, what no scroller takes, and what each takes |

mod asks;
mod table;

pub use table::HitQuestions;
