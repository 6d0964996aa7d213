//! Drives the trees of the compositor side by the main frames of scripts, and compares the keys of the pending
//! and the active tree with a table.
//!
//! | Line | What it says |
//! |---|---|
//! | `script: JSON` | the script of the lines below it, whose main frames get no pulls; there are no trees yet |
//! | `abort` | the next main frame changes nothing |
//! | `push` | the next main frame is committed, and its tree becomes the pending one |
//! | `activate` | the pending tree becomes the active one |
//! | `back` | the pending tree is taken back |
//! | `again` | the tree that was taken back last becomes the pending one again |
//! | `pending: KEYS`, `active: KEYS` | the keys of all places of this tree, in key order |
//! | `pending sum: COUNT SUM`, `active sum: COUNT SUM` | how many keys this tree has, and their sum |
//!
//! A key is `LAYER/COLUMN/ROW/STAMP`, and keys have blanks between. `-` stands for no keys, and `none` for no
//! such tree. The sum begins with 0; each number of a key, in the order in which it is written, is added to 31
//! times the sum so far, without what passes 64 bits.

mod frames;
mod keys;
mod next_tree;
mod pushing;
mod table;

pub use table::Pushes;
