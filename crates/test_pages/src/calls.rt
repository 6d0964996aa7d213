//! Makes calls that no script reaches through the program, each with ample memory, and compares what they
//! answer with a table.
//!
//! A line is `script: JSON`, a script for the lines below it; `page: COMMANDS`, for the lines below it a script
//! whose one main frame has these commands, in JSON with commas between; or `KIND: QUESTION => ANSWER`. A
//! page is the script's after all its main frames.
//!
//! | Kind | Question | Answer |
//! |---|---|---|
//! | `frames` | the pulls of scroller 1 in each main frame | how each frame ends |
//! | `reads` | | the fault of the script's text |
//! | `prints` | | whether the canonical text of the script is the text itself |
//! | `view` | | the view of the page |
//! | `changes` | commands | what they change on the page |
//! | `pulls` | pulls of scroller 1 | how far each moves it, and where scrollers 1 and 2 stand then |
//! | `copy` | commands | what they change, the layers of a copy of the page that was made before, and of the page |
//! | `scrollers` | | the scrollers of a copy of the page, by their ids |
//! | `missing` | keys \| points | the colours of these points of the page with these tiles missing, over black |
//! | `moves` | moves | how many a copy of their list has, and the first |
//! | `entries` | actors | how many entries a history has with one of each actor, and the last one's actor |
//!
//! The parts of a question and of an answer have `; ` between, the numbers of a part blanks.

mod answers;
mod changes;
mod frames;
mod lists;
mod missing;
mod moves;
mod pages;
mod texts;

pub use answers::Calls;
