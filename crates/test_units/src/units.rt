//! The lines of the table: `NAME: => right COUNT`, where NAME is a case of this crate, or several of one kind.

use crate::{images, lists, pixels, ranks, rects, regions, scroll_values, states, stores, tilings};
use std::alloc::Global;
use test_table::{Answer, Checks, LineFault, Subject};

/// What is asked about: nothing that stands above.
#[derive(Drop)]
pub struct Units {
    alloc: Global,
}

/// Tries the cases of a name that need no memory: about rects, ranks, and the model's values and states.
fn try_plain(name: &str, checks: &mut Checks) -> Result<(), LineFault> {
    match name {
        "rects" => rects::rects(checks),
        "bins" => ranks::bins_by_distance(checks),
        "clipped away" => ranks::clipped_away_is_soon(checks),
        "abort" => scroll_values::abort_and_activation(checks),
        "clobber" => scroll_values::clobber_moves_to_the_base(checks),
        "one send" => states::one_send_in_an_impl_frame(checks),
        _ => return Err(LineFault::NoForm),
    }
    Ok(())
}

/// Tries the cases of a name about regions, tiles and their images, or that need no memory.
fn try_tiles(alloc: Global, name: &str, checks: &mut Checks) -> Result<(), LineFault> {
    match name {
        "union" => regions::union_covers_both(alloc, checks),
        "joined changes" => regions::joined_changes(alloc, checks),
        "stamps" => tilings::stamps_after_a_change(alloc, checks),
        "copied stamps" => tilings::stamps_of_a_copy(alloc, checks),
        "half a tile" => images::rect_over_half_of_a_tile(alloc, checks),
        "one colour" => images::tile_of_one_colour(alloc, checks),
        "one tile" => stores::one_tile_is_started_and_done(alloc, checks),
        "store steps" => stores::steps_agree_with_a_plain_list(alloc, checks),
        _ => try_plain(name, checks),
    }
}

/// Tries the cases of a name.
fn try_cases(alloc: Global, name: &str, checks: &mut Checks) -> Result<(), LineFault> {
    match name {
        "places" => rects::places(alloc, checks),
        "keys" => rects::keys(alloc, checks),
        "half red" => pixels::half_red_over_white(alloc, checks),
        "kernels" => pixels::kernels_as_plain_loops(alloc, checks),
        "bitmaps" => lists::bad_bitmaps(alloc, checks),
        "red pixel" => lists::one_red_pixel(alloc, checks),
        "bitmap over rect" => lists::bitmap_over_a_rect(alloc, checks),
        _ => try_tiles(alloc, name, checks),
    }
}

impl Units {
    /// Nothing was tried.
    pub fn new(alloc: Global) -> Units {
        Units { alloc }
    }
}

impl Subject for Units {
    fn ask(&self, kind: &str, _question: &str, answer: &mut Answer) -> Result<(), LineFault> {
        let mut checks = Checks::new(self.alloc);
        try_cases(self.alloc, kind, &mut checks)?;
        checks.say(answer)
    }
}
