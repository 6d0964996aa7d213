//! The scroll values of one scroller.

ghost use Rattle.std.specs.Prelude.{◌≡◌, []};
ghost use Rattle.impl_scroll.specs.Rows.{row_at};

use model_states::Synced;

/// The scroll values of one scroller.
#[derive(Clone, Copy, PartialEq, Eq, Debug)]
pub struct Row {
    /// The scroller's number.
    pub scroller: u32,
    /// Its values along the x axis.
    pub x: Synced,
    /// Its values along the y axis.
    pub y: Synced,
}

impl Row {
    // The row of a scroller that has not moved.
    pub(crate) fn zero(scroller: u32) -> Row
        ensures { result ≡ row_at [] scroller }
    {
        Row {
            scroller,
            x: Synced::ZERO,
            y: Synced::ZERO,
        }
    }
}

/// The row of a scroller; one of zeros if there is none.
pub(crate) fn row_of(rows: &[Row], scroller: u32) -> Row
    ensures { result ≡ row_at rows.now scroller }
{
    for row in rows {
        if row.scroller == scroller {
            return *row;
        }
    }
    Row::zero(scroller)
}
