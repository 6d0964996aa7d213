//! Where the scrollers stand.

ghost use Rattle.std.specs.Prelude.{◌≡◌, ℕ, List, [], IfOk};
ghost use Rattle.page_properties.specs.OffsetMap.{offset_at, AreOffsets};
ghost use Rattle.model_history.specs.declared.history.Entry.{Entry as EntryModel};
ghost use Rattle.model_history.specs.Scripts.{ScriptModel};
ghost use Rattle.model_history.specs.Legal.{Legal};
ghost use Rattle.impl_scroll.specs.Rows.{row_at};
ghost use Rattle.impl_scroll.specs.Standings.{StandsForPast, ArePages};
ghost use Rattle.impl_scroll.specs.inner.Places.{AreValues, RowsNow};

use crate::page_offsets::{active_offsets, none, pending_offsets};
use crate::pages::Pages;
use crate::{Row, ScrollValues};
use page_properties::Offsets;
use std::alloc::{AllocError, Global};
use std::marker::Model;

/// Where the scrollers stand: their scroll values, and their offsets in the active and in the pending page.
///
/// Contracts say for which runs it stands, by the script and the past: `StandsForPast`. A number that names no
/// scroller of a page has the offset (0, 0) there.
pub struct Standing {
    pub(crate) rows: ScrollValues,
    pub(crate) active: Offsets,
    pub(crate) pending: Offsets,
}

impl Model for Standing {
    ghost use Rattle.page_properties.specs.OffsetMap.{offset_at, AreOffsets};
    ghost use Rattle.impl_scroll.specs.Standings.{StandingModel};

    ghost Value = { StandingModel };

    ghost view = { λ s. record { rows = s.rows; active = s.active; pending = s.pending } };

    ghost invariant = { λ s. AreOffsets (offset_at s.active) × AreOffsets (offset_at s.pending) };
}

// Written out, since a derived drop is proved anew, field by field, in each function that lets one go.
impl Drop for Standing {
    fn drop(self) {
        let Standing {
            rows: _,
            active: _,
            pending: _,
        } = self;
    }
}

// Values with the offsets that follow from them in these pages. An error means out of memory.
pub(crate) fn standing_in(
    alloc: Global,
    rows: ScrollValues,
    pages: Pages<'_>,
) -> Result<Standing, AllocError>
    requires { RowsNow rows pages }
    ensures { IfOk result (λ standing. (s : ScriptModel) (workers : ℕ) (h : List EntryModel) → Legal s workers h → AreValues s h rows → ArePages s h pages.entry → StandsForPast s h standing) }
{
    let active = active_offsets(alloc, &rows, pages.active)?;
    let pending = pending_offsets(alloc, &rows, pages.pending, pages.outright)?;
    Ok(Standing {
        rows,
        active,
        pending,
    })
}

impl Standing {
    /// No scroller has moved, and there is no page.
    pub fn new(alloc: Global) -> Standing
        ensures { (s : ScriptModel) → StandsForPast s [] result }
    {
        Standing {
            rows: ScrollValues::new(alloc),
            active: none(alloc),
            pending: none(alloc),
        }
    }

    /// The values of a scroller along both axes.
    pub fn row(&self, scroller: u32) -> Row
        ensures { result ≡ row_at self.now.rows scroller }
    {
        self.rows.row(scroller)
    }

    /// The offsets of the active page; each is (0, 0) before the first activation.
    pub fn active(&self) -> &Offsets
        ensures value { result.now ≡ self.now.active }
        ensures in_range { AreOffsets (offset_at result.now) }
    {
        &self.active
    }

    /// The offsets of the pending page; each is (0, 0) if no commit is pending.
    pub fn pending(&self) -> &Offsets
        ensures value { result.now ≡ self.now.pending }
        ensures in_range { AreOffsets (offset_at result.now) }
    {
        &self.pending
    }
}
