//! Fading a pass.

ghost use Rattle.std.specs.Prelude.{◌≡◌, ℕ, ◌+◌, ◌*◌, ◌%◌, ◌<◌, ◌≤◌, length};
ghost use Rattle.pixel.specs.Colours;
ghost use Rattle.pixel.specs.Colours.{blend};
ghost use Rattle.pixel.specs.Rows.{pixel, ArePremultiplied};
ghost use Rattle.pixel.specs.Surfaces.{IsPart};

use crate::colour_at;
use crate::four::{four_at, lay_four, lay_one};
use crate::sixteen::are_sixteen_clear;
use crate::vectors::scaled;

/// Lays the pixels of a pass, faded to an opacity, over those of a surface: as many as the surface has.
pub fn faded_over(surface: &mut [u8], pass: &[u8], opacity: u8)
    requires whole { length surface.old % 4 ≡ 0 }
    requires same { length surface.old ≤ length pass.now }
    requires premultiplied { ArePremultiplied pass.now }
    ensures pixels { (k : ℕ) → 4 * k + 4 ≤ length surface.old → pixel surface.new k ≡ blend (pixel surface.old k) (Colours.scaled (pixel pass.now k) opacity) }
    ensures premultiplied { ArePremultiplied surface.old → ArePremultiplied surface.new }
{
    let count = surface.len() / 4;
    let mut done = 0;
    'sixteens: while done + 16 <= count {
        faded_over_sixteen(surface, done, pass, opacity);
        done += 16;
    }
    'fours: while done + 4 <= count {
        faded_over_four(surface, done, pass, opacity);
        done += 4;
    }
    'ones: while done < count {
        lay_one(surface, done, colour_at(pass, done).scale(opacity));
        done += 1;
    }
}

// Lays sixteen pixels of a pass, from pixel `k` on, faded over those of a surface; clear ones are left out.
#[inline(always)]
fn faded_over_sixteen(surface: &mut [u8], k: usize, pass: &[u8], opacity: u8)
    requires inside { 4 * (k + 16) ≤ length surface.old }
    requires given { 4 * (k + 16) ≤ length pass.now }
    requires premultiplied { ArePremultiplied pass.now }
    ensures { IsPart k 16 (λ j below. blend below (Colours.scaled (pixel pass.now (k + j)) opacity)) surface.old surface.new }
{
    if !are_sixteen_clear(pass, k) {
        faded_over_block(
            &mut surface[4 * k..4 * (k + 16)],
            &pass[4 * k..4 * (k + 16)],
            opacity,
        );
    }
}

// Lays sixteen pixels of a pass faded over sixteen others.
#[inline(always)]
fn faded_over_block(surface: &mut [u8], pass: &[u8], opacity: u8)
    requires there { length surface.old ≡ 64 }
    requires given { length pass.now ≡ 64 }
    requires premultiplied { ArePremultiplied pass.now }
    ensures pixels { (j : ℕ) → j < 16 → pixel surface.new j ≡ blend (pixel surface.old j) (Colours.scaled (pixel pass.now j) opacity) }
    ensures premultiplied { ArePremultiplied surface.old → ArePremultiplied surface.new }
{
    faded_over_four(surface, 0, pass, opacity);
    faded_over_four(surface, 4, pass, opacity);
    faded_over_four(surface, 8, pass, opacity);
    faded_over_four(surface, 12, pass, opacity);
}

// Lays four pixels of a pass, from pixel `k` on, faded over those of a surface.
#[inline(always)]
fn faded_over_four(surface: &mut [u8], k: usize, pass: &[u8], opacity: u8)
    requires inside { 4 * (k + 4) ≤ length surface.old }
    requires given { 4 * (k + 4) ≤ length pass.now }
    requires premultiplied { ArePremultiplied pass.now }
    ensures { IsPart k 4 (λ j below. blend below (Colours.scaled (pixel pass.now (k + j)) opacity)) surface.old surface.new }
{
    lay_four(surface, k, scaled(four_at(pass, k), opacity));
}
