//! What the program is asked to do.

ghost use Rattle.std.specs.Prelude.{◌≤◌, IfSome};
ghost use Rattle.test_draw.specs.Jobs.{IsSmallJob};

/// The most pixels of a row.
pub(crate) const MOST_PIXELS: usize = 65536;

/// The most items of a list.
pub(crate) const MOST_ITEMS: usize = 256;

/// What the items of a list are.
#[derive(Clone, Copy)]
pub(crate) enum ItemKind {
    /// Opaque rects.
    Opaque,
    /// Translucent rects.
    Translucent,
    /// Translucent bitmaps.
    Bitmap,
}

/// One job, done the given number of times.
#[derive(Clone, Copy)]
pub(crate) enum BenchJob {
    /// A row of the given number of pixels is laid over another.
    Over {
        pixels: usize,
        times: u32,
    },
    /// A row of the given number of pixels is faded.
    Scale {
        pixels: usize,
        times: u32,
    },
    /// A row of the given number of pixels gets one colour.
    Fill {
        pixels: usize,
        times: u32,
    },
    /// A list of the given number of items is rasterised.
    Raster {
        kind: ItemKind,
        items: usize,
        times: u32,
    },
    /// A scene of layers of the given number of items is drawn.
    Scene {
        in_groups: bool,
        items: usize,
        layers: u32,
        times: u32,
    },
}

/// A number up to a limit.
fn number(word: &str, most: usize) -> Option<usize>
    ensures { IfSome result (λ n. n ≤ most) }
{
    let n = word.parse::<usize>().ok()?;
    if n <= most { Some(n) } else { None }
}

/// How often a job is done.
fn times(word: &str) -> Option<u32> {
    word.parse::<u32>().ok()
}

fn kind_of(word: &str) -> Option<ItemKind> {
    match word {
        "opaque" => Some(ItemKind::Opaque),
        "translucent" => Some(ItemKind::Translucent),
        "bitmap" => Some(ItemKind::Bitmap),
        _ => None,
    }
}

impl BenchJob {
    /// The job that the words name, if they name one.
    pub(crate) fn of_words(words: &[String]) -> Option<BenchJob>
        ensures { IfSome result IsSmallJob }
    {
        match words {
            [name, pixels, count] => {
                BenchJob::of_row(name.as_str(), pixels.as_str(), count.as_str())
            }
            [name, first, second, count] => BenchJob::of_four(
                name.as_str(),
                first.as_str(),
                second.as_str(),
                count.as_str(),
            ),
            _ => None,
        }
    }

    /// The job of this name, of two words and how often it is done.
    fn of_four(name: &str, first: &str, second: &str, count: &str) -> Option<BenchJob>
        ensures { IfSome result IsSmallJob }
    {
        match name {
            "raster" => BenchJob::of_tile(first, second, count),
            "scene" => BenchJob::of_scene(false, first, second, count),
            "groups" => BenchJob::of_scene(true, first, second, count),
            _ => None,
        }
    }

    /// The job on a scene of this many layers, each of this many items.
    fn of_scene(in_groups: bool, items: &str, layers: &str, count: &str) -> Option<BenchJob>
        ensures { IfSome result IsSmallJob }
    {
        let items = number(items, MOST_ITEMS)?;
        let layers = times(layers)?;
        let times = times(count)?;
        Some(BenchJob::Scene {
            in_groups,
            items,
            layers,
            times,
        })
    }

    /// The job on a tile under items of this kind.
    pub(crate) fn of_tile(kind: &str, items: &str, count: &str) -> Option<BenchJob>
        ensures { IfSome result IsSmallJob }
    {
        Some(BenchJob::Raster {
            kind: kind_of(kind)?,
            items: number(items, MOST_ITEMS)?,
            times: times(count)?,
        })
    }

    /// The job on a row of this name.
    fn of_row(name: &str, pixels: &str, count: &str) -> Option<BenchJob>
        ensures { IfSome result IsSmallJob }
    {
        let pixels = number(pixels, MOST_PIXELS)?;
        let times = times(count)?;
        match name {
            "over" => Some(BenchJob::Over { pixels, times }),
            "scale" => Some(BenchJob::Scale { pixels, times }),
            "fill" => Some(BenchJob::Fill { pixels, times }),
            _ => None,
        }
    }
}
