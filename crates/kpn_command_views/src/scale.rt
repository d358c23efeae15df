//! Which ticks a picture shows, and where they stand.
ghost use Rattle.std.specs.Prelude.{◌≡◌, ◌+◌, ◌-◌, ◌*◌, ◌≤◌, ◌<◌, ◌^◌, min, length};
ghost use Rattle.kpn_command_views.specs.PictureText.{tick_width, tick_step, longest_below, scale_for, ticks_in, edge_of, right_of};
ghost use Rattle.kpn_command_views.specs.Drawable.{IsDrawable};

use kpn_text::Document;

/// Which ticks a picture shows, and where they stand in it, in pixels.
#[derive(Clone, Copy)]
pub(crate) struct Scale {
    /// The tick before the first one.
    pub front: usize,
    /// The last tick.
    pub back: usize,
    /// The last tick that there is room for: the one after the last of the run, if that is shown.
    pub edge: usize,
    /// Where the first tick begins.
    pub left: usize,
    /// How wide a tick is.
    pub wide: usize,
}

impl Scale {
    /// How ticks `first` to `last` of a run of this length are shown.
    pub(crate) fn new(
        document: &Document,
        processes: usize,
        first: usize,
        last: usize,
        length: usize,
    ) -> Scale
        requires { length + 1 < 2 ^ 64 }
        ensures { result ≡ scale_for document.now.names.instances processes first last length }
    {
        let front = first.saturating_sub(1);
        let back = last.min(length);
        Scale {
            front,
            back,
            edge: last.min(length + 1),
            left: 24 + 7 * longest_name(document, processes).min(32),
            wide: tick_width(back.saturating_sub(front)),
        }
    }

    /// How many ticks are shown.
    pub(crate) fn ticks(self) -> usize
        ensures { result ≡ ticks_in self }
    {
        self.back.saturating_sub(self.front)
    }

    /// Where a tick ends. What is not shown stands at the edge.
    pub(crate) fn place_of(self, tick: usize) -> usize
        requires { IsDrawable self }
        ensures exact { result ≡ edge_of self tick }
        ensures below { result < 100000 }
    {
        self.left + self.wide * tick.min(self.edge).saturating_sub(self.front)
    }

    /// Where all that is shown ends.
    pub(crate) fn right(self) -> usize
        requires { IsDrawable self }
        ensures exact { result ≡ right_of self }
        ensures below { result < 100000 }
    {
        self.place_of(self.edge)
    }

    /// How many ticks there are from one number of the axis to the next.
    pub(crate) fn step(self) -> usize
        ensures exact { result ≡ tick_step (ticks_in self) }
        ensures some { 0 < result }
    {
        tick_step(self.ticks())
    }
}

// The length of the longest name of a process.
fn longest_name(document: &Document, processes: usize) -> usize
    ensures { result ≡ longest_below document.now.names.instances processes }
{
    let mut longest = 0;
    for p in 0..processes {
        longest = longest.max(document.instance_name(p).len());
    }
    longest
}

fn tick_width(ticks: usize) -> usize
    ensures { result ≡ tick_width ticks }
{
    if ticks <= 24 {
        44
    } else if ticks <= 50 {
        20
    } else if ticks <= 100 {
        10
    } else if ticks <= 300 {
        5
    } else {
        2
    }
}

fn tick_step(ticks: usize) -> usize
    ensures exact { result ≡ tick_step ticks }
    ensures some { 0 < result }
{
    if ticks <= 24 {
        1
    } else if ticks <= 50 {
        5
    } else if ticks <= 100 {
        10
    } else if ticks <= 300 {
        20
    } else {
        50
    }
}
