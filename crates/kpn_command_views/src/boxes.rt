//! What a picture shows of an event.
ghost use Rattle.std.specs.Prelude.{◌≡◌, ◌+◌, ◌*◌, ◌<◌, ◌≤◌, ◌^◌, ◌-◌, ◌++◌, ℕ, codes};
ghost use Rattle.kpn_command_base.specs.Added.{Adds};
ghost use Rattle.kpn_net.specs.Tables.{Tables};
ghost use Rattle.kpn_ticks.specs.Shown.{shown, AreClocks};
ghost use Rattle.kpn_command_views.specs.PictureText.{row_place, row_of_process, bar_between, box_front, item_title, wait_title, picture_name_text, box_name, shown_box, item_box, wait_box, growth_mark_text, growth_mark, event_boxes, last_title, last_wait_box, last_box, shown_between, move_count, growth_count, box_count, last_count};
ghost use Rattle.kpn_command_views.specs.Drawable.{IsDrawable};

use crate::scale::Scale;
use kpn_command_base::Pushed;
use kpn_history::Event;
use kpn_net::{Network, Wait};
use kpn_text::Document;
use kpn_ticks::Clocks;

/// What is drawn of the next event.
pub(crate) fn push_event(
    text: &mut String,
    document: &Document,
    network: &Network,
    scale: Scale,
    clocks: &Clocks,
    event: Event,
) -> Pushed
    requires drawable { IsDrawable scale }
    requires clocks { AreClocks network.now (shown clocks.now) }
    requires fits { (shown clocks.now).last + 1 < 2 ^ 64 }
    ensures { Adds result text.old text.new
        (event_boxes document.now.names.channels network.now scale (shown clocks.now) event) }
{
    match event {
        Event::Get(p, c, item) => {
            let process = usize::from(p);
            let channel = usize::from(c);
            let row = ProcessRow::of(scale, clocks, process);
            let tick = clocks.get_tick(process, channel);
            let name = document.channel_name(channel);
            row.push_wait(text, "empty", "an item", name, tick)?;
            row.push_item(text, "get", name, item, tick)
        }
        Event::Put(p, c, item) => {
            let process = usize::from(p);
            let channel = usize::from(c);
            let row = ProcessRow::of(scale, clocks, process);
            let tick = clocks.put_tick(network, process, channel);
            let name = document.channel_name(channel);
            row.push_wait(text, "full", "room", name, tick)?;
            row.push_item(text, "put", name, item, tick)
        }
        Event::Grow(p, c, _) => {
            let row = ProcessRow::of(scale, clocks, p.into());
            row.push_growth(text, document.channel_name(c.into()))
        }
        _ => Ok(()),
    }
}

/// What is drawn of process `p`, which waits so at the end.
pub(crate) fn push_last(
    text: &mut String,
    document: &Document,
    scale: Scale,
    clocks: &Clocks,
    p: usize,
    wait: Wait,
) -> Pushed
    requires drawable { IsDrawable scale }
    requires clocks { (t : Tables) × AreClocks t (shown clocks.now) }
    requires fits { (shown clocks.now).last + 1 < 2 ^ 64 }
    requires row { p < 2 ^ 16 }
    ensures { Adds result text.old text.new
        (last_box document.now.names.channels scale (shown clocks.now) p wait) }
{
    let row = ProcessRow::of(scale, clocks, p);
    let last = clocks.last();
    match wait {
        Wait::Empty(c) => {
            row.push_last_wait(text, "empty", "an item", document.channel_name(c), last)
        }
        Wait::Full(c) => row.push_last_wait(text, "full", "room", document.channel_name(c), last),
        Wait::Nobody => Ok(()),
    }
}

/// How many boxes are drawn of process `p`, which waits so at the end.
pub(crate) fn last_count(scale: Scale, clocks: &Clocks, p: usize, wait: Wait) -> usize
    requires drawable { IsDrawable scale }
    requires fits { (shown clocks.now).last + 1 < 2 ^ 64 }
    ensures exact { result ≡ last_count scale (shown clocks.now) p wait }
    ensures few { result ≤ 1 }
{
    match wait {
        Wait::Nobody => 0,
        Wait::Empty(_) | Wait::Full(_) => {
            shown_between(scale, clocks.latest_of(p), clocks.last() + 1)
        }
    }
}

/// How many boxes and marks are drawn of the next event.
pub(crate) fn box_count(network: &Network, scale: Scale, clocks: &Clocks, event: Event) -> usize
    requires drawable { IsDrawable scale }
    requires clocks { AreClocks network.now (shown clocks.now) }
    requires fits { (shown clocks.now).last + 1 < 2 ^ 64 }
    ensures exact { result ≡ box_count network.now scale (shown clocks.now) event }
    ensures few { result ≤ 2 }
{
    match event {
        Event::Get(p, c, _) => {
            let tick = clocks.get_tick(p.into(), c.into());
            move_count(scale, clocks.latest_of(p.into()), tick)
        }
        Event::Put(p, c, _) => {
            let tick = clocks.put_tick(network, p.into(), c.into());
            move_count(scale, clocks.latest_of(p.into()), tick)
        }
        Event::Grow(p, _, _) => growth_count(scale, clocks.latest_of(p.into())),
        _ => 0,
    }
}

fn move_count(scale: Scale, latest: usize, tick: usize) -> usize
    requires { IsDrawable scale }
    ensures exact { result ≡ move_count scale latest tick }
    ensures few { result ≤ 2 }
{
    let before = tick.saturating_sub(1);
    shown_between(scale, latest, before) + shown_between(scale, before, tick)
}

// 1 if a growth at this tick is shown, else 0.
fn growth_count(scale: Scale, latest: usize) -> usize
    ensures exact { result ≡ growth_count scale latest }
    ensures few { result ≤ 1 }
{
    if scale.front <= latest && latest <= scale.back {
        1
    } else {
        0
    }
}

// 1 if something is shown between the ends of these ticks, else 0.
fn shown_between(scale: Scale, begin: usize, end: usize) -> usize
    requires { IsDrawable scale }
    ensures exact { result ≡ shown_between scale begin end }
    ensures few { result ≤ 1 }
{
    let wide = scale.place_of(end).saturating_sub(scale.place_of(begin));
    if wide == 0 { 0 } else { 1 }
}

/// The row of a process, and its latest tick.
#[derive(Clone, Copy)]
struct ProcessRow {
    scale: Scale,
    p: usize,
    latest: usize,
}

impl ProcessRow {
    fn of(scale: Scale, clocks: &Clocks, p: usize) -> ProcessRow
        ensures { result ≡ row_of_process scale (shown clocks.now) p }
    {
        let latest = clocks.latest_of(p);
        ProcessRow { scale, p, latest }
    }

    // From the end of tick `begin` to that of tick `end`.
    fn bar(self, begin: usize, end: usize) -> Bar
        requires drawable { IsDrawable self.scale }
        requires row { self.p < 2 ^ 16 }
        ensures exact { result ≡ bar_between self.scale self.p begin end }
        ensures fits { result.x + result.row + result.wide < 2 ^ 32 }
    {
        let x = self.scale.place_of(begin);
        let wide = self.scale.place_of(end).saturating_sub(x);
        let row = row_of(self.p);
        Bar { x, row, wide }
    }

    // A wait from after the latest tick to before this one, if something of it is shown.
    fn push_wait(self, text: &mut String, kind: &str, what: &str, name: &str, tick: usize) -> Pushed
        requires drawable { IsDrawable self.scale }
        requires row { self.p < 2 ^ 16 }
        requires fits { self.latest + 1 < 2 ^ 64 }
        ensures { Adds result text.old text.new
            (wait_box self.scale self.p self.latest tick kind.now what.now name.now) }
    {
        let end = tick.saturating_sub(1);
        let bar = self.bar(self.latest, end);
        bar.push_wait(text, kind, what, name, self.latest + 1, end)
    }

    // A wait from after the latest tick to the one after the last one, if something of it is shown.
    fn push_last_wait(
        self,
        text: &mut String,
        kind: &str,
        what: &str,
        name: &str,
        last: usize,
    ) -> Pushed
        requires drawable { IsDrawable self.scale }
        requires row { self.p < 2 ^ 16 }
        requires fits { self.latest + 1 < 2 ^ 64 }
        requires ends { last + 1 < 2 ^ 64 }
        ensures { Adds result text.old text.new
            (last_wait_box self.scale self.p self.latest last kind.now what.now name.now) }
    {
        let bar = self.bar(self.latest, last + 1);
        bar.push_last_wait(text, kind, what, name, self.latest + 1)
    }

    // A get or put, if it is shown.
    fn push_item(self, text: &mut String, word: &str, name: &str, item: i64, tick: usize) -> Pushed
        requires drawable { IsDrawable self.scale }
        requires row { self.p < 2 ^ 16 }
        ensures { Adds result text.old text.new
            (item_box self.scale self.p tick word.now name.now item) }
    {
        let bar = self.bar(tick.saturating_sub(1), tick);
        bar.push_item(text, word, name, item, tick)
    }

    // The growth of a channel, if its tick is shown.
    fn push_growth(self, text: &mut String, name: &str) -> Pushed
        requires drawable { IsDrawable self.scale }
        requires row { self.p < 2 ^ 16 }
        ensures { Adds result text.old text.new
            (growth_mark self.scale self.p self.latest name.now) }
    {
        if self.scale.front <= self.latest && self.latest <= self.scale.back {
            push_growth_text(
                text,
                self.scale.place_of(self.latest),
                row_of(self.p) + 1,
                name,
            )
        } else {
            Ok(())
        }
    }
}

/// Where a box begins, the row that it is in, and how wide it is. One without width is not shown.
#[derive(Clone, Copy)]
struct Bar {
    x: usize,
    row: usize,
    wide: usize,
}

impl Bar {
    // A wait in these ticks.
    fn push_wait(
        self,
        text: &mut String,
        kind: &str,
        what: &str,
        name: &str,
        first: usize,
        last: usize,
    ) -> Pushed
        requires { self.x + self.row + self.wide < 2 ^ 32 }
        ensures { Adds result text.old text.new
            (shown_box kind.now self (wait_title what.now name.now first last) name.now) }
    {
        if self.wide == 0 {
            return Ok(());
        }
        push_front(text, kind, self.x, self.row + 6, self.wide)?;
        push_wait_title(text, what, name, first, last)?;
        push_name(text, kind, self.x, self.row + 19, self.wide, name)?;
        Ok(())
    }

    // A wait from this tick on.
    fn push_last_wait(
        self,
        text: &mut String,
        kind: &str,
        what: &str,
        name: &str,
        first: usize,
    ) -> Pushed
        requires { self.x + self.row + self.wide < 2 ^ 32 }
        ensures { Adds result text.old text.new
            (shown_box kind.now self (last_title what.now name.now first) name.now) }
    {
        if self.wide == 0 {
            return Ok(());
        }
        push_front(text, kind, self.x, self.row + 6, self.wide)?;
        push_last_title(text, what, name, first)?;
        push_name(text, kind, self.x, self.row + 19, self.wide, name)?;
        Ok(())
    }

    // A get or put in this tick.
    fn push_item(self, text: &mut String, word: &str, name: &str, item: i64, tick: usize) -> Pushed
        requires { self.x + self.row + self.wide < 2 ^ 32 }
        ensures { Adds result text.old text.new
            (shown_box word.now self (item_title word.now name.now item tick) name.now) }
    {
        if self.wide == 0 {
            return Ok(());
        }
        push_front(text, word, self.x, self.row + 6, self.wide)?;
        push_item_title(text, word, name, item, tick)?;
        push_name(text, word, self.x, self.row + 19, self.wide, name)?;
        Ok(())
    }
}

// A box up to its title.
fn push_front(text: &mut String, kind: &str, x: usize, y: usize, wide: usize) -> Pushed
    ensures { Adds result text.old text.new (box_front kind.now x y wide) }
{
    write!(
        text,
        "<rect class=\"{kind}\" x=\"{x}\" y=\"{y}\" width=\"{wide}\" height=\"20\"><title>"
    )
}

fn push_item_title(text: &mut String, word: &str, name: &str, item: i64, tick: usize) -> Pushed
    ensures { Adds result text.old text.new (item_title word.now name.now item tick) }
{
    write!(
        text,
        "{word} {name}: item {item}, tick {tick}</title></rect>\n"
    )
}

fn push_wait_title(text: &mut String, what: &str, name: &str, first: usize, last: usize) -> Pushed
    ensures { Adds result text.old text.new (wait_title what.now name.now first last) }
{
    if first == last {
        write!(
            text,
            "waits for {what} on {name}, tick {first}</title></rect>\n"
        )
    } else {
        write!(
            text,
            "waits for {what} on {name}, ticks {first} to {last}</title></rect>\n"
        )
    }
}

fn push_last_title(text: &mut String, what: &str, name: &str, first: usize) -> Pushed
    ensures { Adds result text.old text.new (last_title what.now name.now first) }
{
    write!(
        text,
        "waits for {what} on {name} from tick {first} to the end</title></rect>\n"
    )
}

// The name of the channel, if the box is wide enough.
fn push_name(text: &mut String, kind: &str, x: usize, y: usize, wide: usize, name: &str) -> Pushed
    requires { x + wide < 2 ^ 64 }
    ensures { Adds result text.old text.new (box_name kind.now x y wide name.now) }
{
    if name.len() <= wide.saturating_sub(4) / 5 {
        push_name_text(text, kind, x + wide / 2, y, name)
    } else {
        Ok(())
    }
}

fn push_name_text(text: &mut String, kind: &str, middle: usize, y: usize, name: &str) -> Pushed
    ensures { Adds result text.old text.new (picture_name_text kind.now middle y name.now) }
{
    write!(
        text,
        "<text class=\"{kind}\" x=\"{middle}\" y=\"{y}\">{name}</text>\n"
    )
}

fn push_growth_text(text: &mut String, x: usize, y: usize, name: &str) -> Pushed
    ensures { Adds result text.old text.new (growth_mark_text x y name.now) }
{
    write!(
        text,
        "<path class=\"grow\" d=\"M{x} {y}l5 8h-10z\"><title>{name} grows</title></path>\n"
    )
}

/// Where the row of process `p` begins.
pub(crate) fn row_of(p: usize) -> usize
    requires { p < 2 ^ 16 }
    ensures exact { result ≡ row_place p }
    ensures below { result < 3000000 }
{
    40 + 32 * p
}
