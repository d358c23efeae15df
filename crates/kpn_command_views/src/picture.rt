//! The picture of a run in time.
ghost use Rattle.std.specs.Prelude.{◌≡◌, ◌+◌, ◌*◌, ◌<◌, ◌≤◌, ◌^◌, ◌++◌, true, length, IfOk, IfErr, OnOk};
ghost use Rattle.kpn_command_base.specs.Added.{Adds};
ghost use Rattle.kpn_net.specs.Tables.{Tables};
ghost use Rattle.kpn_ticks.specs.Ticks.{start};
ghost use Rattle.kpn_ticks.specs.Shown.{shown, AreClocks};
ghost use Rattle.kpn_command_views.specs.PictureText.{all_event_boxes, last_boxes, all_box_count, last_counts, picture_with, picture_size};
ghost use Rattle.kpn_command_views.specs.Drawable.{IsDrawable};
ghost use Rattle.kpn_command_views.specs.PictureAnswers.{IsPicture, IsNoPicture};

use crate::boxes::{box_count, last_count, push_event, push_last};
use crate::frame::{push_grid, push_head, push_legend};
use crate::scale::Scale;
use crate::waits::wait_at;
use kpn_command_base::{Pushed, Refusal};
use kpn_history::Event;
use kpn_net::{Network, Wait};
use kpn_text::Document;
use kpn_ticks::{Clocks, clocks_after};
use std::alloc::{AllocError, Global};

/// The most ticks of a picture, and the most boxes and marks.
const MOST_DRAWN: usize = 2_000;

/// A run that is drawn: events of a network, which has the names of the document, and the waits after them.
#[derive(Clone, Copy)]
pub(crate) struct DrawnRun<'a> {
    pub(crate) document: &'a Document,
    pub(crate) network: &'a Network,
    pub(crate) waits: &'a [Wait],
    pub(crate) events: &'a [Event],
}

impl DrawnRun<'_> {
    /// The picture of ticks `first` to `last`. It refuses one of more than 2,000 ticks, or boxes and marks.
    #[tactic(auto, using(crate::proofs::Pictured::few_rows))]
    pub(crate) fn picture(
        self,
        alloc: Global,
        first: usize,
        last: usize,
    ) -> Result<Vec<u8>, Refusal>
        ensures ok { let r = self.entry in IfOk result (λ text. IsPicture r.document.now
            r.network.now first last r.waits.now r.events.now text.items) }
        ensures refused { let r = self.entry in IfErr result (IsNoPicture
            (picture_size r.document.now r.network.now first last r.waits.now r.events.now)) }
    {
        self.network.known();
        let ends = clocks_after(alloc, self.network, true, self.events)?;
        let processes = self.network.instances();
        let scale = Scale::new(self.document, processes, first, last, ends.last());
        if scale.ticks() > MOST_DRAWN {
            return Err(Refusal::PictureWords);
        }
        let boxes = count_boxes(alloc, self.network, scale, self.events)?;
        if boxes + count_last(scale, processes, self.waits, &ends) > MOST_DRAWN {
            return Err(Refusal::PictureWords);
        }
        let text = self.text_at(alloc, scale, processes, &ends)?;
        Ok(text)
    }

    // The picture at this scale, of this many processes, with these clocks at the end.
    fn text_at(
        self,
        alloc: Global,
        scale: Scale,
        processes: usize,
        ends: &Clocks,
    ) -> Result<Vec<u8>, AllocError>
        requires drawable { IsDrawable scale }
        requires rows { processes < 2 ^ 16 }
        requires fits { scale.front + 1 < 2 ^ 64 }
        requires clocks { (t : Tables) × AreClocks t (shown ends.now) }
        requires ends { (shown ends.now).last + 1 < 2 ^ 64 }
        ensures { let r = self.entry in IfOk result (λ text. text.items
            ≡ picture_with r.document.now r.network.now scale processes r.waits.now
            (shown ends.now) r.events.now) }
    {
        let (document, network) = (self.document, self.network);
        let mut text = String::new(alloc);
        push_head(&mut text, scale, processes, ends.last())?;
        push_grid(&mut text, document, scale, processes)?;
        push_events(alloc, &mut text, document, network, scale, self.events)?;
        push_last_waits(&mut text, document, scale, processes, self.waits, ends)?;
        push_legend(&mut text, processes)?;
        Ok(text.into_bytes())
    }
}

// How many boxes and marks are drawn of these events.
fn count_boxes(
    alloc: Global,
    network: &Network,
    scale: Scale,
    events: &[Event],
) -> Result<usize, AllocError>
    requires { IsDrawable scale }
    ensures exact { IfOk result (λ count. count
        ≡ all_box_count network.now scale (start network.now true) events.now) }
    ensures few { IfOk result (λ count. count ≤ 2 * length events.now) }
{
    let mut clocks = Clocks::new(alloc, network, true)?;
    let mut count = 0;
    for k in 0..events.len() {
        count += box_count(network, scale, &clocks, events[k]);
        clocks.count(network, events[k])?;
    }
    Ok(count)
}

// How many boxes are drawn of the waits of these processes at the end.
fn count_last(scale: Scale, processes: usize, waits: &[Wait], ends: &Clocks) -> usize
    requires drawable { IsDrawable scale }
    requires fits { (shown ends.now).last + 1 < 2 ^ 64 }
    ensures exact { result ≡ last_counts scale processes waits.now (shown ends.now) }
    ensures few { result ≤ processes }
{
    let mut count = 0;
    for p in 0..processes {
        count += last_count(scale, ends, p, wait_at(waits, p));
    }
    count
}

// What is drawn of each event.
fn push_events(
    alloc: Global,
    text: &mut String,
    document: &Document,
    network: &Network,
    scale: Scale,
    events: &[Event],
) -> Pushed
    requires { IsDrawable scale }
    ensures { Adds result text.old text.new (all_event_boxes document.now.names.channels
        network.now scale (start network.now true) events.now) }
{
    let mut clocks = Clocks::new(alloc, network, true)?;
    for k in 0..events.len() {
        push_event(text, document, network, scale, &clocks, events[k])?;
        clocks.count(network, events[k])?;
    }
    Ok(())
}

// The waits that these processes end with.
fn push_last_waits(
    text: &mut String,
    document: &Document,
    scale: Scale,
    processes: usize,
    waits: &[Wait],
    ends: &Clocks,
) -> Pushed
    requires drawable { IsDrawable scale }
    requires rows { processes < 2 ^ 16 }
    requires clocks { (t : Tables) × AreClocks t (shown ends.now) }
    requires ends { (shown ends.now).last + 1 < 2 ^ 64 }
    ensures { Adds result text.old text.new (last_boxes document.now.names.channels scale
        processes waits.now (shown ends.now)) }
{
    for p in 0..processes {
        push_last(text, document, scale, ends, p, wait_at(waits, p))?;
    }
    Ok(())
}
