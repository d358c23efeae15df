//! The command reads a network, and the descriptions and traces of its parts. It tells what a join of the traces finds.
ghost use Rattle.std.specs.Prelude.{◌≡◌, ◌↔◌, ◌<◌, ◌/◌, ◌++◌, ◌∷◌, [], ℕ, true, List, map, length, slice_index_or, IfOk, IfErr, IfSome, IfNone, IsTrue, OnOk};
ghost use Rattle.std.specs.List.{list_all};
ghost use Rattle.kpn_history.specs.declared.stored.Version.TheVariants.{Two};
ghost use Rattle.kpn_parts.specs.declared.order.PartEvent.{PartEvent};
ghost use Rattle.kpn_parts.specs.Cut.{IsCut, part_at};
ghost use Rattle.kpn_parts.specs.Homes.{AreHomes};
ghost use Rattle.kpn_parts.specs.Joined.{events_of_part, IsJoined};
ghost use Rattle.kpn_parts.specs.Links.{history_at};
ghost use Rattle.kpn_command_base.specs.Conclusion.{TellsOnly};
ghost use Rattle.kpn_command_base.specs.Description.{IsDescribed};
ghost use Rattle.kpn_command_base.specs.Audited.{IsTraced};
ghost use Rattle.kpn_commands.specs.Join.{AnswersJoin, IsRefusalOfJoin, IsRefusalOfParts, IsPartRefused, IsRefusalOfPart};
ghost use Rattle.kpn_commands.specs.Join.{TellsOfFlaw, IsFlawOf, IsFlawIn, line_at, IsToldOfRun, TellsOfParts};
ghost use Rattle.kpn_commands.specs.JoinParts.{IsUnloaded, LoadsPart, AreLoaded, AreAudited, HasTables, TellsOfLoaded};
ghost use Rattle.kpn_commands.specs.JoinParts.{AreIn, journal_in, audited_journal, audited_capacity, has_all, is_settled};
ghost use Rattle.kpn_commands.specs.JoinParts.{is_part_at_rest, IsRefusalOfNewTrace};

use kpn_audit::Audit;
use kpn_chan::Journal;
use kpn_command_base::{
    Conclusion, Finding, Flaw, Refusal, audit_trace, load_document, text_of_audit,
};
use kpn_history::{Event, Trace, Version};
use kpn_lang::Sequence;
use kpn_net::Wait;
use kpn_parts::{ChannelHome, CutPart, Joined, homes_of, join, links_of};
use kpn_shelf::Shelf;
use kpn_text::Document;
use kpn_trace::{TraceFault, read_trace};
use std::alloc::{AllocError, Global};

/// The parts of a network as their files spell them: of each the description, its events, and the audit of these.
struct LoadedParts {
    documents: Vec<Document>,
    histories: Vec<Sequence<Event>>,
    audits: Vec<Audit>,
}

/// It is written out, so that a function that drops it proves nothing about what is inside.
impl Drop for LoadedParts {
    fn drop(self) {
        let LoadedParts {
            documents,
            histories,
            audits,
        } = self;
        drop(documents);
        drop(histories);
        drop(audits);
    }
}

/// What `kpn join FILE PART TRACE ..` comes to. The words after FILE are the description and the trace of each part.
/// Each process may make `steps` steps before each of its events. It reads FILE first, then the files of each part.
pub fn join_command<S: Shelf>(
    alloc: Global,
    file: &str,
    words: &[&str],
    steps: u64,
    shelf: &S,
) -> Result<Conclusion, Refusal>
    ensures ok { IfOk result (TellsOnly
        (AnswersJoin (S.may_give shelf.now) file.now (map (λ word. word.now) words.now) steps)) }
    ensures refused { IfErr result
        (IsRefusalOfJoin (S.may_give shelf.now) file.now (map (λ word. word.now) words.now)) }
{
    let whole = load_document(alloc, shelf, file)?;
    let mut loaded = LoadedParts {
        documents: Vec::new(alloc),
        histories: Vec::new(alloc),
        audits: Vec::new(alloc),
    };
    let answer = answer_of(alloc, &whole, words, steps, shelf, &mut loaded);
    drop(loaded);
    drop(whole);
    answer
}

// Loads the parts and joins them.
fn answer_of<S: Shelf>(
    alloc: Global,
    whole: &Document,
    words: &[&str],
    steps: u64,
    shelf: &S,
    loaded: &mut LoadedParts,
) -> Result<Conclusion, Refusal>
    requires { IsUnloaded loaded.old }
    ensures ok { (file : List ℕ) → IsDescribed (S.may_give shelf.now) file whole.now
        → IfOk result (TellsOnly (AnswersJoin (S.may_give shelf.now) file
        (map (λ word. word.now) words.now) steps)) }
    ensures refused { IfErr result
        (IsRefusalOfParts (S.may_give shelf.now) (map (λ word. word.now) words.now)) }
{
    match load_parts(alloc, words, steps, shelf, loaded)? {
        Some(flawed) => Ok(flawed),
        None => Ok(join_parts(alloc, whole, words, loaded)?),
    }
}

// Loads the parts, or tells what is wrong with the first trace that is not found legal.
fn load_parts<S: Shelf>(
    alloc: Global,
    words: &[&str],
    steps: u64,
    shelf: &S,
    loaded: &mut LoadedParts,
) -> Result<Option<Conclusion>, Refusal>
    requires { IsUnloaded loaded.old }
    ensures loaded { IfOk result (λ flawed. IfNone flawed (AreLoaded (S.may_give shelf.now)
        (map (λ word. word.now) words.now) (length words.now / 2) loaded.new)) }
    ensures flawed { IfOk result (λ flawed. IfSome flawed (TellsOnly
        (TellsOfFlaw (S.may_give shelf.now) (map (λ word. word.now) words.now) steps))) }
    ensures refused { IfErr result
        (IsPartRefused (S.may_give shelf.now) (map (λ word. word.now) words.now)) }
{
    for r in 0..words.len() / 2 {
        let flawed = load_part(alloc, words[2 * r], words[2 * r + 1], steps, shelf, loaded)?;
        if flawed.is_some() {
            return Ok(flawed);
        }
    }
    Ok(None)
}

// Loads a part, or tells what is wrong with its trace.
fn load_part<S: Shelf>(
    alloc: Global,
    part: &str,
    name: &str,
    steps: u64,
    shelf: &S,
    loaded: &mut LoadedParts,
) -> Result<Option<Conclusion>, Refusal>
    ensures loaded { IfOk result (λ flawed. IfNone flawed
        (LoadsPart (S.may_give shelf.now) part.now name.now loaded.old loaded.new)) }
    ensures flawed { IfOk result (λ flawed. IfSome flawed
        (TellsOnly (IsFlawOf (S.may_give shelf.now) part.now name.now steps))) }
    ensures refused { IfErr result (IsRefusalOfPart (S.may_give shelf.now) part.now name.now) }
{
    let document = load_document(alloc, shelf, part)?;
    let trace = load_trace(alloc, shelf, name)?;
    match audit_trace(alloc, document.network(), &trace, steps)? {
        Finding::NotLegal(flaw) => Ok(Some(flaw_in(alloc, flaw, name)?)),
        Finding::Legal(audit) => {
            loaded.documents.push(document)?;
            loaded.histories.push(trace.events)?;
            loaded.audits.push(audit)?;
            Ok(None)
        }
    }
}

// The trace in a file. One of version 1 is refused: its growths do not state the new capacity.
fn load_trace<S: Shelf>(alloc: Global, shelf: &S, file: &str) -> Result<Trace, Refusal>
    ensures ok { IfOk result (λ trace.
        IsTraced (S.may_give shelf.now) file.now trace × (trace.version ≡ Two)) }
    ensures refused { IfErr result (IsRefusalOfNewTrace (S.may_give shelf.now) file.now) }
{
    let bytes = shelf.load(alloc, file).map_err(Refusal::Input)?;
    let trace = read_trace(alloc, &bytes).map_err(Refusal::Trace)?;
    match trace.version {
        Version::One => Err(Refusal::Trace(TraceFault::BadHead)),
        Version::Two => Ok(trace),
    }
}

// What a join of parts that are loaded comes to.
fn join_parts(
    alloc: Global,
    whole: &Document,
    words: &[&str],
    loaded: &LoadedParts,
) -> Result<Conclusion, AllocError>
    requires { AreAudited loaded.now }
    ensures { IfOk result (TellsOnly
        (TellsOfLoaded whole.now (map (λ word. word.now) words.now) loaded.now)) }
{
    let parts = cut_parts(alloc, whole, &loaded.documents)?;
    join_cut(alloc, whole, words, loaded, &parts)
}

// What a join of parts comes to whose numbers in the whole are found.
fn join_cut(
    alloc: Global,
    whole: &Document,
    words: &[&str],
    loaded: &LoadedParts,
    parts: &[CutPart<'_>],
) -> Result<Conclusion, AllocError>
    requires audited { AreAudited loaded.now }
    requires tables { HasTables parts.now loaded.now.documents.items }
    ensures { IfOk result (TellsOnly (TellsOfParts whole.now (map (λ word. word.now) words.now)
        parts.now loaded.now.histories.items)) }
{
    let network = whole.network();
    network.known();
    let Some(links) = links_of(alloc, network, parts)? else {
        return told(alloc, "no cut\n");
    };
    let Some(homes) = homes_of(alloc, network, parts)? else {
        return told(alloc, "no cut\n");
    };
    match join(alloc, &loaded.histories, &links)? {
        Joined::Whole(_order) => report(alloc, whole, parts, &homes, loaded),
        Joined::Stuck { part, event } => {
            let trace = word_at(words, 2 * part + 1);
            told_at(alloc, "not joined", event, trace, 1)
        }
    }
}

fn word_at<'w>(words: &[&'w str], k: usize) -> &'w str
    ensures { result.now ≡ slice_index_or (map (λ word. word.now) words.now) k [] }
{
    if k < words.len() { words[k] } else { "" }
}

// The parts, with the numbers that their processes and channels have in the whole by their names.
fn cut_parts<'n>(
    alloc: Global,
    whole: &Document,
    documents: &'n [Document],
) -> Result<Vec<CutPart<'n>>, AllocError>
    ensures { IfOk result (λ parts. HasTables parts.items documents.now) }
{
    let mut parts = Vec::new(alloc);
    for r in 0..documents.len() {
        let part = &documents[r];
        let processes = process_numbers(alloc, whole, part)?;
        let channels = channel_numbers(alloc, whole, part)?;
        parts.push(CutPart {
            network: part.network(),
            processes,
            channels,
        })?;
    }
    Ok(parts)
}

// The number that each process of a part has in the whole. One that is not there has a number too large.
fn process_numbers(
    alloc: Global,
    whole: &Document,
    part: &Document,
) -> Result<Vec<usize>, AllocError> {
    let mut numbers = Vec::new(alloc);
    for p in 0..part.network().instances() {
        numbers.push(process_number(whole, part.instance_name(p)))?;
    }
    Ok(numbers)
}

fn process_number(whole: &Document, name: &str) -> usize {
    let count = whole.network().instances();
    for p in 0..count {
        if whole.instance_name(p) == name {
            return p;
        }
    }
    count
}

// The same of its channels.
fn channel_numbers(
    alloc: Global,
    whole: &Document,
    part: &Document,
) -> Result<Vec<usize>, AllocError> {
    let mut numbers = Vec::new(alloc);
    for c in 0..part.network().channels() {
        let number = whole.find_channel(part.channel_name(c));
        numbers.push(number.unwrap_or(whole.network().channels()))?;
    }
    Ok(numbers)
}

// What is told of parts that are joined: `legal`, whether the journals are exact, and a line for each channel.
fn report(
    alloc: Global,
    whole: &Document,
    parts: &[CutPart<'_>],
    homes: &[ChannelHome],
    loaded: &LoadedParts,
) -> Result<Conclusion, AllocError>
    requires cut { IsCut whole.now.tables parts.now }
    requires homes { AreHomes whole.now.tables parts.now homes.now }
    requires audited { AreAudited loaded.now }
    requires tables { HasTables parts.now loaded.now.documents.items }
    ensures { (order : List PartEvent)
        → ((r : ℕ) → events_of_part r order ≡ history_at loaded.now.histories.items r)
        → IsJoined whole.now.tables parts.now order
        → IfOk result (TellsOnly (λ text status.
        IsToldOfRun whole.now parts.now loaded.now.histories.items text × (status ≡ 0))) }
{
    let network = whole.network();
    network.known();
    let exact = is_at_rest(parts, homes, &loaded.audits);
    let audit = whole_audit(alloc, homes, &loaded.audits, exact)?;
    Ok(Conclusion {
        text: text_of_audit(alloc, whole, &audit)?,
        status: 0,
        files: Vec::new(alloc),
    })
}

// What the text of an audit shows of the whole: of each channel the journal and the capacity where it is written.
fn whole_audit(
    alloc: Global,
    homes: &[ChannelHome],
    audits: &[Audit],
    exact: bool,
) -> Result<Audit, AllocError>
    requires { AreIn audits.now homes.now }
    ensures journals { IfOk result (λ audit.
        audit.journals ≡ map (audited_journal audits.now) homes.now) }
    ensures caps { IfOk result (λ audit.
        audit.caps ≡ map (audited_capacity audits.now) homes.now) }
    ensures exact { IfOk result (λ audit. audit.exact ≡ exact) }
{
    let mut journals = Vec::new(alloc);
    let mut caps = Vec::new(alloc);
    for c in 0..homes.len() {
        push_home(alloc, audits, homes[c], &mut journals, &mut caps)?;
    }
    Ok(Audit {
        journals: Sequence::from_vec(journals),
        reads: Sequence::new(alloc),
        caps: Sequence::from_vec(caps),
        complete: Sequence::new(alloc),
        waits: Sequence::new(alloc),
        ends: Sequence::new(alloc),
        exact,
    })
}

// Adds the journal and the capacity of the channel that is written there.
fn push_home(
    alloc: Global,
    audits: &[Audit],
    home: ChannelHome,
    journals: &mut Vec<Journal>,
    caps: &mut Vec<Option<u32>>,
) -> Result<(), AllocError>
    requires part { home.part < length audits.now }
    requires channel { (audit : Audit Global)
        → home.channel < length (slice_index_or audits.now home.part audit).journals }
    ensures journals { OnOk result
        (journals.new.items ≡ journals.old.items ++ audited_journal audits.now home ∷ []) }
    ensures caps { OnOk result
        (caps.new.items ≡ caps.old.items ++ audited_capacity audits.now home ∷ []) }
{
    let audit = &audits[home.part];
    journals.push(copy_of(alloc, &audit.journals.as_slice()[home.channel])?)?;
    caps.push(
        audit
            .caps
            .as_slice()
            .get(home.channel)
            .copied()
            .unwrap_or(None),
    )?;
    Ok(())
}

fn copy_of(alloc: Global, journal: &Journal) -> Result<Journal, AllocError>
    ensures { IfOk result (λ copy. copy ≡ journal.now) }
{
    let items = journal.copy_first(alloc, journal.len())?;
    Ok(Journal::from_vec(alloc, items))
}

// Whether the whole is at rest: each part is, and nothing is on the way to a process that waits for it.
fn is_at_rest(parts: &[CutPart<'_>], homes: &[ChannelHome], audits: &[Audit]) -> bool
    requires { length parts.now ≡ length audits.now }
    ensures { IsTrue result ↔ ((r : ℕ) → r < length audits.now
        → is_part_at_rest (part_at parts.now r) homes.now audits.now r ≡ true) }
{
    for r in 0..audits.len() {
        if !is_part_at_rest(&parts[r], homes, audits, r) {
            return false;
        }
    }
    true
}

// Whether part `r` is at rest, and nothing is on the way to a process there that waits for it.
fn is_part_at_rest(part: &CutPart<'_>, homes: &[ChannelHome], audits: &[Audit], r: usize) -> bool
    requires { r < length audits.now }
    ensures { result ≡ is_part_at_rest part.now homes.now audits.now r }
{
    let audit = &audits[r];
    audit.exact && are_settled(part, homes, audits, r, audit.waits.as_slice())
}

// Whether nothing is on the way to processes of part `r` that wait for these.
fn are_settled(
    part: &CutPart<'_>,
    homes: &[ChannelHome],
    audits: &[Audit],
    r: usize,
    waits: &[Wait],
) -> bool
    ensures { result ≡ list_all (is_settled part.now homes.now audits.now r) waits.now }
{
    waits
        .iter()
        .all(|wait| is_settled(part, homes, audits, r, *wait))
}

// Whether nothing is on the way to a process of part `r` that waits for this.
fn is_settled(
    part: &CutPart<'_>,
    homes: &[ChannelHome],
    audits: &[Audit],
    r: usize,
    wait: Wait,
) -> bool
    ensures { result ≡ is_settled part.now homes.now audits.now r wait }
{
    match wait {
        Wait::Empty(c) => has_all(part, homes, audits, r, c),
        _ => true,
    }
}

// Whether part `r` has all items that were put on its channel `c`.
fn has_all(part: &CutPart<'_>, homes: &[ChannelHome], audits: &[Audit], r: usize, c: usize) -> bool
    ensures { result ≡ has_all part.now homes.now audits.now r c }
{
    match homes.get(part.whole_channel(c)) {
        Some(home) => {
            journal_length(audits, r, c) == journal_length(audits, home.part, home.channel)
        }
        None => false,
    }
}

// How many items the journal of channel `c` of part `r` has.
fn journal_length(audits: &[Audit], r: usize, c: usize) -> usize
    ensures { result ≡ length (journal_in audits.now r c) }
{
    let Some(audit) = audits.get(r) else {
        return 0;
    };
    match audit.journals.as_slice().get(c) {
        Some(journal) => journal.len(),
        None => 0,
    }
}

// The line for a flaw of a trace, under its status.
fn flaw_in(alloc: Global, flaw: Flaw, trace: &str) -> Result<Conclusion, AllocError>
    ensures { IfOk result (TellsOnly (IsFlawIn trace.now flaw)) }
{
    match flaw {
        Flaw::Illegal(k) => told_at(alloc, "illegal", k, trace, 1),
        Flaw::Budget(k) => told_at(alloc, "budget", k, trace, 5),
    }
}

// The line `WORD at K in TRACE`.
fn told_at(
    alloc: Global,
    word: &str,
    k: usize,
    trace: &str,
    status: u8,
) -> Result<Conclusion, AllocError>
    ensures { IfOk result (TellsOnly (λ text ends.
        (text ≡ line_at word.now k trace.now) × (ends ≡ status))) }
{
    let line = format!(in alloc; "{word} at {k} in {trace}\n")?;
    Ok(Conclusion {
        text: line.into_bytes(),
        status,
        files: Vec::new(alloc),
    })
}

// A line under status 1.
fn told(alloc: Global, line: &str) -> Result<Conclusion, AllocError>
    ensures { IfOk result (TellsOnly (λ text ends. (text ≡ line.now) × (ends ≡ 1))) }
{
    Ok(Conclusion {
        text: Vec::from_slice(alloc, line.as_bytes())?,
        status: 1,
        files: Vec::new(alloc),
    })
}
