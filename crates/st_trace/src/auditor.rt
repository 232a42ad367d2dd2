// The auditor.
ghost use Rattle.std.specs.Prelude.{◌≡◌, ◌≤◌, ◌∷◌, length, reverse, IfOk, Some};
ghost use Rattle.st_trace.specs.Stacked.{chain, kind_view, inside_by, items_view, IsLinkedKind};
ghost use Rattle.st_trace.specs.Audited.{mode_view, auditor_of, IsSound, IsPlain, IsLinkedSearch, answers, search_view};
ghost use Rattle.st_trace.specs.Automaton.{begun, searches, turn_inside as turn_open, inside_of, judged, Calm, of_innermost, acts, repeats, ends, calm, of_signal, of_outer, known, looks, answered, fits, accepts};
ghost use Rattle.st_rules.specs.Events.{Search as SearchFor, Ask, Default, Handle, Known};
ghost use Rattle.st_trace.specs.Events.{event_of};

use crate::stack::{Item, Kind, Search, first_entry, inside, turn_inside};
use st_base::OutOfMemory;
use st_contexts::Event;

/// What may come.
#[derive(Clone, Copy, Debug, PartialEq, Eq)]
pub(crate) enum Mode {
    Calm,
    MustSearch,
    MustTurn,
    Looks(Search),
    Answered(u64, Search),
    Fits(u64, Search),
}

/// What is kept of the lines that stand.
#[derive(Drop)]
pub(crate) struct Kept {
    pub(crate) items: Vec<Item>,
    pub(crate) mode: Mode,
    pub(crate) next: u128,
}

/// A number is begun.
#[tactic(auto, using(crate::proofs::Links::plain_behind))]
fn begin(
    auditor: &mut Kept,
    number: u64,
    kind: Kind,
    around: usize,
    mode: Mode,
) -> Result<bool, OutOfMemory>
    requires sound { IsSound auditor.old }
    requires around { around ≤ length auditor.old.items.items }
    requires kind { IsLinkedKind (length auditor.old.items.items) kind }
    requires mode { IsPlain mode }
    ensures begun { IfOk result (λ taken. begun number (kind_view (reverse auditor.old.items.items) kind) (inside_by kind number (chain (reverse auditor.old.items.items) around)) (mode_view (reverse auditor.old.items.items) mode) (items_view (reverse auditor.old.items.items)) auditor.old.next ≡ answers taken auditor.new) }
    ensures sound { IsSound auditor.new }
{
    if (number as u128) < auditor.next {
        return Ok(false);
    }
    auditor.items.push(Item {
        number,
        kind,
        around,
    })?;
    auditor.mode = mode;
    auditor.next = number as u128 + 1;
    Ok(true)
}

/// A turn that is open searches.
fn search_turn(auditor: &mut Kept, number: u64) -> bool
    requires sound { IsSound auditor.old }
    ensures searches { searches (turn_open number (items_view (reverse auditor.old.items.items))) (items_view (reverse auditor.old.items.items)) auditor.old.next ≡ answers result auditor.new }
    ensures sound { IsSound auditor.new }
{
    match turn_inside(&auditor.items, number) {
        None => false,
        Some(env) => {
            auditor.mode = Mode::Looks(Search {
                of_turn: true,
                whole: env,
                left: env,
            });
            true
        }
    }
}

/// The first entry left is tried.
fn tried(auditor: &mut Kept, number: u64, fits: bool, search: Search) -> bool
    requires sound { IsSound auditor.old }
    requires search { IsLinkedSearch (length auditor.old.items.items) search }
    ensures judged { judged number fits search.of_turn (chain (reverse auditor.old.items.items) search.whole) (chain (reverse auditor.old.items.items) search.left) (items_view (reverse auditor.old.items.items)) auditor.old.next ≡ answers result auditor.new }
    ensures sound { IsSound auditor.new }
{
    match first_entry(&auditor.items, search.left) {
        None => false,
        Some(entry) => {
            if entry.number != number {
                return false;
            }
            let search = Search {
                of_turn: search.of_turn,
                whole: search.whole,
                left: entry.around,
            };
            if fits {
                auditor.mode = Mode::Fits(number, search);
                return true;
            }
            auditor.mode = Mode::Looks(search);
            true
        }
    }
}

/// The innermost open number ends.
fn end(auditor: &mut Kept, number: u64, cut: bool) -> bool
    requires sound { IsSound auditor.old }
    ensures ends { of_innermost number (λ kind m inside below next. ends kind cut below next) (items_view (reverse auditor.old.items.items)) auditor.old.next ≡ answers result auditor.new }
    ensures sound { IsSound auditor.new }
{
    auditor.mode = Mode::Calm;
    match auditor.items.pop() {
        None => false,
        Some(item) => {
            if item.number != number {
                return false;
            }
            match item.kind {
                Kind::Ensure(acted) => acted,
                Kind::Curtail(acted) => acted == cut,
                Kind::Handle(_) => cut,
                Kind::Ask(entry, search) => {
                    if !cut {
                        auditor.mode = Mode::Answered(entry, search);
                    }
                    true
                }
                _ => true,
            }
        }
    }
}

/// A number is begun where the innermost is.
fn begin_here(auditor: &mut Kept, number: u64, kind: Kind, mode: Mode) -> Result<bool, OutOfMemory>
    requires sound { IsSound auditor.old }
    requires kind { IsLinkedKind (length auditor.old.items.items) kind }
    requires mode { IsPlain mode }
    ensures begun { IfOk result (λ taken. begun number (kind_view (reverse auditor.old.items.items) kind) (inside_by kind number (inside_of (items_view (reverse auditor.old.items.items)))) (mode_view (reverse auditor.old.items.items) mode) (items_view (reverse auditor.old.items.items)) auditor.old.next ≡ answers taken auditor.new) }
    ensures sound { IsSound auditor.new }
{
    let around = inside(&auditor.items);
    begin(auditor, number, kind, around, mode)
}

/// The action of the innermost open number is begun.
fn act(auditor: &mut Kept, number: u64) -> Result<bool, OutOfMemory>
    requires sound { IsSound auditor.old }
    ensures acts { IfOk result (λ taken. of_innermost number acts (items_view (reverse auditor.old.items.items)) auditor.old.next ≡ answers taken auditor.new) }
    ensures sound { IsSound auditor.new }
{
    auditor.mode = Mode::Calm;
    match auditor.items.pop() {
        None => Ok(false),
        Some(item) => {
            if item.number != number {
                return Ok(false);
            }
            let kind = match item.kind {
                Kind::Ensure(false) => Kind::Ensure(true),
                Kind::Curtail(false) => Kind::Curtail(true),
                _ => return Ok(false),
            };
            auditor.items.push(Item {
                number,
                kind,
                around: item.around,
            })?;
            auditor.mode = Mode::Calm;
            Ok(true)
        }
    }
}

/// The receiver of the innermost open number is begun again.
fn repeat(auditor: &mut Kept, number: u64) -> bool
    requires sound { IsSound auditor.old }
    ensures repeats { of_innermost number repeats (items_view (reverse auditor.old.items.items)) auditor.old.next ≡ answers result auditor.new }
    ensures sound { IsSound auditor.new }
{
    match auditor.items.last() {
        None => false,
        Some(item) => {
            if item.number != number || item.kind != Kind::Protect {
                return false;
            }
            auditor.mode = Mode::Calm;
            true
        }
    }
}

/// A line where no search is open, or it asks.
fn calm(auditor: &mut Kept, event: Event) -> Result<bool, OutOfMemory>
    requires sound { IsSound auditor.old }
    ensures calm { IfOk result (λ taken. calm (event_of event) (items_view (reverse auditor.old.items.items)) auditor.old.next ≡ answers taken auditor.new) }
    ensures sound { IsSound auditor.new }
{
    match event {
        Event::Protect(number) => begin_here(auditor, number, Kind::Protect, Mode::Calm),
        Event::Ensure(number) => begin_here(auditor, number, Kind::Ensure(false), Mode::Calm),
        Event::Curtail(number) => begin_here(auditor, number, Kind::Curtail(false), Mode::Calm),
        Event::Signal(number) => begin_here(auditor, number, Kind::Signal, Mode::MustSearch),
        Event::Outer(number) => begin_here(auditor, number, Kind::Outer, Mode::MustTurn),
        Event::Search(number) => Ok(search_turn(auditor, number)),
        Event::Action(number) => act(auditor, number),
        Event::Again(number) => Ok(repeat(auditor, number)),
        Event::End { number, cut } => Ok(end(auditor, number, cut)),
        _ => Ok(false),
    }
}

/// The signal that was begun just now searches.
fn search_signal(auditor: &mut Kept, number: u64) -> bool
    requires sound { IsSound auditor.old }
    ensures searches { of_signal (SearchFor number) (items_view (reverse auditor.old.items.items)) auditor.old.next ≡ answers result auditor.new }
    ensures sound { IsSound auditor.new }
{
    let env = inside(&auditor.items);
    match auditor.items.last() {
        None => false,
        Some(item) => {
            if item.number != number {
                return false;
            }
            auditor.mode = Mode::Looks(Search {
                of_turn: false,
                whole: env,
                left: env,
            });
            true
        }
    }
}

/// A search of a turn is over, and nothing is done.
fn known(auditor: &mut Kept, of_turn: bool) -> bool
    requires sound { IsSound auditor.old }
    ensures known { known of_turn (items_view (reverse auditor.old.items.items)) auditor.old.next ≡ answers result auditor.new }
    ensures sound { IsSound auditor.new }
{
    auditor.mode = Mode::Calm;
    of_turn
}

/// The first entry left is asked.
fn ask(auditor: &mut Kept, wait: u64, entry: u64, search: Search) -> Result<bool, OutOfMemory>
    requires sound { IsSound auditor.old }
    requires search { IsLinkedSearch (length auditor.old.items.items) search }
    ensures asks { IfOk result (λ taken. looks (Ask wait entry) search.of_turn (chain (reverse auditor.old.items.items) search.whole) (chain (reverse auditor.old.items.items) search.left) (items_view (reverse auditor.old.items.items)) auditor.old.next ≡ answers taken auditor.new) }
    ensures sound { IsSound auditor.new }
{
    match first_entry(&auditor.items, search.left) {
        None => Ok(false),
        Some(first) => {
            if first.number != entry {
                return Ok(false);
            }
            let search = Search {
                of_turn: search.of_turn,
                whole: search.whole,
                left: first.around,
            };
            begin(
                auditor,
                wait,
                Kind::Ask(entry, search),
                first.around,
                Mode::Calm,
            )
        }
    }
}

/// A default action is begun where each entry was tried.
fn default_action(auditor: &mut Kept, number: u64, search: Search) -> Result<bool, OutOfMemory>
    requires sound { IsSound auditor.old }
    requires search { IsLinkedSearch (length auditor.old.items.items) search }
    ensures begins { IfOk result (λ taken. looks (Default number) search.of_turn (chain (reverse auditor.old.items.items) search.whole) (chain (reverse auditor.old.items.items) search.left) (items_view (reverse auditor.old.items.items)) auditor.old.next ≡ answers taken auditor.new) }
    ensures sound { IsSound auditor.new }
{
    match first_entry(&auditor.items, search.left) {
        None => begin(auditor, number, Kind::Default, search.whole, Mode::Calm),
        Some(_) => Ok(false),
    }
}

/// The entry that was asked is tried.
fn tried_asked(auditor: &mut Kept, number: u64, fits: bool, entry: u64, search: Search) -> bool
    requires sound { IsSound auditor.old }
    requires search { IsLinkedSearch (length auditor.old.items.items) search }
    ensures judged { judged number fits search.of_turn (chain (reverse auditor.old.items.items) search.whole) (entry ∷ (chain (reverse auditor.old.items.items) search.left)) (items_view (reverse auditor.old.items.items)) auditor.old.next ≡ answers result auditor.new }
    ensures sound { IsSound auditor.new }
{
    if number != entry {
        return false;
    }
    if fits {
        auditor.mode = Mode::Fits(entry, search);
        return true;
    }
    auditor.mode = Mode::Looks(search);
    true
}

/// The handler of the entry that fits is begun.
fn handle(
    auditor: &mut Kept,
    turn: u64,
    number: u64,
    entry: u64,
    search: Search,
) -> Result<bool, OutOfMemory>
    requires sound { IsSound auditor.old }
    requires search { IsLinkedSearch (length auditor.old.items.items) search }
    ensures handles { IfOk result (λ taken. fits (Handle turn number) entry search.of_turn (chain (reverse auditor.old.items.items) search.left) (items_view (reverse auditor.old.items.items)) auditor.old.next ≡ answers taken auditor.new) }
    ensures sound { IsSound auditor.new }
{
    if number != entry {
        return Ok(false);
    }
    begin(auditor, turn, Kind::Handle(entry), search.left, Mode::Calm)
}

/// A line of a search.
fn in_search(auditor: &mut Kept, event: Event, search: Search) -> Result<bool, OutOfMemory>
    requires sound { IsSound auditor.old }
    requires search { IsLinkedSearch (length auditor.old.items.items) search }
    ensures looks { IfOk result (λ taken. looks (event_of event) search.of_turn (chain (reverse auditor.old.items.items) search.whole) (chain (reverse auditor.old.items.items) search.left) (items_view (reverse auditor.old.items.items)) auditor.old.next ≡ answers taken auditor.new) }
    ensures sound { IsSound auditor.new }
{
    match event {
        Event::Tried { entry, fits } => Ok(tried(auditor, entry, fits, search)),
        Event::Ask { wait, entry } => ask(auditor, wait, entry, search),
        Event::Default(number) => default_action(auditor, number, search),
        Event::Known => Ok(known_by(auditor, search)),
        _ => Ok(false),
    }
}

/// A search is over where each entry was tried.
fn known_by(auditor: &mut Kept, search: Search) -> bool
    requires sound { IsSound auditor.old }
    ensures known { looks Known search.of_turn (chain (reverse auditor.old.items.items) search.whole) (chain (reverse auditor.old.items.items) search.left) (items_view (reverse auditor.old.items.items)) auditor.old.next ≡ answers result auditor.new }
    ensures sound { IsSound auditor.new }
{
    match first_entry(&auditor.items, search.left) {
        None => known(auditor, search.of_turn),
        Some(_) => false,
    }
}

/// A line behind the answer of an ask.
fn behind_answer(
    auditor: &mut Kept,
    event: Event,
    entry: u64,
    search: Search,
) -> Result<bool, OutOfMemory>
    requires sound { IsSound auditor.old }
    requires search { IsLinkedSearch (length auditor.old.items.items) search }
    ensures answered { IfOk result (λ taken. answered (event_of event) entry search.of_turn (chain (reverse auditor.old.items.items) search.whole) (chain (reverse auditor.old.items.items) search.left) (items_view (reverse auditor.old.items.items)) auditor.old.next ≡ answers taken auditor.new) }
    ensures sound { IsSound auditor.new }
{
    match event {
        Event::Tried {
            entry: number,
            fits,
        } => Ok(tried_asked(auditor, number, fits, entry, search)),
        _ => Ok(false),
    }
}

/// A line behind an entry that fits.
fn behind_fit(
    auditor: &mut Kept,
    event: Event,
    entry: u64,
    search: Search,
) -> Result<bool, OutOfMemory>
    requires sound { IsSound auditor.old }
    requires search { IsLinkedSearch (length auditor.old.items.items) search }
    ensures fits { IfOk result (λ taken. fits (event_of event) entry search.of_turn (chain (reverse auditor.old.items.items) search.left) (items_view (reverse auditor.old.items.items)) auditor.old.next ≡ answers taken auditor.new) }
    ensures sound { IsSound auditor.new }
{
    match event {
        Event::Handle {
            turn,
            entry: number,
        } => handle(auditor, turn, number, entry, search),
        Event::Known => Ok(known(auditor, search.of_turn)),
        _ => Ok(false),
    }
}

/// A line behind the beginning of a signal.
fn behind_signal(auditor: &mut Kept, event: Event) -> bool
    requires sound { IsSound auditor.old }
    ensures searches { of_signal (event_of event) (items_view (reverse auditor.old.items.items)) auditor.old.next ≡ answers result auditor.new }
    ensures sound { IsSound auditor.new }
{
    match event {
        Event::Search(number) => search_signal(auditor, number),
        _ => false,
    }
}

/// A line behind the beginning of an outer point.
fn behind_outer(auditor: &mut Kept, event: Event) -> bool
    requires sound { IsSound auditor.old }
    ensures searches { of_outer (event_of event) (items_view (reverse auditor.old.items.items)) auditor.old.next ≡ answers result auditor.new }
    ensures sound { IsSound auditor.new }
{
    match event {
        Event::Search(number) => search_turn(auditor, number),
        _ => false,
    }
}

/// One more line that tells this.
pub(crate) fn accept(kept: &mut Kept, event: Event) -> Result<bool, OutOfMemory>
    requires sound { IsSound kept.old }
    ensures accepts { IfOk result (λ taken. accepts (event_of event) (auditor_of kept.old) ≡ answers taken kept.new) }
    ensures sound { IsSound kept.new }
{
    match kept.mode {
        Mode::Calm => calm(kept, event),
        Mode::MustSearch => Ok(behind_signal(kept, event)),
        Mode::MustTurn => Ok(behind_outer(kept, event)),
        Mode::Looks(search) => in_search(kept, event, search),
        Mode::Answered(entry, search) => behind_answer(kept, event, entry, search),
        Mode::Fits(entry, search) => behind_fit(kept, event, entry, search),
    }
}
