// The stack of open numbers. An environment is the place of its first entry on the stack, counted from 1 at the outermost; 0 is the empty one.
ghost use Rattle.std.specs.Prelude.{◌≡◌, ℕ, ◌≤◌, ◌<◌, length, reverse, Option, Some, None, OnOk, IfOk};
ghost use Rattle.st_trace.specs.Stacked.{entry_at, inside_link, turn_link};

/// A search: whether a turn searches, its environment, and where the entries begin that weren't
/// tried.
#[derive(Clone, Copy, Debug, PartialEq, Eq)]
pub(crate) struct Search {
    pub of_turn: bool,
    pub whole: usize,
    pub left: usize,
}

/// How an open number was begun.
#[derive(Clone, Copy, Debug, PartialEq, Eq)]
pub(crate) enum Kind {
    Protect,
    Signal,
    Outer,
    Default,
    Handle(u64),
    Ensure(bool),
    Curtail(bool),
    Ask(u64, Search),
}

/// An open number, with the environment at its beginning, or for a turn, a default action and an ask
/// the one that it brings.
#[derive(Clone, Copy, Debug)]
pub(crate) struct Item {
    pub number: u64,
    pub kind: Kind,
    pub around: usize,
}

/// The item at which an environment begins.
pub(crate) fn first_entry(items: &[Item], env: usize) -> Option<Item>
    ensures { result ≡ entry_at items.now env }
{
    if env == 0 || items.len() < env {
        return None;
    }
    Some(items[env - 1])
}

/// The environment where the innermost number is.
pub(crate) fn inside(items: &[Item]) -> usize
    ensures { result ≡ inside_link (reverse items.now) }
{
    match items.last() {
        None => 0,
        Some(item) => match item.kind {
            Kind::Protect => items.len(),
            _ => item.around,
        },
    }
}

/// The environment of the turn of this number, where it is open and has an entry.
pub(crate) fn turn_inside(items: &[Item], number: u64) -> Option<usize>
    ensures { result ≡ turn_link number (reverse items.now) }
{
    let mut at = items.len();
    while at > 0 {
        at -= 1;
        let item = items[at];
        if item.number == number {
            return match item.kind {
                Kind::Handle(_) => Some(item.around),
                _ => None,
            };
        }
    }
    None
}
