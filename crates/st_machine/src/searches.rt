// How handlers are searched, and the turns that run them (ANSI NCITS 319, 5.5).
ghost use Rattle.std.specs.Prelude.{◌≡◌, true};
ghost use Rattle.st_machine.specs.Opening.{stood, stood_number};
ghost use Rattle.st_machine.specs.Settling.{judged};
ghost use Rattle.st_machine.specs.Searches.{sending, fits_here, inquired, inquiry_told, examined_by, examined_told, searched, search_told, resume_of, signal_of, turn_for, asks_nested, is_there, handler_of, handler_applied, handled, handled_told, defaulted, default_told, turned_at, turn_told_at, turned, turn_told, resumability_asked};

use crate::machine::Machine;
use crate::work::{Mode, Told, Work};
use object_heap::{Heap, Value};
use st_contexts::{
    Activation, Contexts, Entry, Env, Event, Limit, Outcome, Purpose, SearchState, Turn, Wait,
};

// The number of the activation that a turn of this purpose resumes.
fn resume_of(who: u64, purpose: Purpose) -> u64
    ensures { result ≡ resume_of who purpose }
{
    match purpose {
        Purpose::Signal => who,
        Purpose::Pass { turn } => turn.resume_point,
        Purpose::Outer { turn: _, point } => point,
        Purpose::IsNested => who,
    }
}

// The number of the signal that a turn of this purpose begins at.
fn signal_of(who: u64, purpose: Purpose) -> u64
    ensures { result ≡ signal_of who purpose }
{
    match purpose {
        Purpose::Signal => who,
        Purpose::Pass { turn } => turn.signal,
        Purpose::Outer { turn, point: _ } => turn.signal,
        Purpose::IsNested => who,
    }
}

// The turn that a search begins, with its entry and the environment outside that.
fn turn_for(search: SearchState, entry: Option<u64>, outside: Env) -> Turn
    ensures { result ≡ turn_for search entry outside }
{
    Turn {
        exception: search.exception,
        entry,
        outside,
        resume_point: resume_of(search.who, search.purpose),
        signal: signal_of(search.who, search.purpose),
    }
}

fn asks_nested(purpose: Purpose) -> bool
    ensures { result ≡ asks_nested purpose }
{
    match purpose {
        Purpose::Signal => false,
        Purpose::Pass { .. } => false,
        Purpose::Outer { .. } => false,
        Purpose::IsNested => true,
    }
}

fn is_there(entry: Option<u64>) -> Value
    ensures { result ≡ is_there entry }
{
    match entry {
        Some(_) => Value::True,
        None => Value::False,
    }
}

// The handler of the entry with this number.
fn handler_of(contexts: &Contexts, entry: u64) -> Value
    ensures { result ≡ handler_of entry contexts.now.acts }
{
    match contexts.entry(Env(entry)) {
        Some(entry) => entry.handler,
        None => Value::Nil,
    }
}

impl<H: Heap> Machine<H> {
    // An entry that isn't plain is sent `handles:`.
    fn inquire(&mut self, search: SearchState, entry: Entry) -> Told
        ensures inquired { self.new ≡ inquired search entry self.old }
        ensures told { result ≡ inquiry_told entry.protect self.old }
    {
        let wait = Activation::HandlesWait {
            search,
            entry: entry.protect,
        };
        match self.stand(wait, entry.outside) {
            Some(number) => {
                self.passed.set_one(Value::Object(search.exception));
                self.mode = Mode::Begin(Work::SendTo {
                    selector: self.loaded.selector(b"handles:"),
                    receiver: entry.selector,
                    env: entry.outside,
                });
                Told::One(Event::Ask {
                    wait: number,
                    entry: entry.protect,
                })
            }
            None => {
                self.settle_with(Outcome::Stop(Limit::Depth));
                Told::Nothing
            }
        }
    }

    // A plain entry fits, or the search goes on outside it.
    fn judge(&mut self, search: SearchState, entry: Entry) -> Told
        ensures judged { self.new ≡ judged (fits_here search entry self.old) search entry.protect entry.outside self.old }
        ensures told { result ≡ examined_told true search entry self.old }
    {
        let class = self.heap.class_of(search.exception);
        let fits = self.loaded.fits(&self.heap, entry.selector, class);
        if fits {
            self.mode = Mode::Begin(Work::TurnBy {
                search,
                entry: Some(entry.protect),
                outside: entry.outside,
            });
        } else {
            self.mode = Mode::Begin(Work::Search {
                search,
                rest: entry.outside,
            });
        }
        Told::One(Event::Tried {
            entry: entry.protect,
            fits,
        })
    }

    fn examine(&mut self, plain: bool, search: SearchState, entry: Entry) -> Told
        ensures examined { self.new ≡ examined_by plain search entry self.old }
        ensures told { result ≡ examined_told plain search entry self.old }
    {
        if plain {
            return self.judge(search, entry);
        }
        self.inquire(search, entry)
    }

    /// The innermost entry of an environment is judged. Without one the default action runs.
    pub(crate) fn search_in(&mut self, search: SearchState, rest: Env) -> Told
        ensures searched { self.new ≡ searched search rest self.old }
        ensures told { result ≡ search_told search rest self.old }
    {
        match self.contexts.entry(rest) {
            Some(entry) => {
                let plain = self.loaded.is_plain(&self.heap, entry.selector);
                self.examine(plain, search, entry)
            }
            None => {
                self.mode = Mode::Begin(Work::TurnBy {
                    search,
                    entry: None,
                    outside: search.whole,
                });
                Told::Nothing
            }
        }
    }

    // A block without parameters is activated, and any other handler is applied to the exception.
    fn apply_handler(&mut self, handler: Value, exception: u32, env: Env)
        ensures { self.new ≡ handler_applied handler exception env self.old }
    {
        self.passed.clear();
        match self.fit(self.closure(handler)) {
            Some(closure) => {
                self.mode = Mode::Begin(Work::Activate { closure, env });
            }
            None => {
                self.passed.set_one(Value::Object(exception));
                self.mode = Mode::Begin(Work::Apply {
                    receiver: handler,
                    env,
                });
            }
        }
    }

    // The turn of a search stands, unless as many activations stand as may.
    fn stand_turn(&mut self, search: SearchState, entry: Option<u64>, outside: Env) -> Option<u64>
        ensures stood { self.new ≡ stood (Activation.HandlerRun (turn_for search entry outside)) outside self.old }
        ensures number { result ≡ stood_number self.old }
    {
        let turn = turn_for(search, entry, outside);
        self.stand(Activation::HandlerRun { turn }, outside)
    }

    // A turn runs the handler of an entry.
    fn handle(&mut self, search: SearchState, entry: u64, outside: Env) -> Told
        ensures handled { self.new ≡ handled search entry outside self.old }
        ensures told { result ≡ handled_told entry self.old }
    {
        let handler = handler_of(&self.contexts, entry);
        match self.stand_turn(search, Some(entry), outside) {
            Some(number) => {
                self.apply_handler(handler, search.exception, outside);
                Told::One(Event::Handle {
                    turn: number,
                    entry,
                })
            }
            None => {
                self.settle_with(Outcome::Stop(Limit::Depth));
                Told::Nothing
            }
        }
    }

    // A selector without arguments is sent.
    fn send_unary(&mut self, selector: u32, receiver: Value, env: Env)
        ensures { self.new ≡ sending selector receiver env self.old }
    {
        self.passed.clear();
        self.mode = Mode::Begin(Work::SendTo {
            selector,
            receiver,
            env,
        });
    }

    // A turn runs the default action.
    fn default(&mut self, search: SearchState, outside: Env) -> Told
        ensures defaulted { self.new ≡ defaulted search outside self.old }
        ensures told { result ≡ default_told self.old }
    {
        match self.stand_turn(search, None, outside) {
            Some(number) => {
                let selector = self.loaded.selector(b"defaultAction");
                self.send_unary(selector, Value::Object(search.exception), outside);
                Told::One(Event::Default(number))
            }
            None => {
                self.settle_with(Outcome::Stop(Limit::Depth));
                Told::Nothing
            }
        }
    }

    // A turn runs the handler of this entry or, where there is none, the default action.
    fn turn_at(&mut self, entry: Option<u64>, search: SearchState, outside: Env) -> Told
        ensures turned { self.new ≡ turned_at entry search outside self.old }
        ensures told { result ≡ turn_told_at entry self.old }
    {
        match entry {
            Some(entry) => self.handle(search, entry, outside),
            None => self.default(search, outside),
        }
    }

    /// The turn of a search begins. `isNested` answers instead whether there is an entry.
    pub(crate) fn turn_by(&mut self, search: SearchState, entry: Option<u64>, outside: Env) -> Told
        ensures turned { self.new ≡ turned search entry outside self.old }
        ensures told { result ≡ turn_told search entry self.old }
    {
        if asks_nested(search.purpose) {
            self.settle_with(Outcome::Answer(is_there(entry)));
            return Told::One(Event::Known);
        }
        self.turn_at(entry, search, outside)
    }

    /// The exception of this turn is asked whether it is resumable.
    pub(crate) fn ask(&mut self, wait: Wait, number: u64, turn: Turn, env: Env)
        ensures { self.new ≡ resumability_asked wait number turn env self.old }
    {
        match self.stand(Activation::ResumeWait { wait, number, turn }, env) {
            Some(_) => {
                let selector = self.loaded.selector(b"isResumable");
                self.send_unary(selector, Value::Object(turn.exception), env);
            }
            None => self.settle_with(Outcome::Stop(Limit::Depth)),
        }
    }
}
