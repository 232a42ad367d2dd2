// What is begun.
ghost use Rattle.std.specs.Prelude.{◌≡◌};
ghost use Rattle.st_messages.specs.Replies.{written_text};
ghost use Rattle.st_machine.specs.Plans.{program_in};
ghost use Rattle.st_machine.specs.Works.{begun, begun_told, begun_written};

use crate::machine::Machine;
use crate::work::{Telling, Told, Work, events_alone};
use object_heap::{Closure, Heap, Value};
use st_contexts::{Env, Turn, Wait};

impl<H: Heap> Machine<H> {
    fn begin_apply(&mut self, receiver: Value, env: Env) -> Told
        ensures begun { self.new ≡ begun (Work.Apply receiver env) self.old }
        ensures told { result ≡ Told.Nothing }
    {
        self.apply(receiver, env);
        Told::Nothing
    }

    fn begin_activate(&mut self, closure: Closure, env: Env) -> Told
        ensures begun { self.new ≡ begun (Work.Activate closure env) self.old }
        ensures told { result ≡ Told.Nothing }
    {
        self.activate(closure, env);
        Told::Nothing
    }

    fn begin_enter(&mut self, code: u32, receiver: Value, env: Env) -> Told
        ensures begun { self.new ≡ begun (Work.Enter code receiver env) self.old }
        ensures told { result ≡ Told.Nothing }
    {
        self.enter(code, receiver, env);
        Told::Nothing
    }

    fn begin_ask(&mut self, wait: Wait, number: u64, turn: Turn, env: Env) -> Told
        ensures begun { self.new ≡ begun (Work.Ask wait number turn env) self.old }
        ensures told { result ≡ Told.Nothing }
    {
        self.ask(wait, number, turn, env);
        Told::Nothing
    }

    /// Begins a work, and answers what that tells.
    pub(crate) fn begin(&mut self, work: Work) -> Telling
        ensures begun { self.new ≡ begun work self.old }
        ensures told { result.events ≡ begun_told work self.old }
        ensures written { written_text (program_in self.new.plan) self.new.memory.store result.written ≡ begun_written work self.old }
    {
        match work {
            Work::Apply { receiver, env } => events_alone(self.begin_apply(receiver, env)),
            Work::SendValue { receiver, env } => self.send_value(receiver, env),
            Work::Activate { closure, env } => events_alone(self.begin_activate(closure, env)),
            Work::Enter {
                code,
                receiver,
                env,
            } => events_alone(self.begin_enter(code, receiver, env)),
            Work::SendTo {
                selector,
                receiver,
                env,
            } => self.send_to(selector, receiver, env),
            Work::SuperTo {
                class,
                selector,
                receiver,
                env,
            } => self.send_super_to(class, selector, receiver, env),
            Work::Fail { trouble, env } => events_alone(self.fail(trouble, env)),
            Work::Raise { exception, env } => events_alone(self.raise(exception, env)),
            Work::RaiseNew { class, env } => events_alone(self.raise_new(class, env)),
            Work::Search { search, rest } => events_alone(self.search_in(search, rest)),
            Work::TurnBy {
                search,
                entry,
                outside,
            } => events_alone(self.turn_by(search, entry, outside)),
            Work::Ask {
                wait,
                number,
                turn,
                env,
            } => events_alone(self.begin_ask(wait, number, turn, env)),
            Work::Visit {
                number: _,
                state,
                value,
                env,
            } => events_alone(self.visit(state, value, env)),
        }
    }
}
