// What a message does at once, as the machine goes on with it (ANSI NCITS 319, 3.3 and 5).
ghost use Rattle.std.specs.Prelude.{◌≡◌, ◌∷◌, []};
ghost use Rattle.st_collections.specs.Actions.{Guards, Ensures, Curtails};
ghost use Rattle.st_messages.specs.Replies.{passed_on, seen, written_text};
ghost use Rattle.st_machine.specs.Opening.{beginning, settling, stood_number};
ghost use Rattle.st_machine.specs.Passing.{passing_on};
ghost use Rattle.st_machine.specs.Performing.{message_sent, message_made, missed, guarded, answered_so, gone_on, gone_on_told, reply_written, said, said_told, said_written};
ghost use Rattle.st_machine.specs.Plans.{program_in};

use crate::machine::Machine;
use crate::signals::make_exception;
use crate::work::{Mode, Telling, Told, Work};
use object_heap::{Heap, Trouble, Value};
use st_collections::Built;
use st_contexts::{Activation, Env, Event, Limit, Outcome, Target};
use st_messages::{Passed, Reply, Written};

const ARRAY: u32 = 11;

const MESSAGE: u32 = 19;

const ZERO_DIVIDE: u32 = 25;

// What a reply writes to the Transcript.
fn written_in(reply: Reply) -> Written
    ensures { result ≡ reply_written reply }
{
    match reply {
        Reply::Writes(written, _) => written,
        _ => Written::Nothing,
    }
}

impl<H: Heap> Machine<H> {
    // A value is in hand.
    fn give(&mut self, value: Value) -> Told
        ensures given { self.new ≡ settling (Outcome.Answer value) self.old }
        ensures told { result ≡ Told.Nothing }
    {
        self.settle_with(Outcome::Answer(value));
        Told::Nothing
    }

    // A work begins with these values, where there is room for them.
    fn begin_two(&mut self, one: Value, two: Value, work: Work) -> Told
        ensures begun { self.new ≡ passing_on (one ∷ two ∷ []) (beginning work) self.old }
        ensures told { result ≡ Told.Nothing }
    {
        self.begin_with(&[one, two], work);
        Told::Nothing
    }

    // A work begins with the values that a reply names, where there is room for them.
    fn pass_on(&mut self, named: Passed, work: Work) -> Told
        ensures begun { self.new ≡ passing_on (passed_on self.old.memory.store self.old.passed.values named) (beginning work) self.old }
        ensures told { result ≡ Told.Nothing }
    {
        if self.passed.pass_on(&self.heap, named) {
            self.mode = Mode::Begin(work);
        } else {
            self.strand();
        }
        Told::Nothing
    }

    // An answer that is there at once.
    fn answer_with(&mut self, built: Built, env: Env) -> Told
        ensures answered { self.new ≡ answered_so built env self.old }
        ensures told { result ≡ Told.Nothing }
    {
        match built {
            Built::Value(value) => self.settle_with(Outcome::Answer(value)),
            Built::Trouble(trouble) => self.mode = Mode::Begin(Work::Fail { trouble, env }),
            Built::Cells { used: _, charge: _ } => self.settle_with(Outcome::Stop(Limit::Cells)),
            Built::IntegerLimit => self.settle_with(Outcome::Stop(Limit::Integer)),
            Built::OutOfMemory => self.strand(),
        }
        Told::Nothing
    }

    // The Message of a failed send goes to its receiver.
    fn send_message_made(&mut self, message: Option<u32>, receiver: Value, env: Env)
        ensures { self.new ≡ message_sent message receiver env self.old }
    {
        match message {
            Some(message) => {
                let work = Work::SendTo {
                    selector: self.loaded.selector(b"doesNotUnderstand:"),
                    receiver,
                    env,
                };
                self.begin_with(&[Value::Object(message)], work);
            }
            None => self.settle_with(Outcome::Stop(Limit::Cells)),
        }
    }

    // The Message of a failed send is made, once its Array is.
    fn make_message(&mut self, array: Option<u32>, selector: u32, receiver: Value, env: Env)
        ensures { self.new ≡ message_made array selector receiver env self.old }
    {
        match array {
            Some(array) => {
                let slots = [Value::Symbol(selector), Value::Object(array)];
                let message = make_exception(&mut self.heap, MESSAGE, 2, &slots);
                self.send_message_made(message, receiver, env);
            }
            None => self.settle_with(Outcome::Stop(Limit::Cells)),
        }
    }

    // Nothing answers a selector (section 3.3.1).
    fn miss(&mut self, selector: u32, receiver: Value, env: Env) -> Told
        ensures missed { self.new ≡ missed selector receiver self.old.passed.values env self.old }
        ensures told { result ≡ Told.Nothing }
    {
        let count = self.passed.count();
        let array = make_exception(&mut self.heap, ARRAY, count, self.passed.values());
        self.make_message(array, selector, receiver, env);
        Told::Nothing
    }

    // An activation stands, and a receiver is applied under it. Answers its number.
    fn guard(&mut self, kept: Activation, receiver: Value, inside: Env, env: Env) -> Option<u64>
        ensures guarded { self.new ≡ guarded kept receiver inside env self.old }
        ensures number { result ≡ stood_number self.old }
    {
        match self.stand(kept, env) {
            Some(number) => {
                self.passed.clear();
                self.mode = Mode::Begin(Work::Apply {
                    receiver,
                    env: inside,
                });
                Some(number)
            }
            None => {
                self.settle_with(Outcome::Stop(Limit::Depth));
                None
            }
        }
    }

    // `on:do:`.
    fn protect(&mut self, receiver: Value, selector: Value, handler: Value, env: Env) -> Told
        ensures gone_on { self.new ≡ gone_on (Guards receiver selector handler) env self.old }
        ensures told { result ≡ gone_on_told (Guards receiver selector handler) self.old }
    {
        let inside = Env(self.contexts.next_number());
        let kept = Activation::Protect {
            receiver,
            selector,
            handler,
        };
        match self.guard(kept, receiver, inside, env) {
            Some(number) => Told::One(Event::Protect(number)),
            None => Told::Nothing,
        }
    }

    // `ensure:`.
    fn ensure(&mut self, receiver: Value, block: Value, env: Env) -> Told
        ensures gone_on { self.new ≡ gone_on (Ensures receiver block) env self.old }
        ensures told { result ≡ gone_on_told (Ensures receiver block) self.old }
    {
        match self.guard(Activation::EnsureOn { block }, receiver, env, env) {
            Some(number) => Told::One(Event::Ensure(number)),
            None => Told::Nothing,
        }
    }

    // `ifCurtailed:`.
    fn curtail(&mut self, receiver: Value, block: Value, env: Env) -> Told
        ensures gone_on { self.new ≡ gone_on (Curtails receiver block) env self.old }
        ensures told { result ≡ gone_on_told (Curtails receiver block) self.old }
    {
        match self.guard(Activation::CurtailOn { block }, receiver, env, env) {
            Some(number) => Told::One(Event::Curtail(number)),
            None => Told::Nothing,
        }
    }

    // An exception that is there is signaled.
    fn raise_next(&mut self, exception: u32, env: Env) -> Told
        ensures raised { self.new ≡ beginning (Work.Raise exception env) self.old }
        ensures told { result ≡ Told.Nothing }
    {
        self.mode = Mode::Begin(Work::Raise { exception, env });
        Told::Nothing
    }

    // Goes on with what a message does at once.
    fn go_on(&mut self, reply: Reply, env: Env) -> Told
        ensures said { self.new ≡ said (seen (program_in self.old.plan) self.old.memory.store self.old.passed.values reply) env self.old }
        ensures told { result ≡ said_told (seen (program_in self.old.plan) self.old.memory.store self.old.passed.values reply) self.old }
    {
        match reply {
            Reply::Answer(built) => self.answer_with(built, env),
            Reply::DividesByZero(dividend) => {
                let text = self.loaded.trouble_text(Trouble::ZeroDivide);
                let class = ZERO_DIVIDE;
                self.begin_two(text, dividend, Work::RaiseNew { class, env })
            }
            Reply::Writes(_, value) => self.give(value),
            Reply::Begins(receiver, named) => self.pass_on(named, Work::Apply { receiver, env }),
            Reply::Activates(closure, named) => {
                self.pass_on(named, Work::Activate { closure, env })
            }
            Reply::Sends(selector, receiver, named) => {
                let work = Work::SendTo {
                    selector,
                    receiver,
                    env,
                };
                self.pass_on(named, work)
            }
            Reply::Misses(selector, receiver) => self.miss(selector, receiver, env),
            Reply::Enters(code, receiver) => {
                let work = Work::Enter {
                    code,
                    receiver,
                    env,
                };
                self.pass_on(Passed::All, work)
            }
            Reply::Guards(receiver, selector, handler) => {
                self.protect(receiver, selector, handler, env)
            }
            Reply::Ensures(receiver, block) => self.ensure(receiver, block, env),
            Reply::Curtails(receiver, block) => self.curtail(receiver, block, env),
            Reply::Iterates(kind, receiver) => self.iterate(kind, receiver, env),
            Reply::Raises(exception) => self.raise_next(exception, env),
            Reply::RaisesNew(class, named) => self.pass_on(named, Work::RaiseNew { class, env }),
            Reply::Controls(control, exception, value) => {
                self.control(control, exception, value, env)
            }
            Reply::Terminates(value) => self.unwind_next(Target::Terminate, value),
        }
    }

    /// Goes on with what a message does at once, and answers what that tells.
    pub fn say(&mut self, reply: Reply, env: Env) -> Telling
        ensures said { self.new ≡ said (seen (program_in self.old.plan) self.old.memory.store self.old.passed.values reply) env self.old }
        ensures told { result.events ≡ said_told (seen (program_in self.old.plan) self.old.memory.store self.old.passed.values reply) self.old }
        ensures written { written_text (program_in self.new.plan) self.new.memory.store result.written ≡ said_written (seen (program_in self.old.plan) self.old.memory.store self.old.passed.values reply) }
    {
        let written = written_in(reply);
        let events = self.go_on(reply, env);
        Telling { events, written }
    }
}
