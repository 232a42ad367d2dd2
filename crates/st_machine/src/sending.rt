// Sends (ANSI NCITS 319, 3.3).
ghost use Rattle.std.specs.Prelude.{◌≡◌};
ghost use Rattle.st_messages.specs.declared.reply.Written.{Written};
ghost use Rattle.st_messages.specs.Replies.{written_text};
ghost use Rattle.st_machine.specs.declared.work.Ending.{Ending};
ghost use Rattle.st_machine.specs.Opening.{stopped};
ghost use Rattle.st_machine.specs.Plans.{program_in};
ghost use Rattle.st_machine.specs.Settling.{ended};
ghost use Rattle.st_machine.specs.Sending.{value_in, sent, sent_told, sent_written, super_sent, super_sent_told, super_sent_written, value_sent};

use crate::machine::Machine;
use crate::work::{Telling, Told, events_alone};
use object_heap::{Heap, Value};
use st_contexts::{Env, Limit, Outcome};
use st_messages::{send_message, super_message};

impl<H: Heap> Machine<H> {
    // The step limit is reached.
    fn stop_steps(&mut self) -> Telling
        ensures stopped { self.new ≡ stopped Limit.Steps self.old }
        ensures told { result ≡ record { events = Told.Nothing; written = Written.Nothing } }
    {
        self.settle_with(Outcome::Stop(Limit::Steps));
        events_alone(Told::Nothing)
    }

    // The store isn't sound for a message.
    fn strand_silently(&mut self) -> Telling
        ensures stranded { self.new ≡ ended Ending.Stranded self.old }
        ensures told { result ≡ record { events = Told.Nothing; written = Written.Nothing } }
    {
        self.strand();
        events_alone(Told::Nothing)
    }

    /// Sends a selector with the values that are passed on, and answers what that tells.
    pub(crate) fn send_to(&mut self, selector: u32, receiver: Value, env: Env) -> Telling
        ensures sent { self.new ≡ sent selector receiver env self.old }
        ensures told { result.events ≡ sent_told selector receiver self.old }
        ensures written { written_text (program_in self.new.plan) self.new.memory.store result.written ≡ sent_written selector receiver self.old }
    {
        if !self.step() {
            return self.stop_steps();
        }
        let arguments = self.passed.values();
        match send_message(&mut self.heap, &self.loaded, selector, receiver, arguments) {
            Some(reply) => self.say(reply, env),
            None => self.strand_silently(),
        }
    }

    /// The same for a send to `super` in a body of this class or metaclass.
    pub(crate) fn send_super_to(
        &mut self,
        class: Value,
        selector: u32,
        receiver: Value,
        env: Env,
    ) -> Telling
        ensures sent { self.new ≡ super_sent class selector receiver env self.old }
        ensures told { result.events ≡ super_sent_told class selector receiver self.old }
        ensures written { written_text (program_in self.new.plan) self.new.memory.store result.written ≡ super_sent_written class selector receiver self.old }
    {
        if !self.step() {
            return self.stop_steps();
        }
        let arguments = self.passed.values();
        let heap = &mut self.heap;
        match super_message(heap, &self.loaded, class, selector, receiver, arguments) {
            Some(reply) => self.say(reply, env),
            None => self.strand_silently(),
        }
    }

    // The selector that sends so many values.
    fn value_selector(&self) -> u32
        ensures { result ≡ value_in self.now }
    {
        match self.passed.count() {
            0 => self.loaded.selector(b"value"),
            1 => self.loaded.selector(b"value:"),
            _ => self.loaded.selector(b"value:value:"),
        }
    }

    /// Sends `value` or its kin with the values that are passed on.
    pub(crate) fn send_value(&mut self, receiver: Value, env: Env) -> Telling
        ensures sent { self.new ≡ value_sent receiver env self.old }
        ensures told { result.events ≡ sent_told (value_in self.old) receiver self.old }
        ensures written { written_text (program_in self.new.plan) self.new.memory.store result.written ≡ sent_written (value_in self.old) receiver self.old }
    {
        let selector = self.value_selector();
        self.send_to(selector, receiver, env)
    }
}
