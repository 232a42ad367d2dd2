// What a handler tells its exception to do (ANSI NCITS 319, 5.5).
ghost use Rattle.std.specs.Prelude.{◌≡◌, true};
ghost use Rattle.signal_env.specs.Turns.{live_in};
ghost use Rattle.st_messages.specs.Replies.{control_row};
ghost use Rattle.st_machine.specs.Opening.{settling, beginning};
ghost use Rattle.st_machine.specs.Settling.{search_of, searching};
ghost use Rattle.st_machine.specs.Controls.{resignaled, resignaled_as, controlled_by, control_told_by, controlled_without, controlled_in, control_told_in, controlled, control_told};

use crate::machine::Machine;
use crate::settling::search_of;
use crate::work::{Mode, Told, Work};
use object_heap::{Heap, Trouble, Value};
use signal_env::{innermost_turn, is_live};
use st_contexts::{Env, Event, Outcome, Purpose, Target, Turn, Wait};
use st_messages::Control;

impl<H: Heap> Machine<H> {
    fn fail_next(&mut self, trouble: Trouble, env: Env) -> Told
        ensures failed { self.new ≡ beginning (Work.Fail trouble env) self.old }
        ensures told { result ≡ Told.Nothing }
    {
        self.mode = Mode::Begin(Work::Fail { trouble, env });
        Told::Nothing
    }

    pub(crate) fn unwind_next(&mut self, target: Target, value: Value) -> Told
        ensures gone { self.new ≡ settling (Outcome.Go target value) self.old }
        ensures told { result ≡ Told.Nothing }
    {
        self.mode = Mode::Settle(Outcome::Go(target, value));
        Told::Nothing
    }

    fn ask_next(&mut self, wait: Wait, number: u64, turn: Turn, env: Env) -> Told
        ensures asked { self.new ≡ beginning (Work.Ask wait number turn env) self.old }
        ensures told { result ≡ Told.Nothing }
    {
        self.mode = Mode::Begin(Work::Ask {
            wait,
            number,
            turn,
            env,
        });
        Told::Nothing
    }

    // A search begins outside a turn.
    fn search_outside(&mut self, number: u64, turn: Turn, purpose: Purpose) -> Told
        ensures searching { self.new ≡ searching (search_of number turn purpose) self.old }
        ensures told { result ≡ Told.One (Event.Search number) }
    {
        self.search(search_of(number, turn, purpose));
        Told::One(Event::Search(number))
    }

    // Another exception is signaled in place of a turn's, unless a signal of it stands.
    fn resignal(&mut self, turn: Turn, other: u32, env: Env) -> Told
        ensures resignaled { self.new ≡ resignaled true (live_in other self.old.stack.acts) turn other env self.old }
        ensures told { result ≡ Told.Nothing }
    {
        if is_live(&self.contexts, other) {
            return self.fail_next(Trouble::AlreadySignaled, env);
        }
        let target = Target::Resignal {
            signal: turn.signal,
            exception: other,
        };
        self.unwind_next(target, Value::Object(other))
    }

    fn resignal_object(&mut self, turn: Turn, other: u32, env: Env) -> Told
        ensures resignaled { self.new ≡ resignaled_as turn (Value.Object other) env self.old }
        ensures told { result ≡ Told.Nothing }
    {
        if self.loaded.is_exception(&self.heap, Value::Object(other)) {
            return self.resignal(turn, other, env);
        }
        self.fail_next(Trouble::ExceptionExpected, env)
    }

    fn resignal_as(&mut self, turn: Turn, value: Value, env: Env) -> Told
        ensures resignaled { self.new ≡ resignaled_as turn value env self.old }
        ensures told { result ≡ Told.Nothing }
    {
        match value {
            Value::Object(other) => self.resignal_object(turn, other, env),
            _ => self.fail_next(Trouble::ExceptionExpected, env),
        }
    }

    // A turn that runs the handler of this entry.
    fn control_by(
        &mut self,
        control: Control,
        value: Value,
        number: u64,
        turn: Turn,
        entry: u64,
        env: Env,
    ) -> Told
        ensures controlled { self.new ≡ controlled_by (control_row control) value number turn entry env self.old }
        ensures told { result ≡ control_told_by (control_row control) number }
    {
        match control {
            Control::Return => self.unwind_next(Target::Protected(entry), value),
            Control::Retry => self.unwind_next(Target::Retry(entry), Value::Nil),
            Control::RetryUsing => self.unwind_next(Target::RetryWith(entry), value),
            Control::Resume => self.ask_next(Wait::Resume { value }, number, turn, env),
            Control::Pass => self.search_outside(number, turn, Purpose::Pass { turn }),
            Control::Outer => self.ask_next(Wait::Outer, number, turn, env),
            Control::ResignalAs => self.resignal_as(turn, value, env),
            Control::IsNested => self.search_outside(number, turn, Purpose::IsNested),
        }
    }

    // A turn that runs a default action.
    fn control_without(
        &mut self,
        control: Control,
        value: Value,
        number: u64,
        turn: Turn,
        env: Env,
    ) -> Told
        ensures controlled { self.new ≡ controlled_without (control_row control) value number turn env self.old }
        ensures told { result ≡ Told.Nothing }
    {
        match control {
            Control::Resume => self.ask_next(Wait::Resume { value }, number, turn, env),
            _ => self.fail_next(Trouble::NotActive, env),
        }
    }

    fn control_in(
        &mut self,
        control: Control,
        value: Value,
        number: u64,
        turn: Turn,
        env: Env,
    ) -> Told
        ensures controlled { self.new ≡ controlled_in turn.entry (control_row control) value number turn env self.old }
        ensures told { result ≡ control_told_in turn.entry (control_row control) number }
    {
        match turn.entry {
            Some(entry) => self.control_by(control, value, number, turn, entry, env),
            None => self.control_without(control, value, number, turn, env),
        }
    }

    /// What the innermost turn of an exception, by the number of its object, is told with a value.
    pub(crate) fn control(
        &mut self,
        control: Control,
        exception: u32,
        value: Value,
        env: Env,
    ) -> Told
        ensures controlled { self.new ≡ controlled (control_row control) exception value env self.old }
        ensures told { result ≡ control_told (control_row control) exception self.old }
    {
        match innermost_turn(&self.contexts, exception) {
            Some(found) => self.control_in(control, value, found.number, found.turn, env),
            None => self.fail_next(Trouble::NotActive, env),
        }
    }
}
