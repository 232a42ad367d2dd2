// How exceptions come to be signaled (ANSI NCITS 319, 5.5).
ghost use Rattle.std.specs.Prelude.{◌≡◌, false, IsTrue};
ghost use Rattle.object_heap.specs.Charges.{with_store};
ghost use Rattle.st_machine.specs.Signals.{slots_put, signal_search, raised_by, raise_told_by, raised, raise_told, if_object, exception_made, signal_made, made_told, raised_new, raise_new_told, failed, fail_told};

use crate::machine::Machine;
use crate::operands::argument;
use crate::work::{Mode, Told, Work};
use object_heap::{Heap, Trouble, Value};
use signal_env::is_live;
use st_contexts::{Activation, Env, Event, Limit, Outcome, Purpose, SearchState};

const ERROR: u32 = 24;

// The search of a signal with this number.
fn signal_search(number: u64, exception: u32, env: Env) -> SearchState
    ensures { result ≡ signal_search number exception env }
{
    SearchState {
        exception,
        who: number,
        whole: env,
        purpose: Purpose::Signal,
    }
}

// Writes so many slots: the value in each place, or nil.
fn put_slots<H: Heap>(heap: &mut H, object: u32, count: u32, values: &[Value])
    ensures { H.meaning heap.new ≡ with_store (slots_put count values.now object 0 (H.meaning heap.old).store) (H.meaning heap.old) }
{
    for slot in 0..count {
        heap.put(object, slot, argument(values, slot as usize));
    }
}

// A new exception, with these values in its first slots, or None where its cells would pass the
// limit.
pub(crate) fn make_exception<H: Heap>(
    heap: &mut H,
    class: u32,
    count: u32,
    values: &[Value],
) -> Option<u32>
    requires { IsTrue H.reserved }
    ensures made { H.meaning heap.new ≡ exception_made class count values.now (H.meaning heap.old) }
    ensures number { result ≡ if_object count (H.meaning heap.old) }
{
    match heap.make(class, count, 0) {
        Ok(object) => {
            put_slots(heap, object, count, values);
            Some(object)
        }
        Err(_) => None,
    }
}

impl<H: Heap> Machine<H> {
    // A signal stands, and its search begins.
    fn signal(&mut self, exception: u32, env: Env) -> Told
        ensures signaled { self.new ≡ raised_by false exception env self.old }
        ensures told { result ≡ raise_told_by false self.old }
    {
        match self.stand(Activation::Signal { exception }, env) {
            Some(number) => {
                self.search(signal_search(number, exception, env));
                Told::Two(Event::Signal(number), Event::Search(number))
            }
            None => {
                self.settle_with(Outcome::Stop(Limit::Depth));
                Told::Nothing
            }
        }
    }

    /// Signals an exception that is there, unless a signal of it stands.
    pub(crate) fn raise(&mut self, exception: u32, env: Env) -> Told
        ensures raised { self.new ≡ raised exception env self.old }
        ensures told { result ≡ raise_told exception self.old }
    {
        if is_live(&self.contexts, exception) {
            self.mode = Mode::Begin(Work::Fail {
                trouble: Trouble::AlreadySignaled,
                env,
            });
            return Told::Nothing;
        }
        self.signal(exception, env)
    }

    // The signal that stands gets its exception, if that was made.
    fn signal_made(&mut self, exception: Option<u32>, number: u64, env: Env) -> Told
        ensures signaled { self.new ≡ signal_made exception number env self.old }
        ensures told { result ≡ made_told exception number }
    {
        match exception {
            Some(exception) => {
                self.contexts.keep(Activation::Signal { exception });
                self.search(signal_search(number, exception, env));
                Told::Two(Event::Signal(number), Event::Search(number))
            }
            None => {
                self.leave(Outcome::Stop(Limit::Cells));
                Told::One(Event::Signal(number))
            }
        }
    }

    /// Signals a new exception of this class. The values that are passed on are its first slots.
    pub(crate) fn raise_new(&mut self, class: u32, env: Env) -> Told
        ensures raised { self.new ≡ raised_new class env self.old }
        ensures told { result ≡ raise_new_told class self.old }
    {
        match self.stand(Activation::Signal { exception: 0 }, env) {
            Some(number) => {
                let count = self.loaded.slots(class);
                let values = self.passed.values();
                let made = make_exception(&mut self.heap, class, count, values);
                self.signal_made(made, number, env)
            }
            None => {
                self.settle_with(Outcome::Stop(Limit::Depth));
                Told::Nothing
            }
        }
    }

    /// Signals an Error with the text of a trouble.
    pub(crate) fn fail(&mut self, trouble: Trouble, env: Env) -> Told
        ensures failed { self.new ≡ failed trouble env self.old }
        ensures told { result ≡ fail_told self.old }
    {
        match self.stand(Activation::Signal { exception: 0 }, env) {
            Some(number) => {
                let count = self.loaded.slots(ERROR);
                let text = self.loaded.trouble_text(trouble);
                let made = make_exception(&mut self.heap, ERROR, count, &[text]);
                self.signal_made(made, number, env)
            }
            None => {
                self.settle_with(Outcome::Stop(Limit::Depth));
                Told::Nothing
            }
        }
    }
}
