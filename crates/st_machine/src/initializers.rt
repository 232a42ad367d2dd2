// The initializers of a program, one behind the other in file order.
ghost use Rattle.std.specs.Prelude.{◌≡◌};
ghost use Rattle.st_machine.specs.Initializers.{next_opened, target_by, target_on, kept_at, value_kept};

use crate::machine::Machine;
use crate::scopes::set_shared;
use crate::work::{Ending, Mode};
use object_heap::{Heap, Value};
use st_compiler::Initializer;
use st_contexts::Env;

// The variable that takes the value of an initializer.
fn target_by(initializer: Option<Initializer>) -> Option<u32>
    ensures { result ≡ target_by initializer }
{
    match initializer {
        Some(initializer) => initializer.target,
        None => None,
    }
}

impl<H: Heap> Machine<H> {
    /// The next initializer is opened, or the run is done.
    pub(crate) fn open_next(&mut self)
        ensures { self.new ≡ next_opened self.old }
    {
        match self.loaded.initializer(self.initializers) {
            Some(initializer) => {
                self.passed.clear();
                self.initializers += 1;
                self.enter(initializer.code, initializer.receiver, Env(0));
            }
            None => {
                self.mode = Mode::Ended(Ending::Done);
            }
        }
    }

    // The variable that takes the value of the initializer that is on.
    fn target_on(&self) -> Option<u32>
        ensures { result ≡ target_on self.now }
    {
        target_by(self.loaded.initializer(self.initializers.saturating_sub(1)))
    }

    /// The value of the initializer that is on is kept where it initializes a variable, and the
    /// next one is opened.
    pub(crate) fn keep_value(&mut self, value: Value)
        ensures { self.new ≡ value_kept value self.old }
    {
        match self.target_on() {
            Some(place) => set_shared(&mut self.variables, 0, place, value),
            None => (),
        }
        self.mode = Mode::Next;
    }
}
