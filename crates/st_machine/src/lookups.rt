// What a program finds for the selectors of handlers, and which values are exceptions.
ghost use Rattle.std.specs.Prelude.{◌≡◌};
ghost use Rattle.signal_env.specs.Own.{IsSelector};
ghost use Rattle.st_code.specs.Program.{number_of};
ghost use Rattle.st_code.specs.Lookup as code;
ghost use Rattle.st_machine.specs.Plans.{program_in};

use crate::loaded::Loaded;
use object_heap::{Heap, Value};
use signal_env::{fits, is_plain, selector_number};

const EXCEPTION: u32 = 23;

impl Loaded {
    /// The number of the selector of a built-in message.
    pub fn selector(&self, text: &[u8]) -> u32
        requires { IsSelector text.now }
        ensures { result ≡ number_of (program_in self.now) text.now }
    {
        selector_number(self.image(), text)
    }

    /// Whether a selector of `on:do:` answers `handles:` by a built-in message.
    pub fn is_plain<H: Heap>(&self, heap: &H, selector: Value) -> bool
        ensures { result ≡ code.is_plain (program_in self.now) (H.meaning heap.now).store selector }
    {
        let image = self.image();
        let handles = selector_number(image, b"handles:");
        is_plain(heap, image, handles, selector)
    }

    /// Whether a plain selector of `on:do:` fits exceptions of a class.
    pub fn fits<H: Heap>(&self, heap: &H, selector: Value, class: u32) -> bool
        ensures { result ≡ code.fits (program_in self.now) (H.meaning heap.now).store selector class }
    {
        fits(heap, self.image(), selector, class)
    }

    /// Whether a value is an exception.
    #[tactic(auto, unfolding(st_code::specs::Lookup::is_exception))]
    pub fn is_exception<H: Heap>(&self, heap: &H, value: Value) -> bool
        ensures { result ≡ code.is_exception (program_in self.now) (H.meaning heap.now).store value }
    {
        match value {
            Value::Object(number) => self.image().inherits(heap.class_of(number), EXCEPTION),
            _ => false,
        }
    }
}
