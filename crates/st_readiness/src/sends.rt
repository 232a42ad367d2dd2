// What sends find and do in a sound store.
ghost use Rattle.st_readiness.specs.Readiness.{FoundIsReady, SendsStand, SuperFoundIsReady, SuperSendsStand};

/// In a sound store what a send finds is ready: no Interval among the receiver and the first
/// argument has 2^127 elements or more, and an OrderedCollection that it changes is no literal and
/// has room for its slots. So it is of what a send to super finds, where self is of the class that
/// the body is written in.
pub fn what_is_found_is_ready()
    ensures sends { FoundIsReady }
    ensures supers { SuperFoundIsReady }
{}

/// In a sound store with closures of the classes that their codes are written in, what a send does
/// at once leaves a sound store, activates such a closure, makes an exception that is neither
/// Dictionary nor Interval, or begins a loop that stands well; and so does a send to super, where
/// self is of the class that the body is written in.
pub fn what_a_send_does_stands()
    ensures sends { SendsStand }
    ensures supers { SuperSendsStand }
{}
