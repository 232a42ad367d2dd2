// What the code of collections and loops asks for is so in a sound store.
ghost use Rattle.st_sound.specs.Requests.{OrderedAreOpen, ReceiversStand, ValuesAreMeasured};

/// In a sound store no Interval has 2^127 elements or more, an OrderedCollection is no literal and
/// has room for its slots, and the receiver of a loop, where its class has the loop's message, is a
/// collection as the loop takes it.
pub fn a_sound_store_meets_each_request()
    ensures values { ValuesAreMeasured }
    ensures ordered { OrderedAreOpen }
    ensures receivers { ReceiversStand }
{}
