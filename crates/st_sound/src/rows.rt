// The built-in messages that lookups find are for their receivers.
ghost use Rattle.st_sound.specs.RowsFit.{RowsFit, SendsAreReady, SuperRowsFit, SuperSendsAreReady};

/// What a send finds for an OrderedCollection, a Set or a Dictionary alone is found by such a
/// receiver, and what makes a sequence like its receiver, or writes an element, by no Dictionary or
/// Interval; and so is what a send to super finds, where self is of the class that the body is
/// written in. So in a sound store the receiver of a row that changes an OrderedCollection, or of a
/// loop, is as the code of the row asks.
pub fn what_is_found_fits_its_receiver()
    ensures sends { RowsFit }
    ensures supers { SuperRowsFit }
    ensures ready { SendsAreReady }
    ensures super_ready { SuperSendsAreReady }
{}
