// Each send has as many arguments as its selector takes.
ghost use Rattle.st_sends.specs.SendsFit.{SendsFit, SendsPass, SuperSendsPass};

/// At each small step of the flat machine's run of a program whose code sends with as many arguments
/// as selectors take, so does each send in hand, also those that the rules make by themselves; a
/// closure is activated with as many as its code has parameters, and a loop that begins or stands
/// has at most three. What a send to a receiver or to super does at once passes on as few: a loop's
/// arguments, those of another selector, of a closure, or those that came with it.
pub fn each_send_fits_its_selector()
    ensures runs { SendsFit }
    ensures sends { SendsPass }
    ensures supers { SuperSendsPass }
{}
