// What a unit breaks.
ghost use Rattle.std.specs.Prelude.{◌≡◌, true};
ghost use Rattle.st_checks.specs.Faults.{fault_in};
ghost use Rattle.st_checks.specs.StaticRules.{as_whole, in_body};

use st_base::Reason;

/// A rule that a unit breaks: at a byte of its body, or as a whole.
#[derive(Clone, Copy, Debug, PartialEq, Eq)]
pub(crate) struct Broken {
    pub(crate) reason: Reason,
    pub(crate) body_byte: Option<u32>,
}

/// The unit as a whole breaks the rule, where the condition holds.
pub(crate) fn whole_if(broken: bool, reason: Reason) -> Option<Broken>
    ensures { fault_in result ≡ (as_whole reason broken) }
{
    if broken {
        return Some(Broken {
            reason,
            body_byte: None,
        });
    }
    None
}

/// The unit as a whole breaks the rule.
pub(crate) fn whole(reason: Reason) -> Option<Broken>
    ensures { fault_in result ≡ (as_whole reason true) }
{
    whole_if(true, reason)
}

/// A name of the unit's body breaks the rule, where there is one.
pub(crate) fn in_body(byte: Option<u32>, reason: Reason) -> Option<Broken>
    ensures { fault_in result ≡ (in_body reason byte) }
{
    match byte {
        Some(_) => Some(Broken {
            reason,
            body_byte: byte,
        }),
        None => None,
    }
}
