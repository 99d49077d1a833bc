// A refusal, by its reason and its place.
ghost use Rattle.std.specs.Prelude.{◌≡◌};

use refusals::{Reason, Refusal};

// Refused for this reason, at this place.
pub(crate) fn refused(reason: Reason, place: usize) -> Refusal
    ensures { result ≡ record { reason = reason; place = place } }
{
    Refusal { reason, place }
}
