// The bounds that the zone's author wrote.
ghost use Rattle.std.specs.Prelude.{Some};
ghost use Rattle.zone_bounds.specs.Narrowed.{Workable, Narrows};
ghost use Rattle.zone_bounds.specs.Entries.{bounds_in, Takable};

use crate::Entries;
use crate::narrowing::narrow;
use bounds::{Matrix, NONE};

// Each bound that is written, row by row.
pub(crate) fn written(m: Matrix, bounds: Entries) -> Option<Matrix>
    requires takable { Takable bounds }
    requires workable { Workable m }
    ensures { Narrows (bounds_in bounds) (Some m) result }
{
    let mut r = Some(m);
    for (k, &c) in bounds.iter().enumerate() {
        if c < NONE {
            r = narrow(r, k / 17, k % 17, c);
        }
    }
    r
}
