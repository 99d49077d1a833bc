// An edge: its guard holds of the clocks before the resets.
ghost use Rattle.std.specs.Prelude.{◌≤◌, Some};
ghost use Rattle.meaning.specs.Text.ModelTable.{edges};
ghost use Rattle.model_table.specs.Parts.{guard_of};
ghost use Rattle.zone_bounds.specs.Narrowed.{Workable, Narrows};

use crate::stepping::Stepping;
use bounds::Matrix;
use model_table::bound;
use zone_bounds::narrow;

impl Stepping<'_> {
    // Each bound of the edge's guard, row by row.
    pub(crate) fn guard(self, m: Matrix, edge: u32) -> Option<Matrix>
        requires le_edge { (1 ≤ edge) × (edge ≤ edges self.model.cells.now) }
        requires workable { Workable m }
        ensures { Narrows (guard_of self.entry.model.cells.now edge) (Some m) result }
    {
        let mut r = Some(m);
        for x in 0u32..25 {
            let i = x / 5;
            let j = x % 5;
            if let Some(c) = bound(self.model.cells, edge, i, j) {
                r = narrow(r, i as usize, j as usize, c);
            }
        }
        r
    }
}
