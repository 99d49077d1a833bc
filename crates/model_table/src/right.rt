// A model's table that is right, as inner functions take it.
ghost use Rattle.model_table.specs.OneProof.{right_prop};
ghost use Rattle.model_table.specs.Right.{RightTable};

/// The table of a right model: each number is in its range, and each part where it is read.
#[derive(Clone, Copy)]
pub struct ModelTable<'a> {
    pub cells: &'a [u32],
    ghost right: { RightTable cells.now } by { right_prop cells.now },
}
