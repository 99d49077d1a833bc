// Where a step starts.
ghost use Rattle.model_table.specs.Held.{model_of};
ghost use Rattle.home.specs.Stands.{RightHome};
ghost use Rattle.zone_list.specs.Right.{home_prop};

use home::Home;
use model_table::ModelTable;

// What each plan needs: the table of a right model, and the location and queue order that the step leaves.
#[derive(Clone, Copy)]
pub(crate) struct Leaving<'a> {
    pub model: ModelTable<'a>,
    pub home: Home,
    ghost right_home: { RightHome (model_of model) home } by { home_prop (model_of model) home },
}
