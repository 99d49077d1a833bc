// Where the steps start.
ghost use Rattle.model_table.specs.Held.{model_of};
ghost use Rattle.home.specs.Stands.{RightHome};
ghost use Rattle.zone_list.specs.Right.{home_prop};

use home::Home;
use model_table::ModelTable;

// A location and queue order of a right model.
#[derive(Clone, Copy)]
pub(crate) struct Stepping<'a> {
    pub model: ModelTable<'a>,
    pub home: Home,
    ghost right_home: { RightHome (model_of model) home } by { home_prop (model_of model) home },
}
