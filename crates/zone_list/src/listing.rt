// The list of steps of each zone with one location and queue order, of a model.
ghost use Rattle.model_table.specs.Held.{model_of};
ghost use Rattle.home.specs.Stands.{RightHome};
ghost use Rattle.zone_list.specs.Right.{home_prop};

use home::Home;
use model_table::ModelTable;

// What each function of the list needs: the table of a right model, and a location and queue order of the model.
#[derive(Clone, Copy)]
pub(crate) struct Listing<'a> {
    pub table: ModelTable<'a>,
    pub home: Home,
    ghost right_home: { RightHome (model_of table) home } by { home_prop (model_of table) home },
}

impl<'a> Listing<'a> {
    ghost use Rattle.std.specs.Prelude.{◌≡◌};

    pub(crate) fn new(model: &ModelTable<'a>, home: Home) -> Self
        requires { RightHome (model_of model.now) home }
        ensures { (result.table ≡ model.now) × (result.home ≡ home) }
    {
        Listing {
            table: *model,
            home,
        }
    }
}
