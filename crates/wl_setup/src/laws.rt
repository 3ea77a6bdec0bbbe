//! Laws of a plan text's faults, as contracts of functions with an empty body.

ghost use Rattle.wl_setup.specs.Reading.{TomlHasNoDocument};
ghost use Rattle.wl_setup.specs.Document.{OnlyDocumentFaults};
ghost use Rattle.wl_setup.specs.Buses.{BusesAreOfPlans};

/// Law: `Toml` is answered to a text that is no document, and a document's own faults are those of the
/// version, of keys and of names.
pub fn faults_of_texts()
    ensures toml { TomlHasNoDocument }
    ensures document { OnlyDocumentFaults }
{}

/// Law: the bus of a text is refused exactly as its plan is. A bus that is made has that plan, and a deviation and a name for each node.
pub fn buses_of_plans()
    ensures { BusesAreOfPlans }
{}
