// Laws of the definitions. The functions do nothing: their contracts are the laws.
ghost use Rattle.bl_graph.specs.Admitted.{AdmissionKeepsValidity, ValidIsProper};
ghost use Rattle.bl_graph.specs.Replay.{IsOneFold};
ghost use Rattle.bl_graph.specs.ValidChanges.{RowsGiveValidChanges, ValidChangesKeepValues};
ghost use Rattle.bl_graph.specs.ValidGraph.{KeepsValidity};
ghost use Rattle.bl_graph.specs.WithRow.{TakesInOneWay};

/// Changes may be applied in parts: what two lists do, one after the other, is what one list does.
pub fn replay_is_one_fold()
    ensures { IsOneFold }
{}

/// A valid graph stays valid when changes are applied that fit, each in turn.
pub fn changes_that_fit_keep_validity()
    ensures { KeepsValidity }
{}

/// The rows that converting a record gives are proper: valid rows are.
pub fn valid_rows_are_proper()
    ensures { ValidIsProper }
{}

/// A valid graph stays valid when the changes of a proper row are applied.
pub fn proper_rows_keep_validity()
    ensures { AdmissionKeepsValidity }
{}

/// What a graph is once it has taken a row leaves nothing open: there is one such valid graph.
pub fn a_row_is_taken_in_one_way()
    ensures { TakesInOneWay }
{}

/// The changes of a valid row are valid where the values of the graph are: a removal carries one of
/// those.
pub fn valid_rows_give_valid_changes()
    ensures { RowsGiveValidChanges }
{}

/// Valid changes keep the values of a graph valid.
pub fn valid_changes_keep_values_valid()
    ensures { ValidChangesKeepValues }
{}
