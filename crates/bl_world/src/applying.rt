// The changes of an entry, applied where each fits in turn.
ghost use Rattle.std.specs.Prelude.{◌≡◌, true, All, IfOk};
ghost use Rattle.bl_entry.specs.Valid.{IsEntry};
ghost use Rattle.bl_graph.specs.Replay.{after, fit};
ghost use Rattle.bl_graph.specs.ValidChanges.{HasValidValues};
ghost use Rattle.bl_graph.specs.ValidGraph.{IsValidGraph};
ghost use Rattle.bl_value.specs.Valid.{IsChange};
ghost use Rattle.bl_world.specs.Worlds.{changes_of};

use bl_entry::Entry;
use bl_graph::{Graph, valid_changes_keep_values_valid};
use bl_outside::{List, NoMemory};
use bl_value::Change;

// Applies the changes up to the first that doesn't fit, and says whether each did.
fn apply_fitting(graph: &mut Graph, changes: &List<Change>) -> Result<bool, NoMemory>
    requires { All IsChange changes.now }
    ensures fit { IfOk result (λ each. each ≡ fit graph.old changes.now) }
    ensures after { result ≡ Ok true → graph.new ≡ after graph.old changes.now }
    ensures valid { IsValidGraph graph.old → IsValidGraph graph.new }
    ensures values { HasValidValues graph.old → HasValidValues graph.new }
{
    valid_changes_keep_values_valid();
    for change in changes.as_slice() {
        if !graph.fits(change) {
            return Ok(false);
        }
        graph.apply(change)?;
    }
    Ok(true)
}

/// Applies the changes of an entry up to the first that doesn't fit, and says whether each did.
pub fn begin_changes(graph: &mut Graph, entry: &Entry) -> Result<bool, NoMemory>
    requires { IsEntry entry.now }
    ensures fit { IfOk result (λ each. each ≡ fit graph.old (changes_of entry.now)) }
    ensures after { result ≡ Ok true → graph.new ≡ after graph.old (changes_of entry.now) }
    ensures valid { IsValidGraph graph.old → IsValidGraph graph.new }
    ensures values { HasValidValues graph.old → HasValidValues graph.new }
{
    match entry {
        Entry::Submit { .. } => Ok(true),
        Entry::Cancel { .. } => Ok(true),
        Entry::Start { .. } => Ok(true),
        Entry::Batch { changes, .. } => apply_fitting(graph, changes),
        Entry::FeedEnd { .. } => Ok(true),
    }
}
