// Laws of the definitions. The functions do nothing: their contracts are the laws.
ghost use Rattle.bl_engine.specs.Openings.{NeverBad, OneJudgement};

use bl_entry::no_encoding_begins_another;
use bl_world::entries_lead_to_one_world;

/// A file leads to one world, or is at fault at one place.
pub fn files_are_judged_in_one_way()
    ensures { OneJudgement }
{
    no_encoding_begins_another();
    entries_lead_to_one_world();
}

/// An image that this program may have left is at fault nowhere.
pub fn left_files_are_never_bad()
    ensures { NeverBad }
{
    no_encoding_begins_another();
    entries_lead_to_one_world();
}
