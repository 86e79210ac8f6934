// Laws of the definitions. The functions do nothing: their contracts are the laws.
ghost use Rattle.std.specs.Prelude.{◌≡◌, List};
ghost use Rattle.bl_files.specs.Carried.{AreCarried};
ghost use Rattle.bl_files.specs.declared.feed.Feed.{Feed};
ghost use Rattle.bl_files.specs.declared.found.Found.{Found};

/// There is one list of the feeds of a new job, so `TooMany` is answered where there are too many
/// and nowhere else.
pub fn carried_feeds_are_one_list()
    ensures { (previous : List Feed) (found : List Found) (a b : List Feed)
        → AreCarried previous found a → AreCarried previous found b → a ≡ b }
{}
