// Laws of the definitions. The functions do nothing: their contracts are the laws.
ghost use Rattle.bl_chain.specs.Chains.{UnchangedStands};
ghost use Rattle.bl_chain.specs.EarlierLoads.{
  NoBatchesBehind,
  PreviousLoadsHaveEnded,
  StartedJobsAreSatisfied,
};
ghost use Rattle.bl_chain.specs.Folders.{FilesAreFolders, ListingsAreTables};
ghost use Rattle.bl_chain.specs.Frontiers.{NextRowsAreNextLines};
ghost use Rattle.bl_chain.specs.GrownStores.{StoresGrow};
ghost use Rattle.bl_chain.specs.Loads.{BatchIsPart, TwoPartsAreOne};
ghost use Rattle.bl_chain.specs.MadeEntries.{TurnsAreMade};
ghost use Rattle.bl_chain.specs.NextEntries.{OneTurn};
ghost use Rattle.bl_chain.specs.Resumption.{LoadsResume, OneEntryMore};
ghost use Rattle.bl_chain.specs.UncutLoads.{UncutGoesOn, UncutLoadsResume};
ghost use Rattle.bl_chain.specs.WholeEnds.{UncutEndsWhole};

/// The lines of a load may be taken in parts.
pub fn two_parts_are_one_load()
    ensures { TwoPartsAreOne }
{}

/// A batch that isn't stopped is a part of the load.
pub fn batches_are_parts()
    ensures { BatchIsPart }
{}

/// The next rows of the first file that isn't whole are the next lines.
pub fn next_rows_are_next_lines()
    ensures { NextRowsAreNextLines }
{}

/// A load over unchanged files comes to what one uninterrupted load comes to.
pub fn unchanged_stands()
    ensures { UnchangedStands }
{}

/// One that wasn't cut off ends as one uninterrupted load.
pub fn uncut_ends_whole()
    ensures { UncutEndsWhole }
{}

/// Told files are one list of files for each source.
pub fn files_are_folders()
    ensures { FilesAreFolders }
{}

/// What is listed at a path is what is there.
pub fn listings_are_tables()
    ensures { ListingsAreTables }
{}

/// In a world a turn has one entry at most.
pub fn turns_have_one_entry()
    ensures { OneTurn }
{}

/// The entry of a turn is made over the files.
pub fn turns_are_made()
    ensures { TurnsAreMade }
{}

/// One entry more, made over the same files, keeps a load unchanged.
pub fn entries_keep_unchanged()
    ensures { OneEntryMore }
{}

/// A load that was stopped, cancelled and resumed over the same files comes to what one
/// uninterrupted load comes to.
pub fn loads_resume()
    ensures { LoadsResume }
{}

/// One entry more, made over the same files, keeps a load uncut that it doesn't cut off.
pub fn uncut_goes_on()
    ensures { UncutGoesOn }
{}

/// A load that was stopped and resumed over the same files, and wasn't cut off, ends as one
/// uninterrupted load.
pub fn uncut_loads_resume()
    ensures { UncutLoadsResume }
{}

/// A store that has grown by calls grows by one more of them.
pub fn stores_grow()
    ensures { StoresGrow }
{}

/// The load that one goes on from has ended.
pub fn previous_loads_have_ended()
    ensures { PreviousLoadsHaveEnded }
{}

/// No batch of it stands behind the start of one that goes on from it.
pub fn no_batches_stand_behind()
    ensures { NoBatchesBehind }
{}

/// A job that was started doesn't end because of another.
pub fn started_jobs_are_satisfied()
    ensures { StartedJobsAreSatisfied }
{}
