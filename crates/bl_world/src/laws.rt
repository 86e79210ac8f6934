// Laws of the definitions. The functions do nothing: their contracts are the laws.
ghost use Rattle.bl_world.specs.Causes.{EndedJobsStay, JobsEndForOneCause};
ghost use Rattle.bl_world.specs.Worlds.{OneWorld, StreamsGiveGraphs, WorldsHaveJobs};

/// A list of entries leads to one world at most.
pub fn entries_lead_to_one_world()
    ensures { OneWorld }
{}

/// In every world the stream, replayed from empty, gives the graph.
pub fn streams_give_graphs()
    ensures { StreamsGiveGraphs }
{}

/// In every world the jobs are as they always are.
pub fn worlds_have_jobs()
    ensures { WorldsHaveJobs }
{}

/// A job that has ended stays as it is, as long as it is kept.
pub fn ended_jobs_stay()
    ensures { EndedJobsStay }
{}

/// A job ends for one cause, which the entry names that ends it: its cancel, its start, the end of
/// one of its files, or what ended a job that it depends on at one or more removes.
pub fn jobs_end_for_one_cause()
    ensures { JobsEndForOneCause }
{}
