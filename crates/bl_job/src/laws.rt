// Laws of the definitions. The functions do nothing: their contracts are the laws.
ghost use Rattle.bl_job.specs.Joined.{TwoBatchesAreOne};

/// How a list of rows is cut into batches makes no difference: two batches, one after the other,
/// are one batch of all their rows, where nothing stops the first.
pub fn two_batches_are_one()
    ensures { TwoBatchesAreOne }
{}
