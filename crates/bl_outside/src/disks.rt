// The disks of one store.

/// The three disks of a store: the journal and two slots for snapshots.
#[derive(Drop)]
pub struct Disks<D> {
    pub journal: D,
    pub left: D,
    pub right: D,
}
