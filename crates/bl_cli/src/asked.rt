// What the words ask for.
use bl_files::LoadRequest;

/// A load that is asked for.
#[derive(Debug, Drop)]
pub struct Asked {
    pub request: LoadRequest,
    /// The changes are to be printed.
    pub changes: bool,
}
