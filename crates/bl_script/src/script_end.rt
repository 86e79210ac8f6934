// How a script ends.
use bl_load::TurnFault;

/// How the input of a script ended, and what became of it.
#[derive(Clone, Copy, Debug, PartialEq, Eq)]
pub enum ScriptEnd {
    /// The input ended behind a request, or a reply closed it. Then turns were made until one found
    /// no work or was refused. The refusal is that of the first turn of the script that was.
    Drained(Option<TurnFault>),
    /// The input ended inside a request.
    Torn,
    /// 1 TiB was taken of the input.
    TooLong,
}
