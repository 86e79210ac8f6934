// The reply to a request.
ghost use Rattle.std.specs.Prelude.{◌≡◌};
ghost use Rattle.bl_session.specs.Replies.{ends, reply_bytes};

use bl_outside::Text;

/// The reply to a request, as bytes.
#[derive(Debug, Drop)]
pub enum Reply {
    Made {
        text: Text,
        /// The connection ends with it.
        close: bool,
    },
    /// No memory was there for a reply. It has a constant text, and the connection ends with it.
    MemoryOut,
}

const MEMORY_OUT: &str =
    "HTTP/1.1 500 Internal Server Error\r\ncontent-type: application/json\r\ncontent-length: 69\r\nconnection: close\r\n\r\n{\"code\":\"MemoryLimitExceededException\",\"detailedMessage\":\"no memory\"}";

impl Reply {
    /// The bytes that it sends. It takes no memory.
    pub fn as_slice(&self) -> &[u8]
        ensures { result.now ≡ reply_bytes self.now }
    {
        match self {
            Reply::Made { text, .. } => text.as_slice(),
            Reply::MemoryOut => MEMORY_OUT.as_bytes(),
        }
    }

    /// The connection ends with it.
    pub fn ends(&self) -> bool
        ensures { result ≡ ends self.now }
    {
        match self {
            Reply::Made { close, .. } => *close,
            Reply::MemoryOut => true,
        }
    }
}
