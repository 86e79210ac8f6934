// Where the connections of a port come from. It tells no content.
use crate::TcpLink;
use bl_outside::{Failed, Listener, NoMemory, Outside};
use std::io::ErrorKind;
use std::net::{Ipv4Addr, Net, SocketAddr, TcpListener, TcpStream};
use std::time::Duration;

/// How long a peer may be silent, and how long a request may take to come. In seconds.
pub const PATIENCE: u64 = 60;

// The next connection, again where a signal cut the wait short or a peer was gone by then.
fn next_stream(listener: &TcpListener) -> Result<TcpStream, Failed> {
    for _ in 0..u64::MAX {
        match listener.accept() {
            Ok((stream, _)) => return Ok(stream),
            Err(e)
                if e.kind() == ErrorKind::Interrupted || e.kind() == ErrorKind::ConnectionAborted =>
                {}
            Err(_) => return Err(Failed),
        }
    }
    Err(Failed)
}

/// The connections that come to a port of this machine. Where the port could not be had, each
/// `accept` fails.
#[derive(Drop)]
pub struct TcpConnections<R: std::rt::Clock + Copy + Drop> {
    system: R,
    listener: Option<TcpListener>,
    faults: u64,
}

impl<R: std::rt::Clock + Copy + Drop> TcpConnections<R> {
    /// Listens on a port of 127.0.0.1; 0 stands for any that is free.
    pub fn open<N: Net<Listener = TcpListener, Stream = TcpStream>>(
        net: &N,
        system: R,
        port: u16,
    ) -> TcpConnections<R> {
        let address = SocketAddr::from((Ipv4Addr::LOCALHOST, port));
        TcpConnections {
            system,
            listener: TcpListener::bind(net, address).ok(),
            faults: 0,
        }
    }

    /// The same port with a count of faults of its own.
    pub fn another(&self) -> TcpConnections<R> {
        let listener = match &self.listener {
            Some(listener) => listener.try_clone().ok(),
            None => None,
        };
        TcpConnections {
            system: self.system,
            listener,
            faults: 0,
        }
    }

    /// The port that it listens on.
    pub fn port(&self) -> Option<u16> {
        match &self.listener {
            Some(listener) => Some(listener.local_addr().ok()?.port()),
            None => None,
        }
    }

    fn next(&self) -> Result<TcpLink<R>, Failed> {
        let Some(listener) = &self.listener else {
            return Err(Failed);
        };
        let stream = next_stream(listener)?;
        // A reply is put in few pieces, so none should wait for more.
        let _ = stream.set_nodelay(true);
        Ok(TcpLink::new(self.system, stream, Duration::from_secs(PATIENCE)))
    }
}

impl<R: std::rt::Clock + Copy + Drop> Listener for TcpConnections<R> {
    ghost use Rattle.std.specs.Prelude.{None};

    type Conn = TcpLink<R>;

    ghost coming = { λ _. None };

    ghost retired = { λ _. None };

    ghost faults = { λ listener. listener.faults };

    fn accept(&mut self) -> Result<TcpLink<R>, Outside> {
        match self.next() {
            Ok(link) => Ok(link),
            Err(Failed) => {
                self.faults = self.faults.saturating_add(1);
                Err(Outside::Failed)
            }
        }
    }

    // The connection is closed.
    fn retire(&mut self, conn: TcpLink<R>) -> Result<(), NoMemory> {
        let _ = conn;
        Ok(())
    }
}
