// Connections of sockets on this machine.
use bl_outside::{Failed, Link, Listener, Outside, Sink, Source};
use bl_system::{TcpConnections, TcpLink};
use std::io::{Read, Write};
use std::net::{Ipv4Addr, Net, SocketAddr, TcpListener, TcpStream};
use std::time::Duration;

// A peer of the port.
fn peer<N: Net<Listener = TcpListener, Stream = TcpStream>>(
    net: &N,
    port: Option<u16>,
) -> Option<TcpStream> {
    let address = SocketAddr::from((Ipv4Addr::LOCALHOST, port?));
    TcpStream::connect(net, address).ok()
}

// Takes so many bytes at most, one at a time: how many there were.
fn taken<L: Link>(link: &mut L, room: &mut [u8; 8], wanted: usize) -> Result<usize, Failed> {
    let mut count = 0usize;
    for place in room.iter_mut().take(wanted) {
        let mut byte = [0u8];
        if link.take(&mut byte)? == 0 {
            return Ok(count);
        }
        *place = byte[0];
        count = count.saturating_add(1);
    }
    Ok(count)
}

#[test]
fn bytes_go_both_ways_and_the_end_of_a_peer_is_the_end(rt: HostRuntime) {
    let mut listener = TcpConnections::open(&rt, rt, 0);
    let Some(mut peer) = peer(&rt, listener.port()) else {
        assert!(rt; false);
        return;
    };
    let Ok(mut link) = listener.accept() else {
        assert!(rt; false);
        return;
    };
    let mut room = [0u8; 8];
    assert!(rt; peer.write_all(b"ask").is_ok());
    assert!(rt; taken(&mut link, &mut room, 3) == Ok(3));
    assert!(rt; room.starts_with(b"ask"));
    assert!(rt; link.put(b"answer").is_ok());
    let mut answer = [0u8; 6];
    assert!(rt; peer.read_exact(&mut answer).is_ok());
    assert!(rt; answer == *b"answer");
    drop(peer);
    let mut rest = [0u8; 8];
    assert!(rt; link.take(&mut rest) == Ok(0));
    assert!(rt; listener.retire(link).is_ok());
}

// A connection with little patience, and its peer.
fn impatient<R: Net<Listener = TcpListener, Stream = TcpStream> + std::rt::Clock + Copy + Drop>(
    system: R,
) -> Option<(TcpLink<R>, TcpStream)> {
    let address = SocketAddr::from((Ipv4Addr::LOCALHOST, 0u16));
    let listener = TcpListener::bind(&system, address).ok()?;
    let peer = TcpStream::connect(&system, listener.local_addr().ok()?).ok()?;
    let (stream, _) = listener.accept().ok()?;
    Some((
        TcpLink::new(system, stream, Duration::from_millis(40)),
        peer,
    ))
}

#[test]
fn a_peer_that_is_silent_for_too_long_is_a_fault(rt: HostRuntime) {
    let Some((mut link, peer)) = impatient(rt) else {
        assert!(rt; false);
        return;
    };
    let mut room = [0u8; 8];
    assert!(rt; link.take(&mut room) == Err(Failed));
    // Its time is over, whatever comes later.
    assert!(rt; link.take(&mut room) == Err(Failed));
    drop(peer);
}

// Sends a byte at a time, and takes it, until the link has had enough. How many were taken.
fn trickle<R: std::rt::Clock + Drop>(link: &mut TcpLink<R>, peer: &mut TcpStream) -> Option<u64> {
    let mut room = [0u8; 8];
    for count in 0..10_000_000 {
        if peer.write_all(b"x").is_err() {
            return None;
        }
        if link.take(&mut room).is_err() {
            return Some(count);
        }
    }
    None
}

#[test]
fn a_request_that_trickles_for_too_long_is_a_fault_and_a_reply_begins_anew(rt: HostRuntime) {
    let Some((mut link, mut peer)) = impatient(rt) else {
        assert!(rt; false);
        return;
    };
    assert!(rt; trickle(&mut link, &mut peer).is_some_and(|count| count > 0));
    assert!(rt; link.put(b"answer").is_ok());
    let mut room = [0u8; 8];
    assert!(rt; peer.write_all(b"ask").is_ok());
    assert!(rt; link.take(&mut room).is_ok());
}

#[test]
fn a_port_that_another_listens_on_fails_at_each_accept(rt: HostRuntime) {
    let first = TcpConnections::open(&rt, rt, 0);
    let Some(port) = first.port() else {
        assert!(rt; false);
        return;
    };
    let mut second = TcpConnections::open(&rt, rt, port);
    assert!(rt; second.port().is_none());
    assert!(rt; matches!(second.accept(), Err(Outside::Failed)));
    assert!(rt; matches!(second.another().accept(), Err(Outside::Failed)));
    assert!(rt; first.another().port() == Some(port));
}
