// A listener in memory, through its trait.
use bl_outside::{
    Faults, Link, List, Listener, MemoryListener, NoMemory, Outside, PreparedLink, Sink, Source,
    Text,
};
use std::alloc::Global;

fn prepared(
    alloc: Global,
    input: &[u8],
    takes: Faults,
    puts: Faults,
) -> Result<PreparedLink, NoMemory> {
    Ok(PreparedLink {
        input: Text::copy_of(alloc, input)?,
        piece: 2,
        takes,
        puts,
    })
}

fn first_fails(alloc: Global) -> Result<Faults, NoMemory> {
    let mut calls = List::new(alloc);
    calls.push(1)?;
    Ok(Faults::of(calls, 0))
}

// Takes once, writes the bytes and hands the connection back. Answers how many came.
fn serve_one<N: Listener>(listener: &mut N, bytes: &[u8]) -> Result<usize, Outside> {
    let mut link = listener.accept()?;
    let came = exchange(&mut link, bytes);
    listener.retire(link)?;
    Ok(came)
}

// Answers 0 where nothing came, or where the bytes could not be written.
fn exchange<C: Link>(link: &mut C, bytes: &[u8]) -> usize {
    let mut room = [0u8; 4];
    let came = link.take(&mut room).unwrap_or(0);
    match link.put(bytes) {
        Ok(()) => came,
        Err(_) => 0,
    }
}

fn written(listener: &MemoryListener, index: usize) -> &[u8] {
    match listener.handed_back().get(index) {
        Some(link) => link.written().as_slice(),
        None => b"none".as_slice(),
    }
}

fn hands_out_and_keeps(alloc: Global) -> Result<bool, NoMemory> {
    let mut listener = MemoryListener::new(alloc);
    listener.prepare(prepared(alloc, b"abc", Faults::none(alloc), Faults::none(alloc))?)?;
    listener.prepare(prepared(alloc, b"de", first_fails(alloc)?, Faults::none(alloc))?)?;
    listener.prepare(prepared(alloc, b"f", Faults::none(alloc), first_fails(alloc)?)?)?;
    let came = serve_one(&mut listener, b"first") == Ok(2)
        && serve_one(&mut listener, b"second") == Ok(0)
        && serve_one(&mut listener, b"third") == Ok(0)
        && serve_one(&mut listener, b"none comes") == Err(Outside::Failed);
    let kept = written(&listener, 0) == b"first".as_slice()
        && written(&listener, 1) == b"second".as_slice()
        && written(&listener, 2) == b"th".as_slice()
        && listener.handed_back().len() == 3;
    Ok(came && kept)
}

#[test]
fn a_listener_hands_out_in_order_and_keeps_what_was_written(rt: HostRuntime) {
    assert!(rt; hands_out_and_keeps(rt.alloc()) == Ok(true));
}
