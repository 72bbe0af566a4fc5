//! A stream over sockets of one process.
use super::served::Fixture;
use super::{POST_TEXT, RECEIPT_TEXT};
use as2_http::Served;
use std::io;
use std::io::{Read, Write};
use std::net::{OpenListener, OpenStream, Shutdown, TcpListener, TcpStream};
use std::test::Fail;

/// A client posts over the loopback and reads what comes back; how the stream ended on the other side.
fn posted(rt: &HostRuntime, fixture: &mut Fixture, reply: &mut Vec<u8>) -> io::Result<Served> {
    let listener = TcpListener::bind(rt, "127.0.0.1:0")?;
    let mut client = TcpStream::connect(rt, listener.local_addr()?)?;
    client.write_all(POST_TEXT.as_bytes())?;
    client.shutdown(Shutdown::Write)?;
    let (stream, _) = listener.accept()?;
    let output = stream.try_clone()?;
    let Ok((end, output)) = fixture.serve(stream, output) else {
        return Ok(Served::Memory);
    };
    drop(output);
    client.read_to_end(reply)?;
    Ok(end)
}

#[test]
fn a_post_over_the_loopback(rt: HostRuntime) -> Result<(), Fail> {
    let mut fixture = Fixture::new(rt.alloc())?;
    let mut reply = Vec::new(rt.alloc());
    let end = posted(&rt, &mut fixture, &mut reply);
    assert!(rt; end.ok() == Some(Served::Closed));
    assert!(rt; reply.as_slice() == RECEIPT_TEXT.as_bytes());
    Ok(())
}
