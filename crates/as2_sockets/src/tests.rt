//! Peers over the loopback, in one process: what is connected waits until it is accepted.
use crate::{Limits, TimedStream, connect};
use std::io;
use std::io::{Read, Write};
use std::net::{OpenListener, OpenStream, TcpListener, TcpStream};
use std::test::Fail;
use std::time::{Duration, Instant};

/// What the far end of a connection is read through, and the near end.
#[derive(Drop)]
struct Pair<'a> {
    near: TimedStream<'a, TcpStream, HostRuntime>,
    far: TcpStream,
}

/// A connection over the loopback that stays within the limits.
fn connected<'a>(rt: &'a HostRuntime, limits: Limits) -> io::Result<Pair<'a>> {
    let listener = TcpListener::bind(rt, "127.0.0.1:0")?;
    let far = TcpStream::connect(rt, listener.local_addr()?)?;
    let (accepted, _) = listener.accept()?;
    let near = TimedStream::new(accepted, rt, limits)?;
    Ok(Pair { near, far })
}

/// Whether so many milliseconds have passed, and not five seconds more, which a machine under load may need.
fn is_after(rt: &HostRuntime, start: Instant, millis: u64) -> io::Result<bool> {
    let passed = start.elapsed(rt)?.as_millis();
    Ok(passed + 20 >= u128::from(millis) && passed < u128::from(millis) + 5_000)
}

#[test]
fn the_whole_is_ten_waits(rt: HostRuntime) {
    let limits = Limits::of_seconds(30);
    assert!(rt; limits.wait == Duration::from_secs(30));
    assert!(rt; limits.whole == Duration::from_secs(300));
}

#[test]
fn bytes_that_are_there_are_read(rt: HostRuntime) -> Result<(), Fail> {
    let mut pair = connected(&rt, Limits::of_seconds(1))?;
    pair.far.write_all(b"abc")?;
    pair.far.shutdown(std::net::Shutdown::Write)?;
    let mut writer = pair.near.try_clone()?;
    let mut bytes = Vec::new(rt.alloc());
    pair.near.read_to_end(&mut bytes)?;
    assert!(rt; bytes.as_slice() == b"abc".as_slice());
    writer.write_all(b"defg")?;
    let mut answer = [0; 4];
    pair.far.read_exact(&mut answer)?;
    assert!(rt; &answer == b"defg");
    Ok(())
}

#[test]
fn a_silent_peer_is_waited_for_once(rt: HostRuntime) -> Result<(), Fail> {
    let mut pair = connected(&rt, Limits::of_seconds(1))?;
    let start = Instant::now(&rt)?;
    let read = pair.near.read(&mut [0; 8]);
    assert!(rt; read.is_err());
    assert!(rt; is_after(&rt, start, 1_000)?);
    Ok(())
}

#[test]
fn the_whole_ends_a_connection(rt: HostRuntime) -> Result<(), Fail> {
    let limits = Limits {
        wait: Duration::from_secs(30),
        whole: Duration::from_millis(300),
    };
    let mut pair = connected(&rt, limits)?;
    let start = Instant::now(&rt)?;
    // what is left of the whole is less than one wait
    assert!(rt; pair.near.read(&mut [0; 8]).is_err());
    assert!(rt; is_after(&rt, start, 300)?);
    // and then nothing is left, also where bytes are there, and at another handle
    pair.far.write_all(b"abc")?;
    assert!(rt; pair.near.read(&mut [0; 8]).is_err());
    assert!(rt; pair.near.write(b"abc").is_err());
    assert!(rt; pair.near.try_clone()?.read(&mut [0; 8]).is_err());
    assert!(rt; is_after(&rt, start, 300)?);
    Ok(())
}

#[test]
fn a_slow_peer_is_cut_off_at_the_end_of_the_whole(rt: HostRuntime) -> Result<(), Fail> {
    let limits = Limits {
        wait: Duration::from_millis(200),
        whole: Duration::from_millis(600),
    };
    let mut pair = connected(&rt, limits)?;
    let start = Instant::now(&rt)?;
    let mut count = 0u32;
    for _ in 0..1_000_000u32 {
        pair.far.write_all(b"x")?;
        if pair.near.read(&mut [0; 1]).is_err() {
            break;
        }
        count = count.saturating_add(1);
    }
    assert!(rt; count > 0);
    assert!(rt; is_after(&rt, start, 600)?);
    Ok(())
}

#[test]
fn a_peer_that_reads_nothing_is_waited_for_once(rt: HostRuntime) -> Result<(), Fail> {
    let mut pair = connected(&rt, Limits::of_seconds(1))?;
    let block = [0; 65_536];
    let mut start = Instant::now(&rt)?;
    // the buffers of both ends take some megabytes
    for _ in 0..10_000u32 {
        if pair.near.write_all(&block).is_err() {
            assert!(rt; start.elapsed(&rt)?.as_secs() < 10);
            assert!(rt; start.elapsed(&rt)?.as_millis() >= 980);
            return Ok(());
        }
        start = Instant::now(&rt)?;
    }
    Err(Fail::new("ten thousand blocks were taken"))
}

#[test]
fn a_peer_that_still_sends_reads_the_reply(rt: HostRuntime) -> Result<(), Fail> {
    let mut pair = connected(&rt, Limits::of_seconds(1))?;
    pair.far.write_all(&[0; 65_536])?;
    pair.near.write_all(b"no")?;
    pair.far.shutdown(std::net::Shutdown::Write)?;
    let Pair { near, mut far } = pair;
    near.linger();
    let mut reply = Vec::new(rt.alloc());
    far.read_to_end(&mut reply)?;
    assert!(rt; reply.as_slice() == b"no".as_slice());
    Ok(())
}

#[test]
fn a_silent_peer_is_not_waited_for_in_closing(rt: HostRuntime) -> Result<(), Fail> {
    let Pair { near, mut far } = connected(&rt, Limits::of_seconds(1))?;
    let start = Instant::now(&rt)?;
    near.linger();
    assert!(rt; is_after(&rt, start, 1_000)?);
    assert!(rt; far.read(&mut [0; 8])? == 0);
    Ok(())
}

#[test]
fn nobody_listens(rt: HostRuntime) -> Result<(), Fail> {
    let listener = TcpListener::bind(&rt, "127.0.0.1:0")?;
    let authority = listener.local_addr()?.to_string(rt.alloc())?;
    let limits = Limits::of_seconds(30);
    let start = Instant::now(&rt)?;
    assert!(rt; connect(&rt, authority.as_str(), limits).is_ok());
    drop(listener);
    assert!(rt; connect(&rt, authority.as_str(), limits).is_err());
    assert!(rt; connect(&rt, "127.0.0.1:x", limits).is_err());
    assert!(rt; is_after(&rt, start, 0)?);
    Ok(())
}

#[test]
fn authorities(rt: HostRuntime) {
    assert!(rt; crate::host_and_port("partner.example") == Some(("partner.example", 80)));
    assert!(rt; crate::host_and_port("partner.example:8080") == Some(("partner.example", 8080)));
    assert!(rt; crate::host_and_port("partner.example:65536").is_none());
    assert!(rt; crate::host_and_port("partner.example:").is_none());
}
