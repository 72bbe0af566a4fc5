//! A demand and an outcome, and the frames of both written out by hand.
use crate::*;
use std::alloc::Global;
use std::test::Fail;

const DEMAND: &[u8] =
    b"as2desk 1\n\0\0\0\x3c\0\0\0\x200123456789abcdef0123456789abcdef\0\0\0\x01x\0\0\0\x07as2desk\0\0\0\x04list";

const OUTCOME: &[u8] =
    b"as2desk 1\n\0\0\0\x1b\0\0\0\x01\x03\0\0\0\x03ok\n\0\0\0\0\0\0\0\x01a\0\0\0\x02hi";

fn demand(alloc: Global) -> Result<Demand, ReadFault> {
    let mut words = Vec::new(alloc);
    words.push(String::from_str(alloc, "as2desk")?)?;
    words.push(String::from_str(alloc, "list")?)?;
    Ok(Demand {
        agreements: *b"0123456789abcdef0123456789abcdef",
        content: Vec::from_slice(alloc, b"x")?,
        words,
    })
}

fn outcome(alloc: Global) -> Result<Outcome, ReadFault> {
    let mut files = Vec::new(alloc);
    files.push(MadeFile {
        name: String::from_str(alloc, "a")?,
        content: Vec::from_slice(alloc, b"hi")?,
    })?;
    Ok(Outcome {
        status: 3,
        output: Vec::from_slice(alloc, b"ok\n")?,
        errors: Vec::new(alloc),
        files,
    })
}

#[test]
fn a_demand_is_written_and_read(rt: HostRuntime) -> Result<(), Fail> {
    let frame = demand_frame(rt.alloc(), &demand(rt.alloc())?)?;
    assert_eq!(rt; frame.as_slice(), DEMAND);
    let read = read_demand(rt.alloc(), DEMAND)?;
    assert!(rt; &read.agreements == b"0123456789abcdef0123456789abcdef");
    assert_eq!(rt; read.content.as_slice(), b"x".as_slice());
    assert_eq!(rt; read.words.len(), 2);
    assert_eq!(rt; read.words[0].as_str(), "as2desk");
    assert_eq!(rt; read.words[1].as_str(), "list");
    assert_eq!(rt;
        read_demand(rt.alloc(), OUTCOME).err(),
        Some(ReadFault::Malformed)
    );
    Ok(())
}

#[test]
fn an_outcome_is_written_and_read(rt: HostRuntime) -> Result<(), Fail> {
    let frame = outcome_frame(rt.alloc(), &outcome(rt.alloc())?)?;
    assert_eq!(rt; frame.as_slice(), OUTCOME);
    let read = read_outcome(rt.alloc(), OUTCOME)?;
    assert_eq!(rt; read.status, 3);
    assert_eq!(rt; read.output.as_slice(), b"ok\n".as_slice());
    assert!(rt; read.errors.is_empty());
    assert_eq!(rt; read.files.len(), 1);
    assert_eq!(rt; read.files[0].name.as_str(), "a");
    assert_eq!(rt; read.files[0].content.as_slice(), b"hi".as_slice());
    assert_eq!(rt;
        read_outcome(rt.alloc(), DEMAND).err(),
        Some(ReadFault::Malformed)
    );
    Ok(())
}

#[test]
fn a_frame_is_awaited(rt: HostRuntime) {
    assert_eq!(rt; awaited(b"", MOST_BYTES), StillToCome::Bytes(14));
    assert_eq!(rt;
        awaited(b"as2desk 1\n\0\0\0", MOST_BYTES),
        StillToCome::Bytes(1)
    );
    assert_eq!(rt;
        awaited(b"as2desk 1\n\0\0\0\x3c\0", MOST_BYTES),
        StillToCome::Bytes(59)
    );
    assert_eq!(rt; awaited(DEMAND, MOST_BYTES), StillToCome::Whole);
    assert_eq!(rt;
        awaited(b"as2desk 1\n\0\x20\0\x01", MOST_BYTES),
        StillToCome::Never
    );
    assert_eq!(rt; awaited(b"GET", MOST_BYTES), StillToCome::Never);
}
