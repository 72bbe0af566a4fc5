//! Commands over the records of a station, which are lists.
use crate::forwarded::{Forwarded, refused, run_forwarded};
use as2_desk::CommandFault;
use as2_lists::Lists;
use std::test::Fail;

const AGREEMENTS: &[u8] = br#"
domain = "station.example"

[[organization]]
name = "Supplier"

[[partner]]
name = "Buyer"
url = "http://127.0.0.1:8081/as2"
receipt = "none"
digest = "sha1"
content_type = "application/edi-x12"
max_tries = 2
retry_seconds = 30
overdue_seconds = 60
"#;

const SUBMIT: &str =
    "as2desk --agreements a.toml --store s.db submit --from Supplier --to Buyer order.edi";

const EVIDENCE: &str = "as2desk --agreements a.toml --store s.db evidence 1";

#[test]
fn runs(rt: HostRuntime) -> Result<(), Fail> {
    let alloc = rt.alloc();
    let text = String::from_str(alloc, SUBMIT)?;
    let words: Vec<&str> = text.as_str().split(" ").collect(alloc)?;
    let given = Forwarded {
        words: words.as_slice(),
        agreements_path: "a.toml",
        agreements: AGREEMENTS,
        content: b"x",
        clock: Some(1_000),
    };
    let (outcome, records) = run_forwarded(alloc, given, Lists::new(alloc, 1), 0);
    assert_eq!(rt; outcome.status, 0);
    assert_eq!(rt; outcome.output.as_slice(), b"1\n".as_slice());
    assert!(rt; outcome.errors.is_empty() && outcome.files.is_empty());
    let records = records.ok_or("no records")?;
    let text = String::from_str(alloc, EVIDENCE)?;
    let words: Vec<&str> = text.as_str().split(" ").collect(alloc)?;
    let given = Forwarded {
        words: words.as_slice(),
        agreements_path: "a.toml",
        agreements: AGREEMENTS,
        content: b"",
        clock: Some(1_000),
    };
    let (outcome, _) = run_forwarded(alloc, given, records, 0);
    assert_eq!(rt; outcome.status, 0);
    assert!(rt; !outcome.files.is_empty());
    Ok(())
}

#[test]
fn refuses(rt: HostRuntime) -> Result<(), Fail> {
    let outcome = refused(rt.alloc(), CommandFault::StationRuns);
    assert_eq!(rt; outcome.status, 1);
    assert_eq!(rt;
        outcome.errors.as_slice(),
        b"refused: StationRuns\n".as_slice()
    );
    Ok(())
}
