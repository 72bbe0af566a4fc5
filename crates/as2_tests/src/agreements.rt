//! Agreements that the tests are over.

/// Those of `examples/agreements.toml`, without its comments and its last partner.
pub const AGREEMENTS: &str = r#"
domain = "station.example"
return_url = "http://127.0.0.1:8080/as2"

[[organization]]
name = "Supplier"

[[partner]]
name = "Buyer"
url = "http://127.0.0.1:8081/as2"
receipt = "sync"
digest = "sha1"
content_type = "application/edi-x12"
max_tries = 2
retry_seconds = 30
overdue_seconds = 60

[[partner]]
name = "Depot"
url = "http://127.0.0.1:8082/as2"
receipt = "async"
digest = "sha1"
content_type = "application/edi-x12"
max_tries = 2
retry_seconds = 30
overdue_seconds = 60
"#;
