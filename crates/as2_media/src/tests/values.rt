//! Values of parameters.

use crate::parameters::Parameters;

// What stands behind a media type's first `;`, and the value of its first parameter `a`.
static CASES: [(&[u8], Option<&[u8]>); 24] = [
    (b"", None),
    (b"b=1", None),
    (b"aa=1", None),
    (b"a=1", Some(b"1")),
    (b"b=1;A=2;a=3", Some(b"2")),
    // blanks and line ends around all
    (b" \ta \t= \t1 \t; b=2", Some(b"1")),
    (b"\r\n a\r\n =\n 1\r\n", Some(b"1")),
    // values without quotes hold any bytes but these four
    (b"a=us-ascii (Plain text)", Some(b"us-ascii (Plain text)")),
    (b"a==", Some(b"=")),
    (b"a=b=c", Some(b"b=c")),
    (b"a=b\\;b=c", Some(b"b\\")),
    (b"a=\x01\xff", Some(b"\x01\xff")),
    (b"a=b \t c", Some(b"b \t c")),
    // quoted values are what stands between the quotes
    (b"a=\"\"", Some(b"")),
    (b"a=\" 1 \"", Some(b" 1 ")),
    (b"a = \"1\" ;b=2", Some(b"1")),
    (b"a=\"1;a=2\";b=\";\"", Some(b"1;a=2")),
    (b"a=\"\\\"\"", Some(b"\\\"")),
    (b"a=\"\\\\\"", Some(b"\\\\")),
    (b"a=\"x\\\";y\\\\\";b=1", Some(b"x\\\";y\\\\")),
    (b"b=\"\\\\\";a=\"1\"", Some(b"1")),
    (b"a=\"\x01\xff\"", Some(b"\x01\xff")),
    // RFC 2045, section 5.1: both forms of one value
    (b"a=us-ascii", Some(b"us-ascii")),
    (b"a=\"us-ascii\"", Some(b"us-ascii")),
];

fn has_value(text: &[u8], want: Option<&[u8]>) -> bool {
    match Parameters::parse(Some(text)) {
        Ok(parameters) => parameters.first_value(b"a") == want,
        Err(_) => false,
    }
}

#[test]
fn reads_values(rt: HostRuntime) {
    for (text, want) in &CASES {
        assert!(rt; has_value(text, *want));
    }
}
