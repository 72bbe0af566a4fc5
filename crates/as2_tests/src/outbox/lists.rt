//! Lists of events, each with what is answered to it, as scripts spell them.
use crate::texts::{PLAIN, RECEIVED};

/// An event, and its answer.
pub(super) type Row = (&'static str, &'static str);

/// Each list.
pub(super) static LISTS: [&[Row]; 5] = [REPEATED, SETTLED, AWAITED, RESENT, JOB];

/// The plain post, its repeat, and another document under its identifier.
const REPEATED: &[Row] = &[
    (PLAIN, RECEIVED),
    (PLAIN, RECEIVED),
    ("1000 post | abd", "409 message identifier used before"),
];

/// A document that the receipt in the answer settles.
const SETTLED: &[Row] = &[
    ("1000 submit | Supplier | Buyer | abc", "submitted 1"),
    ("1000 begin 1", TO_BUYER),
    ("1000 reply 1 200 | receipt", "settled processed"),
];

/// A document whose receipt is awaited, and then overdue.
const AWAITED: &[Row] = &[
    ("1000 submit | Supplier | Depot | abc", "submitted 1"),
    ("1000 begin 1", TO_DEPOT),
    ("1000 reply 1 200 | empty", "delivered"),
    ("2000 begin 1", "refused NotDue"),
    ("2000 unanswered 1", "refused NoOpenTry"),
    ("1059 tick", "ticked 0"),
    ("1060 tick", "ticked 1"),
    ("1060 tick", "ticked 0"),
    ("2000 begin 1", "refused NotDue"),
];

/// A document that has used its tries, is to be sent anew, and is settled by a receipt that is posted before there is another try.
const RESENT: &[Row] = &[
    ("1000 submit | Supplier | Buyer | abc", "submitted 1"),
    ("1000 begin 1", TO_BUYER),
    ("1030 begin 1", TO_BUYER),
    ("1060 tick", "ticked 1"),
    ("2000 resend 1", "resent"),
    ("2000 resend 1", "refused NotDue"),
    ("2000 post | receipt", "200"),
];

/// A receipt that is sent by its second try, and then queued again by a repeat.
const JOB: &[Row] = &[
    (ASKED_LATER, "202"),
    ("1000 begin-mdn 1", RECEIPT_TO_DEPOT),
    ("1000 unanswered-mdn 1", "try failed"),
    ("1029 begin-mdn 1", "refused NotDue"),
    ("1030 begin-mdn 1", RECEIPT_TO_DEPOT),
    ("1030 reply-mdn 1 200 | bare", "delivered"),
    ("2000 begin-mdn 1", "refused AllSettled"),
    ("2000 reply-mdn 1 200 | bare", "already settled"),
    (ASKED_AGAIN, "202"),
];

/// A post from Depot that asks for a receipt by a post to it.
const ASKED_LATER: &str =
    "1000 post | abc | AS2-From: Depot | Receipt-Delivery-Option: http://127.0.0.1:8082/mdn";

/// The same, later.
const ASKED_AGAIN: &str =
    "2000 post | abc | AS2-From: Depot | Receipt-Delivery-Option: http://127.0.0.1:8082/mdn";

/// The request of the first document to Buyer.
const TO_BUYER: &str = "job 127.0.0.1:8081\r\n\
POST /as2 HTTP/1.1\r\n\
Host: 127.0.0.1:8081\r\n\
Connection: close\r\n\
AS2-Version: 1.0\r\n\
AS2-From: Supplier\r\n\
AS2-To: Buyer\r\n\
Message-ID: <out-1@station.example>\r\n\
Content-Type: application/edi-x12\r\n\
Content-Transfer-Encoding: binary\r\n\
Disposition-Notification-To: as2@station.example\r\n\
Disposition-Notification-Options: signed-receipt-micalg=optional, sha1\r\n\
Content-Length: 3\r\n\
\r\n\
abc";

/// The request to Depot, whose receipt comes later.
const TO_DEPOT: &str = "job 127.0.0.1:8082\r\n\
POST /as2 HTTP/1.1\r\n\
Host: 127.0.0.1:8082\r\n\
Connection: close\r\n\
AS2-Version: 1.0\r\n\
AS2-From: Supplier\r\n\
AS2-To: Depot\r\n\
Message-ID: <out-1@station.example>\r\n\
Content-Type: application/edi-x12\r\n\
Content-Transfer-Encoding: binary\r\n\
Disposition-Notification-To: as2@station.example\r\n\
Disposition-Notification-Options: signed-receipt-micalg=optional, sha1\r\n\
Receipt-Delivery-Option: http://127.0.0.1:8080/as2\r\n\
Content-Length: 3\r\n\
\r\n\
abc";

/// The request of the first receipt to Depot.
const RECEIPT_TO_DEPOT: &str = "job 127.0.0.1:8082\r\n\
POST /mdn HTTP/1.1\r\n\
Host: 127.0.0.1:8082\r\n\
Connection: close\r\n\
AS2-Version: 1.0\r\n\
AS2-From: Supplier\r\n\
AS2-To: Depot\r\n\
Message-ID: <mdn-1@station.example>\r\n\
Content-Type: multipart/report; report-type=disposition-notification; boundary=\"as2-mdn-1\"\r\n\
Content-Length: 397\r\n\
\r\n\
--as2-mdn-1\r\n\
Content-Type: text/plain\r\n\
\r\n\
Receipt 1 for the message named below.\r\n\
Outcome: processed\r\n\
\r\n\
--as2-mdn-1\r\n\
Content-Type: message/disposition-notification\r\n\
\r\n\
Reporting-UA: as2-station\r\n\
Final-Recipient: rfc822; Supplier\r\n\
Original-Message-ID: <m1@x>\r\n\
Disposition: automatic-action/MDN-sent-automatically; processed\r\n\
Received-content-MIC: qZk+NkcGgWq6PiVxeFDCbJzQ2J0=, sha1\r\n\
\r\n\
--as2-mdn-1--\r\n";
