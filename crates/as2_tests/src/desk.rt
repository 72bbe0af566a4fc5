//! A post to a station over sockets, and its reply.
mod served;
mod sockets;

/// The plain post.
const POST_TEXT: &str = "\
POST /as2 HTTP/1.1\r
Host: 127.0.0.1:8080\r
AS2-Version: 1.0\r
AS2-From: Buyer\r
AS2-To: Supplier\r
Message-ID: <m1@x>\r
Content-Type: application/edi-x12\r
Disposition-Notification-To: a@x\r
Disposition-Notification-Options: signed-receipt-micalg=optional, sha1\r
Content-Length: 3\r
\r
abc";

/// Its reply at the moment 1000.
const RECEIPT_TEXT: &str = "\
HTTP/1.1 200 OK\r
Date: Thu, 01 Jan 1970 00:16:40 GMT\r
AS2-Version: 1.0\r
AS2-From: Supplier\r
AS2-To: Buyer\r
Message-ID: <mdn-1@station.example>\r
Content-Type: multipart/report; report-type=disposition-notification; boundary=\"as2-mdn-1\"\r
Content-Length: 397\r
\r
--as2-mdn-1\r
Content-Type: text/plain\r
\r
Receipt 1 for the message named below.\r
Outcome: processed\r
\r
--as2-mdn-1\r
Content-Type: message/disposition-notification\r
\r
Reporting-UA: as2-station\r
Final-Recipient: rfc822; Supplier\r
Original-Message-ID: <m1@x>\r
Disposition: automatic-action/MDN-sent-automatically; processed\r
Received-content-MIC: qZk+NkcGgWq6PiVxeFDCbJzQ2J0=, sha1\r
\r
--as2-mdn-1--\r
";
