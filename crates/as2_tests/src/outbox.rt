//! Documents for partners, and receipts that are sent later.
mod exchanges;
mod lists;
mod stopped;
