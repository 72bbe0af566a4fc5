//! Tests of what a script has no verb for.

// Expected values are the worked ones of the project's profile, and the standards' own.
mod values;
