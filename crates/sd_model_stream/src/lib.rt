//! The definitions of streams of lines: the lines of a stream, and what streams ask of the shards and count for. There is no
//! function here: their laws are in `sd_law_run`.
//!
//! `sd_tcp`, which cuts streams, and `sd_receive`, which reads them, cite them, and so do the definitions of a server's run. They
//! know no sockets: a stream is a list of bytes.
#![tactic(auto)]
