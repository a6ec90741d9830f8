// The hub and the judge for callers in C and Rust: each takes a list of requests in one call.
//
// request  what crosses: requests and replies
// playing  a list of requests, made on a hub
// judging  a list of requests, judged
#![tactic(auto)]

pub mod judging;
pub mod playing;
pub mod request;
