//! Documents that are refused, and what is said of them.

pub const CASES: &str = r#"
%% = no byte
document
status 7
said ep_program: bad document: missing at version (0)
text
%% = no TOML
document a=
status 6
said ep_program: not a TOML document
text
%% = an amount of thirteen digits
edit amount = 1000 => amount = 1000000000000
status 7
said ep_program: bad document: bad-value at lanes[1].transactions[1].amount (1000000000000)
text
%% = another version
edit version = 1 => version = 2
status 7
said ep_program: bad document: bad-value at version (2)
text
%% = a key of no table
edit version = 1 => version = 1\nzz = 1
status 7
said ep_program: bad document: unknown-key at . (4)
text
%% = a text for a version
edit version = 1 => version = '1'
status 7
said ep_program: bad document: wrong-kind at version (0)
text
%% = a turn of no lane
edit version = 1 => version = 1\nturns = [1, 2]
status 7
said ep_program: bad document: bad-value at turns[2] (2)
text
%% = a replay without a trace
words /replay
status 7
said ep_program: bad document: missing at trace (0)
text
"#;
