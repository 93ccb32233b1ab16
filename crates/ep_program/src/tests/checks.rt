//! Checks of the trace of a purchase with a card that has no directory: allowed, and with a first bad line of each rule.

pub const CASES: &str = r#"
%% round
version = 1
trace = [
"x 1 S 52 0 =0400",
"x 1 A 500057cd 0 -",
"x 1 B 0500083973 0 -",
"x 1 S 52 0 =0400",
"x 1 N 9320 0 =0102030404",
"x 1 A 937001020304048e25 0 =20fc70",
%% activation
"x 1 A e0803173 0 =03284087e5",
%% select
"x 1 A 0200a404000e325041592e5359532e444446303100e042 16 =026a82932f",
%% closing
"x 1 A c2e0b4 16 =c2e0b4",
%% transactions
]
[[lanes]]
[[lanes.transactions]]
type = 0
amount = 0
%% = a trace that is allowed
words /check
document <round><activation><select><closing><transactions>
text trace ok lines=9\n
%% = a round while a link is open
words /check
document <round><activation><select>"x 1 S 52 0 -",<transactions>
text trace bad place=9 lane=1 rule=reader\n
%% = another waiting number
words /check
document <round><activation>"x 1 A 0200a404000e325041592e5359532e444446303100e042 15 =026a82932f",<closing><transactions>
text trace bad place=8 lane=1 rule=wait\n
%% = a command without a link
words /check
document <round>"x 1 A e0803173 0 -",<select><closing><transactions>
text trace bad place=8 lane=1 rule=activation\n
%% = a block outside the rules
words /check
document <round><activation>"x 1 A 0200a404000e325041592e5359532e444446303100e042 16 =c2e0b4",<closing><transactions>
text trace bad place=8 lane=1 rule=card\n
%% = no line
words /check
document version = 1\ntrace = [<transactions>
text trace ok lines=0\n
%% = no trace
words /check
document version = 1\nturns = [<transactions>
status 7
said ep_program: bad document: missing at trace (0)
text
"#;
