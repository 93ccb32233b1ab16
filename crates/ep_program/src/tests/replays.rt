//! Replays of a purchase with a card that has no directory: matched, and with their first mismatch.

pub const CASES: &str = r#"
%% first-lines
version = 1
trace = [
"x 1 S 52 0 =0400",
"x 1 A 500057cd 0 -",
"x 1 B 0500083973 0 -",
"x 1 S 52 0 =0400",
"x 1 N 9320 0 =0102030404",
"x 1 A 937001020304048e25 0 =20fc70",
"x 1 A e0803173 0 =03284087e5",
%% select
"x 1 A 0200a404000e325041592e5359532e444446303100e042 16 =026a82932f",
%% other-select
"x 1 A 0200a404000e325041592e5359532e444446303100e043 16 =026a82932f",
%% found
1.1 start type=00 amount=1000
1.1 pre 1 aid=a0000000031010 kernel=3 allowed=1 status=0 zero=0 floor=0 cvm=0 ttq=-
1.1 message 15 Present card
1.1 card A 01020304
%% refused
1.1 apdu 00a404000e325041592e5359532e444446303100 6a82
1.1 candidates 0
1.1 outcome end
1.1 message 1c Insert, swipe or try another card
%% = a trace that is matched
words /replay
document <first-lines><select>"x 1 A c2e0b4 16 =c2e0b4",\n]\n<combination><lane><card><no-directory><application><script>
text <found><refused>1.1 end done\n
%% = another frame
words /replay
document <first-lines><other-select>"x 1 A c2e0b4 16 =c2e0b4",\n]\n<combination><lane><card><no-directory><application><script>
status 8
said ep_program: mismatch at 8: wanted 1 A 0200a404000e325041592e5359532e444446303100e043 16, got 1 A 0200a404000e325041592e5359532e444446303100e042 16
text <found>
%% = a line too few
words /replay
document <first-lines><select>]\n<combination><lane><card><no-directory><application><script>
status 8
said ep_program: mismatch at 9: wanted nothing, got 1 A c2e0b4 16
text <found><refused>
"#;
