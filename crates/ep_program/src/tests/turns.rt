//! The purchase and two lanes in each form of words: with their exchanges, without them, and against them.

/// The purchase in each form of words.
pub const ONE_LANE: &str = r#"
%% log
1.1 log 1 00a404000e325041592e5359532e444446303100
1.1 log 1 00a4040007a000000003101000
1.1 log 1 80a8000002830000
%% trace
trace = [
"x 1 S 52 0 =0400",
"x 1 A 500057cd 0 -",
"x 1 B 0500083973 0 -",
"x 1 S 52 0 =0400",
"x 1 N 9320 0 =0102030404",
"x 1 A 937001020304048e25 0 =20fc70",
"x 1 A e0803173 0 =03284087e5",
"x 1 A 0200a404000e325041592e5359532e444446303100e042 16 =026f23840e325041592e5359532e4444463031a511bf0c0e610c4f07a000000003101087010190004bb3",
"x 1 A 0300a4040007a000000003101000bc41 16 =036f098407a00000000310109000452b",
"x 1 A 0280a8000002830000182f 16 =02800620000801010090005a6c",
"x 1 A c2e0b4 16 =c2e0b4",
]
%% = the purchase
%% = the purchase and its exchanges
words /run/trace
text <traced>
%% = the purchase against its exchanges
words /replay
document <version><trace><combination><lane><card><directory><application><script>
change <log> =>
"#;

/// Two lanes by a turn list in each form of words.
pub const TWO_LANES: &str = r#"
%% report-by-turns
1.1 start type=00 amount=1000
1.1 pre 1 aid=a0000000031010 kernel=3 allowed=1 status=0 zero=0 floor=0 cvm=0 ttq=-
1.1 message 15 Present card
2.1 start type=00 amount=1000
2.1 pre 1 aid=a0000000031010 kernel=3 allowed=1 status=0 zero=0 floor=0 cvm=0 ttq=-
2.1 message 15 Present card
1.1 card A 01020304
1.1 apdu 00a404000e325041592e5359532e444446303100 6a82
1.1 candidates 0
1.1 outcome end
1.1 message 1c Insert, swipe or try another card
1.1 end done
1.1 log 1 00a404000e325041592e5359532e444446303100
2.1 card A 01020304
2.1 apdu 00a404000e325041592e5359532e444446303100 6a82
2.1 candidates 0
2.1 outcome end
2.1 message 1c Insert, swipe or try another card
2.1 end done
2.1 log 1 00a404000e325041592e5359532e444446303100
%% traced-by-turns
1.1 start type=00 amount=1000
1.1 pre 1 aid=a0000000031010 kernel=3 allowed=1 status=0 zero=0 floor=0 cvm=0 ttq=-
1.1 message 15 Present card
2.1 start type=00 amount=1000
2.1 pre 1 aid=a0000000031010 kernel=3 allowed=1 status=0 zero=0 floor=0 cvm=0 ttq=-
2.1 message 15 Present card
x 1 S 52 0 =0400
x 1 A 500057cd 0 -
x 2 S 52 0 =0400
x 1 B 0500083973 0 -
x 1 S 52 0 =0400
x 2 A 500057cd 0 -
x 1 N 9320 0 =0102030404
x 2 B 0500083973 0 -
x 1 A 937001020304048e25 0 =20fc70
x 2 S 52 0 =0400
x 1 A e0803173 0 =03284087e5
1.1 card A 01020304
x 2 N 9320 0 =0102030404
x 1 A 0200a404000e325041592e5359532e444446303100e042 16 =026a82932f
1.1 apdu 00a404000e325041592e5359532e444446303100 6a82
1.1 candidates 0
1.1 outcome end
1.1 message 1c Insert, swipe or try another card
x 2 A 937001020304048e25 0 =20fc70
x 1 A c2e0b4 16 =c2e0b4
1.1 end done
1.1 log 1 00a404000e325041592e5359532e444446303100
x 2 A e0803173 0 =03284087e5
2.1 card A 01020304
x 2 A 0200a404000e325041592e5359532e444446303100e042 16 =026a82932f
2.1 apdu 00a404000e325041592e5359532e444446303100 6a82
2.1 candidates 0
2.1 outcome end
2.1 message 1c Insert, swipe or try another card
x 2 A c2e0b4 16 =c2e0b4
2.1 end done
2.1 log 1 00a404000e325041592e5359532e444446303100
%% trace-by-turns
trace = [
"x 1 S 52 0 =0400",
"x 1 A 500057cd 0 -",
"x 2 S 52 0 =0400",
"x 1 B 0500083973 0 -",
"x 1 S 52 0 =0400",
"x 2 A 500057cd 0 -",
"x 1 N 9320 0 =0102030404",
"x 2 B 0500083973 0 -",
"x 1 A 937001020304048e25 0 =20fc70",
"x 2 S 52 0 =0400",
"x 1 A e0803173 0 =03284087e5",
"x 2 N 9320 0 =0102030404",
"x 1 A 0200a404000e325041592e5359532e444446303100e042 16 =026a82932f",
"x 2 A 937001020304048e25 0 =20fc70",
"x 1 A c2e0b4 16 =c2e0b4",
"x 2 A e0803173 0 =03284087e5",
"x 2 A 0200a404000e325041592e5359532e444446303100e042 16 =026a82932f",
"x 2 A c2e0b4 16 =c2e0b4",
]
%% = two lanes
document <version>turns = [1, 1, 2, 1]\n<combination><lane><card><no-directory><application><script><lane><card><no-directory><application><script>
text <report-by-turns>
%% = two lanes and their exchanges
words /run/trace
document <version>turns = [1, 1, 2, 1]\n<combination><lane><card><no-directory><application><script><lane><card><no-directory><application><script>
text <traced-by-turns>
%% = two lanes against their exchanges
words /replay
document <version>turns = [1, 1, 2, 1]\n<trace-by-turns><combination><lane><card><no-directory><application><script><lane><card><no-directory><application><script>
text <report-by-turns>
change 1.1 log 1 00a404000e325041592e5359532e444446303100\n =>
change 2.1 log 1 00a404000e325041592e5359532e444446303100\n =>
"#;

/// Purchases without a directory, and a lane that is over.
pub const CASES: &str = r#"
%% first-opened
1.1 start type=00 amount=1000
1.1 pre 1 aid=a0000000031010 kernel=3 allowed=1 status=0 zero=0 floor=0 cvm=0 ttq=-
1.1 message 15 Present card
%% second-opened
2.1 start type=00 amount=1000
2.1 pre 1 aid=a0000000031010 kernel=3 allowed=1 status=0 zero=0 floor=0 cvm=0 ttq=-
2.1 message 15 Present card
%% first-events
1.1 card A 01020304
1.1 apdu 00a404000e325041592e5359532e444446303100 6a82
1.1 candidates 0
1.1 outcome end
1.1 message 1c Insert, swipe or try another card
1.1 end done
1.1 log 1 00a404000e325041592e5359532e444446303100
%% second-events
2.1 card A 01020304
2.1 apdu 00a404000e325041592e5359532e444446303100 6a82
2.1 candidates 0
2.1 outcome end
2.1 message 1c Insert, swipe or try another card
2.1 end done
2.1 log 1 00a404000e325041592e5359532e444446303100
%% first-traced
x 1 S 52 0 =0400
x 1 A 500057cd 0 -
x 1 B 0500083973 0 -
x 1 S 52 0 =0400
x 1 N 9320 0 =0102030404
x 1 A 937001020304048e25 0 =20fc70
x 1 A e0803173 0 =03284087e5
1.1 card A 01020304
x 1 A 0200a404000e325041592e5359532e444446303100e042 16 =026a82932f
1.1 apdu 00a404000e325041592e5359532e444446303100 6a82
1.1 candidates 0
1.1 outcome end
1.1 message 1c Insert, swipe or try another card
x 1 A c2e0b4 16 =c2e0b4
1.1 end done
1.1 log 1 00a404000e325041592e5359532e444446303100
%% second-traced
x 2 S 52 0 =0400
x 2 A 500057cd 0 -
x 2 B 0500083973 0 -
x 2 S 52 0 =0400
x 2 N 9320 0 =0102030404
x 2 A 937001020304048e25 0 =20fc70
x 2 A e0803173 0 =03284087e5
2.1 card A 01020304
x 2 A 0200a404000e325041592e5359532e444446303100e042 16 =026a82932f
2.1 apdu 00a404000e325041592e5359532e444446303100 6a82
2.1 candidates 0
2.1 outcome end
2.1 message 1c Insert, swipe or try another card
x 2 A c2e0b4 16 =c2e0b4
2.1 end done
2.1 log 1 00a404000e325041592e5359532e444446303100
%% = a purchase without a directory and its exchanges
words /run/trace
document <version><combination><lane><card><no-directory><application><script>
text <first-opened><first-traced>
%% = a purchase whose directory is cut short and its exchanges
words /run/trace
document <version><combination><lane><card><no-directory><application><script>
edit <no-directory> => ppse = ["6f9000"]\n
text <first-opened><first-traced>
change =026a82932f => =026f9000a139
change  6a82\n =>  6f9000\n
%% = a lane that is over is skipped
document <version>turns = [1, 1, 2, 1]\n<combination><lane><card><no-directory><application><script><lane><card><no-directory><application><script>
edit turns = [1, 1, 2, 1]\n => turns = [1, 1, 1, 1, 1, 1, 1, 1, 1, 1, 2]\n
text <first-opened><second-opened><first-events><second-events>
%% = a lane that is over is skipped, and the exchanges
words /run/trace
document <version>turns = [1, 1, 2, 1]\n<combination><lane><card><no-directory><application><script><lane><card><no-directory><application><script>
edit turns = [1, 1, 2, 1]\n => turns = [1, 1, 1, 1, 1, 1, 1, 1, 1, 1, 2]\n
text <first-opened><second-opened><first-traced><second-traced>
"#;
