//! A purchase of 10.00 with one Combination, one card and one kernel that approves: its document in parts, and its texts.

/// Its document.
pub const PURCHASE: &str = "<version><combination><lane><card><directory><application><script>";

/// The parts of its document and of others, and what is written: whole, its first two lines, where no card is there, where
/// the card has an application of another name or none, where it has no directory, where the kernel has no script, with its
/// exchanges, and by a lane's second purchase.
pub const PARTS: &str = r#"
%% version
version = 1
%% combination
[[combinations]]
type = 0
aid = "a0000000031010"
kernel = 3
%% lane
[[lanes]]
%% card
[[lanes.transactions]]
type = 0
amount = 1000
[[lanes.transactions.cards]]
kind = "A"
uid = "01020304"
%% directory
ppse = ["6f23840e325041592e5359532e4444463031a511bf0c0e610c4f07a00000000310108701019000"]
%% no-directory
ppse = []
%% application
[[lanes.transactions.cards.apps]]
name = "a0000000031010"
select = ["6f098407a00000000310109000"]
[[lanes.transactions.cards.apps.rules]]
prefix = "80a8"
responses = ["80062000080101009000"]
%% script
[[lanes.transactions.scripts]]
kernel = 3
steps = [{send = "80a8000002830000"}]
outcome = "approved 03"
%% report
1.1 start type=00 amount=1000
1.1 pre 1 aid=a0000000031010 kernel=3 allowed=1 status=0 zero=0 floor=0 cvm=0 ttq=-
1.1 message 15 Present card
1.1 card A 01020304
1.1 apdu 00a404000e325041592e5359532e444446303100 6f23840e325041592e5359532e4444463031a511bf0c0e610c4f07a00000000310108701019000
1.1 candidates 1
1.1 apdu 00a4040007a000000003101000 6f098407a00000000310109000
1.1 activate 3 combination=1 name=a0000000031010 ttq=- fci=6f098407a0000000031010
1.1 apdu 80a8000002830000 80062000080101009000
1.1 outcome approved
1.1 message 03 Approved
1.1 end done
1.1 log 1 00a404000e325041592e5359532e444446303100
1.1 log 1 00a4040007a000000003101000
1.1 log 1 80a8000002830000
%% prepared
1.1 start type=00 amount=1000
1.1 pre 1 aid=a0000000031010 kernel=3 allowed=1 status=0 zero=0 floor=0 cvm=0 ttq=-
%% no-card
1.1 start type=00 amount=1000
1.1 pre 1 aid=a0000000031010 kernel=3 allowed=1 status=0 zero=0 floor=0 cvm=0 ttq=-
1.1 message 15 Present card
1.1 end nocard
%% other-report
1.1 start type=00 amount=1000
1.1 pre 1 aid=a0000000031010 kernel=3 allowed=1 status=0 zero=0 floor=0 cvm=0 ttq=-
1.1 message 15 Present card
1.1 card A 01020304
1.1 apdu 00a404000e325041592e5359532e444446303100 6f23840e325041592e5359532e4444463031a511bf0c0e610c4f07a00000000310108701019000
1.1 candidates 1
1.1 apdu 00a4040007a000000003101000 6a82
1.1 outcome end
1.1 message 1c Insert, swipe or try another card
1.1 end done
1.1 log 1 00a404000e325041592e5359532e444446303100
1.1 log 1 00a4040007a000000003101000
%% undirected-report
1.1 start type=00 amount=1000
1.1 pre 1 aid=a0000000031010 kernel=3 allowed=1 status=0 zero=0 floor=0 cvm=0 ttq=-
1.1 message 15 Present card
1.1 card A 01020304
1.1 apdu 00a404000e325041592e5359532e444446303100 6a82
1.1 candidates 0
1.1 outcome end
1.1 message 1c Insert, swipe or try another card
1.1 end done
1.1 log 1 00a404000e325041592e5359532e444446303100
%% unscripted-report
1.1 start type=00 amount=1000
1.1 pre 1 aid=a0000000031010 kernel=3 allowed=1 status=0 zero=0 floor=0 cvm=0 ttq=-
1.1 message 15 Present card
1.1 card A 01020304
1.1 apdu 00a404000e325041592e5359532e444446303100 6f23840e325041592e5359532e4444463031a511bf0c0e610c4f07a00000000310108701019000
1.1 candidates 1
1.1 apdu 00a4040007a000000003101000 6f098407a00000000310109000
1.1 activate 3 combination=1 name=a0000000031010 ttq=- fci=6f098407a0000000031010
1.1 outcome end
1.1 end done
1.1 log 1 00a404000e325041592e5359532e444446303100
1.1 log 1 00a4040007a000000003101000
%% traced
1.1 start type=00 amount=1000
1.1 pre 1 aid=a0000000031010 kernel=3 allowed=1 status=0 zero=0 floor=0 cvm=0 ttq=-
1.1 message 15 Present card
x 1 S 52 0 =0400
x 1 A 500057cd 0 -
x 1 B 0500083973 0 -
x 1 S 52 0 =0400
x 1 N 9320 0 =0102030404
x 1 A 937001020304048e25 0 =20fc70
x 1 A e0803173 0 =03284087e5
1.1 card A 01020304
x 1 A 0200a404000e325041592e5359532e444446303100e042 16 =026f23840e325041592e5359532e4444463031a511bf0c0e610c4f07a000000003101087010190004bb3
1.1 apdu 00a404000e325041592e5359532e444446303100 6f23840e325041592e5359532e4444463031a511bf0c0e610c4f07a00000000310108701019000
1.1 candidates 1
x 1 A 0300a4040007a000000003101000bc41 16 =036f098407a00000000310109000452b
1.1 apdu 00a4040007a000000003101000 6f098407a00000000310109000
1.1 activate 3 combination=1 name=a0000000031010 ttq=- fci=6f098407a0000000031010
x 1 A 0280a8000002830000182f 16 =02800620000801010090005a6c
1.1 apdu 80a8000002830000 80062000080101009000
1.1 outcome approved
1.1 message 03 Approved
x 1 A c2e0b4 16 =c2e0b4
1.1 end done
1.1 log 1 00a404000e325041592e5359532e444446303100
1.1 log 1 00a4040007a000000003101000
1.1 log 1 80a8000002830000
%% second-purchase
1.2 start type=00 amount=1000
1.2 pre 1 aid=a0000000031010 kernel=3 allowed=1 status=0 zero=0 floor=0 cvm=0 ttq=-
1.2 message 15 Present card
1.2 card A 01020304
1.2 apdu 00a404000e325041592e5359532e444446303100 6f23840e325041592e5359532e4444463031a511bf0c0e610c4f07a00000000310108701019000
1.2 candidates 1
1.2 apdu 00a4040007a000000003101000 6f098407a00000000310109000
1.2 activate 3 combination=1 name=a0000000031010 ttq=- fci=6f098407a0000000031010
1.2 apdu 80a8000002830000 80062000080101009000
1.2 outcome approved
1.2 message 03 Approved
1.2 end done
1.2 log 1 00a404000e325041592e5359532e444446303100
1.2 log 1 00a4040007a000000003101000
1.2 log 1 80a8000002830000
"#;
