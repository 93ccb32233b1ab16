//! Purchases with no card, with cards of both types, and with several cards.

pub const CASES: &str = r#"
%% uid
kind = "A"
uid = "01020304"
%% whole-card
[[lanes.transactions.cards]]
kind = "A"
uid = "01020304"
ppse = ["6f23840e325041592e5359532e4444463031a511bf0c0e610c4f07a00000000310108701019000"]
[[lanes.transactions.cards.apps]]
name = "a0000000031010"
select = ["6f098407a00000000310109000"]
[[lanes.transactions.cards.apps.rules]]
prefix = "80a8"
responses = ["80062000080101009000"]
%% second-of-a
[[lanes.transactions.cards]]
kind = "A"
uid = "041122778899aa"
ppse = ["6f23840e325041592e5359532e4444463031a511bf0c0e610c4f07a00000000310108701019000"]
[[lanes.transactions.cards.apps]]
name = "a0000000031010"
select = ["6f098407a00000000310109000"]
[[lanes.transactions.cards.apps.rules]]
prefix = "80a8"
responses = ["80062000080101009000"]
[[lanes.transactions.scripts]]
%% second-of-b
[[lanes.transactions.cards]]
kind = "B"
pupi = "11223344"
[[lanes.transactions.scripts]]
%% first-alone
1.1 message 19 Please present one card only
1.1 card A 04112233445566
%% collisions
1.1 start type=00 amount=1000
1.1 pre 1 aid=a0000000031010 kernel=3 allowed=1 status=0 zero=0 floor=0 cvm=0 ttq=-
1.1 message 15 Present card
1.1 message 19 Please present one card only
1.1 end nocard
%% trace-of-b
1.1 start type=00 amount=1000
1.1 pre 1 aid=a0000000031010 kernel=3 allowed=1 status=0 zero=0 floor=0 cvm=0 ttq=-
1.1 message 15 Present card
x 1 S 52 0 -
x 1 B 0500083973 0 =501122334400000000008140dc88
x 1 B 1d1122334400080100db35 0 =0078f0
1.1 card B 11223344
x 1 B 0200a404000e325041592e5359532e4444463031002a2d 16 =026f23840e325041592e5359532e4444463031a511bf0c0e610c4f07a00000000310108701019000607c
1.1 apdu 00a404000e325041592e5359532e444446303100 6f23840e325041592e5359532e4444463031a511bf0c0e610c4f07a00000000310108701019000
1.1 candidates 1
x 1 B 0300a4040007a0000000031010003e55 16 =036f098407a00000000310109000c73f
1.1 apdu 00a4040007a000000003101000 6f098407a00000000310109000
1.1 activate 3 combination=1 name=a0000000031010 ttq=- fci=6f098407a0000000031010
x 1 B 0280a80000028300007300 16 =0280062000080101009000153b
1.1 apdu 80a8000002830000 80062000080101009000
1.1 outcome approved
1.1 message 03 Approved
x 1 B c26615 16 =c26615
1.1 end done
1.1 log 1 00a404000e325041592e5359532e444446303100
1.1 log 1 00a4040007a000000003101000
1.1 log 1 80a8000002830000
%% = an application of another name
edit name = "a0000000031010" => name = "a0000000031011"
text <other-report>
%% = no card in the field
edit kernel = 3\n[[lanes]] => kernel = 3\nlimit = 1001\n[[lanes]]
edit amount = 1000\n => amount = 1000\ncards = []\n
edit <whole-card> =>
text <no-card>
%% = two cards of Type A
edit amount = 1000\n => amount = 1000\npresence = [[1, 2], [1]]\n
edit <uid> => kind = "A"\nuid = "04112233445566"\n
edit [[lanes.transactions.scripts]]\n => <second-of-a>
change 1.1 card A 01020304\n => <first-alone>
%% = cards of both types
edit [[lanes.transactions.scripts]]\n => <second-of-b>
text <collisions>
%% = a second card whose answer is lost
edit amount = 1000\n => amount = 1000\nfates = [2, "- x"]\n
edit [[lanes.transactions.scripts]]\n => <second-of-b>
%% = a card of Type B
edit <uid> => kind = "B"\npupi = "11223344"\n
change card A 01020304 => card B 11223344
%% = the trace of a card of Type B
words /run/trace
edit <uid> => kind = "B"\npupi = "11223344"\n
text <trace-of-b>
"#;
