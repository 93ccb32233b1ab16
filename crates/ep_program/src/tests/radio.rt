//! Purchases in which frames are lost or damaged, or the card leaves.

pub const CASES: &str = r#"
%% presented
1.1 start type=00 amount=1000
1.1 pre 1 aid=a0000000031010 kernel=3 allowed=1 status=0 zero=0 floor=0 cvm=0 ttq=-
1.1 message 15 Present card
1.1 card A 01020304
%% selected
1.1 apdu 00a404000e325041592e5359532e444446303100 6f23840e325041592e5359532e4444463031a511bf0c0e610c4f07a00000000310108701019000
1.1 candidates 1
1.1 apdu 00a4040007a000000003101000 6f098407a00000000310109000
1.1 activate 3 combination=1 name=a0000000031010 ttq=- fci=6f098407a0000000031010
%% kernel
x 1 A 0280a8000002830000182f 16 =02800620000801010090005a6c
%% kernel-again
x 1 A 0280a8000002830000182f 16 -
x 1 A b267c7 16 =020102900080a6
%% kernel-waits
x 1 A 0280a8000002830000182f 16 =f2038363
x 1 A f2038363 48 =f2038363
x 1 A f2038363 48 -
x 1 A b267c7 16 =f2038363
x 1 A f2038363 48 =02800620000801010090005a6c
%% = a lost answer of two
edit amount = 1000\n => amount = 1000\nfates = [9, "- x"]\n
edit ["80062000080101009000"] => ["01029000", "03049000"]
change 80062000080101009000 => 01029000
%% = a lost answer of two, and the exchanges
words /run/trace
edit amount = 1000\n => amount = 1000\nfates = [9, "- x"]\n
edit ["80062000080101009000"] => ["01029000", "03049000"]
text <traced>
change <kernel> => <kernel-again>
change 80062000080101009000 => 01029000
%% = a damaged answer
edit amount = 1000\n => amount = 1000\nfates = [7, "- b0:0001"]\n
%% = two lost exchanges of each command
edit amount = 1000\n => amount = 1000\nfates = [7, "- x", "- x", 1, "x -", "x -"]\n
%% = three lost answers
edit amount = 1000\n => amount = 1000\nfates = [7, "- x", "- x", "- x"]\n
text <presented>1.1 end link\n1.1 log 1 00a404000e325041592e5359532e444446303100\n
%% = three lost commands
edit amount = 1000\n => amount = 1000\nfates = [7, "x -", "x -", "x -"]\n
text <presented>1.1 end link\n
%% = a card that leaves with its answer
edit amount = 1000\n => amount = 1000\nfates = [9, "- v"]\n
text <presented><selected>1.1 end link\n1.1 log 1 00a404000e325041592e5359532e444446303100\n1.1 log 1 00a4040007a000000003101000\n1.1 log 1 80a8000002830000\n
%% = a card that leaves before a command
edit amount = 1000\n => amount = 1000\nfates = [9, "v -"]\n
text <presented><selected>1.1 end link\n1.1 log 1 00a404000e325041592e5359532e444446303100\n1.1 log 1 00a4040007a000000003101000\n
%% = a lost request for more time
edit amount = 1000\n => amount = 1000\nfates = [11, "x -"]\n
edit prefix = "80a8"\n => prefix = "80a8"\nwtx = 2\nwtxm = 3\n
%% = a lost request for more time, and the exchanges
words /run/trace
edit amount = 1000\n => amount = 1000\nfates = [11, "x -"]\n
edit prefix = "80a8"\n => prefix = "80a8"\nwtx = 2\nwtxm = 3\n
text <traced>
change <kernel> => <kernel-waits>
%% = a purchase after a failed link
document <version><combination><lane><card><directory><application><script><card><directory><application><script>
edit [[lanes]]\n[[lanes.transactions]]\ntype = 0\namount = 1000\n => [[lanes]]\n[[lanes.transactions]]\ntype = 0\namount = 1000\nfates = [7, "x -", "x -", "x -"]\n
text <presented>1.1 end link\n<second-purchase>
"#;
