//! Purchases whose kernels ask for another application or for the card again, several purchases, and a usual one.

pub const CASES: &str = r#"
%% restarts
1.1 start type=00 amount=1000
1.1 pre 1 aid=a000000003 kernel=3 allowed=1 status=0 zero=0 floor=0 cvm=0 ttq=-
1.1 message 15 Present card
1.1 card A 01020304
1.1 apdu 00a404000e325041592e5359532e444446303100 6f2d840e325041592e5359532e4444463031a51bbf0c1861094f07a0000000031010610b4f09a000000003101001029000
1.1 candidates 2
1.1 apdu 00a4040007a000000003101000 9000
1.1 activate 3 combination=1 name=a0000000031010 ttq=- fci=
1.1 outcome select-next
1.1 apdu 00a4040009a0000000031010010200 9000
1.1 activate 3 combination=1 name=a00000000310100102 ttq=- fci=
1.1 outcome try-again
1.1 message 21 Present card again
1.1 card A 01020304
1.1 apdu 00a404000e325041592e5359532e444446303100 6f2d840e325041592e5359532e4444463031a51bbf0c1861094f07a0000000031010610b4f09a000000003101001029000
1.1 candidates 2
1.1 apdu 00a4040007a000000003101000 9000
1.1 activate 3 combination=1 name=a0000000031010 ttq=- fci=
1.1 outcome approved
1.1 message 03 Approved
1.1 end done
1.1 log 1 00a404000e325041592e5359532e444446303100
1.1 log 1 00a4040007a000000003101000
1.1 log 1 00a4040009a0000000031010010200
1.1 log 1 00a404000e325041592e5359532e444446303100
1.1 log 1 00a4040007a000000003101000
%% one-name
name = "a0000000031010"
select = ["6f098407a00000000310109000"]
%% two-names
name = "a0000000031010"
select = ["9000"]
[[lanes.transactions.cards.apps]]
name = "a00000000310100102"
select = ["9000"]
%% three-scripts
[[lanes.transactions.scripts]]
kernel = 3
outcome = "select-next"
[[lanes.transactions.scripts]]
kernel = 3
outcome = "try-again 21"
[[lanes.transactions.scripts]]
kernel = 3
outcome = "approved 03"
%% second-undirected
1.2 start type=00 amount=1000
1.2 pre 1 aid=a0000000031010 kernel=3 allowed=1 status=0 zero=0 floor=0 cvm=0 ttq=-
1.2 message 15 Present card
1.2 card A 01020304
1.2 apdu 00a404000e325041592e5359532e444446303100 6a82
1.2 candidates 0
1.2 outcome end
1.2 message 1c Insert, swipe or try another card
1.2 end done
1.2 log 1 00a404000e325041592e5359532e444446303100
%% usual

version = 1
[[combinations]]
type = 0
aid = "a0000000041010"
kernel = 2
limit = 1000000
floor = 0
cvm = 5000
[[combinations]]
type = 0
aid = "a0000000031010"
kernel = 3
limit = 1000000
floor = 0
cvm = 5000
ttq = "36004000"
[[lanes]]
[[lanes.transactions]]
type = 0
amount = 2500
[[lanes.transactions.cards]]
kind = "A"
uid = "04112233445566"
fwi = 7
ppse = ["6f33840e325041592e5359532e4444463031a521bf0c1e611c4f07a0000000031010500a564953412044454249548701019f2a01039000"]
[[lanes.transactions.cards.apps]]
name = "a0000000031010"
select = ["6f1d8407a0000000031010a512500a564953412044454249549f38039f66049000"]
[[lanes.transactions.cards.apps.rules]]
prefix = "80a8"
responses = ["80062000080101009000"]
[[lanes.transactions.cards.apps.rules]]
prefix = "00b2"
responses = ["70045f3401019000"]
[[lanes.transactions.scripts]]
kernel = 3
steps = [{send = "80a8000006830436804000" }, {send = "00b2010c00"}]
outcome = "online"
%% usual-report
1.1 start type=00 amount=2500
1.1 pre 1 aid=a0000000041010 kernel=2 allowed=1 status=0 zero=0 floor=1 cvm=0 ttq=-
1.1 pre 2 aid=a0000000031010 kernel=3 allowed=1 status=0 zero=0 floor=1 cvm=0 ttq=36804000
1.1 message 15 Present card
1.1 card A 04112233445566
1.1 apdu 00a404000e325041592e5359532e444446303100 6f33840e325041592e5359532e4444463031a521bf0c1e611c4f07a0000000031010500a564953412044454249548701019f2a01039000
1.1 candidates 1
1.1 apdu 00a4040007a000000003101000 6f1d8407a0000000031010a512500a564953412044454249549f38039f66049000
1.1 activate 3 combination=2 name=a0000000031010 ttq=36804000 fci=6f1d8407a0000000031010a512500a564953412044454249549f38039f6604
1.1 apdu 80a8000006830436804000 80062000080101009000
1.1 apdu 00b2010c00 70045f3401019000
1.1 outcome online
1.1 end done
1.1 log 1 00a404000e325041592e5359532e444446303100
1.1 log 1 00a4040007a000000003101000
1.1 log 1 80a8000006830436804000
1.1 log 1 00b2010c00
%% = the next application and the card again
edit aid = "a0000000031010" => aid = "a000000003"
edit 6f23840e325041592e5359532e4444463031a511bf0c0e610c4f07a00000000310108701019000 => 6f2d840e325041592e5359532e4444463031a51bbf0c1861094f07a0000000031010610b4f09a000000003101001029000
edit <one-name> => <two-names>
edit <script> => <three-scripts>
text <restarts>
%% = a kernel without a script
edit <script> =>
text <unscripted-report>
%% = a status word that isn't wanted
edit {send = "80a8000002830000"} => {send = "80a8000002830000", want = "6283", other = "declined 07"}
change outcome approved => outcome declined
change message 03 Approved => message 07 Not authorised
%% = two purchases
document <version><combination><lane><card><directory><application><script><card><directory><application><script>
text <report><second-purchase>
%% = a second card without a directory
document <version><combination><lane><card><directory><application><script><card><no-directory><application><script>
text <report><second-undirected>
%% = a usual purchase
document <usual>
text <usual-report>
"#;
