//! The keys of a card of Type A and of one of Type B.

/// Keys of a card.
pub const CARD_A: &str = r#"
at lanes[1].transactions[1].cards[1]
for kind = "A"
=> Missing @.kind 0
kind = 1 => WrongKind @.kind 0
kind = ['A'] => WrongKind @.kind 0
kind = '' => BadValue @.kind 0
kind = 'C' => BadValue @.kind 1
kind = 'a' => BadValue @.kind 1
kind = 'é' => BadValue @.kind 2
kind = 'AB' => BadValue @.kind 2
kind = 'raw' => BadValue @.kind 3
kind = 'B' => UnknownKey @ 4

# the kind before the other keys
zz = 1 => Missing @.kind 0
zz = 1\nkind = true => WrongKind @.kind 0
zz = 1\nkind = 'C' => BadValue @.kind 1
zz = 1\nkind = 'B' => UnknownKey @ 4
zz = 1\nkind = 'A' => UnknownKey @ 5

# unknown keys
with kind = 'A'\n*
aa = 1 => UnknownKey @ 1
app_data = '00000000' => UnknownKey @ 1
iso4 = true => UnknownKey @ 2
pupi = '11223344' => UnknownKey @ 4
sak = '20'\nuid2 = 1 => UnknownKey @ 6
fwi = 15\nUID = 1 => UnknownKey @ 1

# the byte of a card's selection
sak = 20 => WrongKind @.sak 0
sak = ['20'] => WrongKind @.sak 0
sak = '' => BadValue @.sak 0
sak = '2' => BadValue @.sak 1
sak = '2g' => BadValue @.sak 2
sak = '2020' => BadValue @.sak 4
sak = '04' => BadValue @.sak 2
sak = '24' => BadValue @.sak 2
sak = 'fF' => BadValue @.sak 2
sak = '20' => read
sak = '00' => read
sak = '28' => read
sak = 'Fb' => read

# historical bytes
historical = 1 => WrongKind @.historical 0
historical = [] => WrongKind @.historical 0
historical = '0' => BadValue @.historical 1
historical = '0g' => BadValue @.historical 2
historical = '000102030405060708090a0b0c0d0e0f' => BadValue @.historical 32
historical = '' => read
historical = '000102030405060708090a0b0c0d0e' => read

# frame size and waiting time
fsci = -1 => BadValue @.fsci -1
fsci = 9 => BadValue @.fsci 9
fsci = '8' => WrongKind @.fsci 0
fwi = -1 => BadValue @.fwi -1
fwi = 15 => BadValue @.fwi 15
fwi = true => WrongKind @.fwi 0
fsci = 0\nfwi = 0 => read
fsci = 8\nfwi = 14 => read

for uid = "01020304"
=> Missing @.uid 0
uid = 1020304 => WrongKind @.uid 0
uid = ['01020304'] => WrongKind @.uid 0
uid = '' => BadValue @.uid 0
uid = '010203' => BadValue @.uid 6
uid = '0102030' => BadValue @.uid 7
uid = '0102030g' => BadValue @.uid 8
uid = '0102030405' => BadValue @.uid 10
uid = '0102030405060708' => BadValue @.uid 16
uid = '0102030405060708090a0b' => BadValue @.uid 22
uid = '88020304' => BadValue @.uid 8
uid = '01020388050607' => BadValue @.uid 14
uid = '01028804' => read
uid = 'ABcdEF01' => read
uid = '01020304050607' => read
uid = '88020304050607' => read
uid = '0102030405060708090a' => read
uid = '8802038805068808090a' => read

# answers to SELECT PPSE
for ppse = ["6a82"]
=> read
with ppse = *
'6a82' => WrongKind @.ppse 0
[9000] => WrongKind @.ppse 0
['90', 9000] => WrongKind @.ppse 0
[['9000']] => WrongKind @.ppse 0
[''] => BadValue @.ppse[1] 0
['90'] => BadValue @.ppse[1] 2
['9000', '900'] => BadValue @.ppse[2] 3
['9000', '9000', '90 00'] => BadValue @.ppse[3] 5
[<17:'90',>] => TooMany @.ppse 17
[<16:'9000',>] => read
[] => read

# the longest answer, and one byte more
['<258:00>'] => read
['<258:00>', '<258:00>00'] => BadValue @.ppse[2] 518
"#;

/// Keys of a card of Type B.
pub const CARD_B: &str = r#"
at lanes[1].transactions[1].cards[1]
for kind = "A"\nuid = "01020304"
kind = 'B' => Missing @.pupi 0
kind = 'B'\npupi = 11223344 => WrongKind @.pupi 0
kind = 'B'\npupi = ['11223344'] => WrongKind @.pupi 0
kind = 'B'\npupi = '' => BadValue @.pupi 0
kind = 'B'\npupi = '112233' => BadValue @.pupi 6
kind = 'B'\npupi = '1122334' => BadValue @.pupi 7
kind = 'B'\npupi = '1122334g' => BadValue @.pupi 8
kind = 'B'\npupi = '1122334455' => BadValue @.pupi 10
kind = 'B'\npupi = '00000000' => read
kind = 'B'\npupi = '88aAbBfF' => read

# application data
with kind = 'B'\npupi = '11223344'\n*
app_data = 0 => WrongKind @.app_data 0
app_data = '' => BadValue @.app_data 0
app_data = '000000' => BadValue @.app_data 6
app_data = '0000000x' => BadValue @.app_data 8
app_data = '0000000000' => BadValue @.app_data 10
app_data = 'Ffffffff' => read

# the block protocol
iso4 = 1 => WrongKind @.iso4 0
iso4 = 'true' => WrongKind @.iso4 0
iso4 = [true] => WrongKind @.iso4 0
iso4 = true => read
iso4 = false => read

# frame size and waiting time
fsci = -1 => BadValue @.fsci -1
fsci = 9 => BadValue @.fsci 9
fsci = '8' => WrongKind @.fsci 0
fwi = -1 => BadValue @.fwi -1
fwi = 15 => BadValue @.fwi 15
fwi = true => WrongKind @.fwi 0
fsci = 0\nfwi = 0 => read
fsci = 8\nfwi = 14 => read

# unknown keys
aa = 1 => UnknownKey @ 1
historical = '' => UnknownKey @ 2
sak = '20' => UnknownKey @ 5
uid = '01020304' => UnknownKey @ 5
fwi = 15\nzz = 1 => UnknownKey @ 6

# keys in order
iso4 = 0\napp_data = '' => BadValue @.app_data 0
fsci = 9\niso4 = 0 => WrongKind @.iso4 0
fwi = 15\nfsci = 9 => BadValue @.fsci 9
for kind = "A"\nuid = "01020304"
kind = 'B'\napp_data = 0 => Missing @.pupi 0
kind = 'B'\niso4 = 0\npupi = '' => BadValue @.pupi 0
"#;
