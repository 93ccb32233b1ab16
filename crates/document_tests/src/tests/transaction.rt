//! The keys of a transaction: its amount, its cards, its rounds and exchanges, its scripts.

/// Keys of a transaction.
pub const TRANSACTIONS: &str = r#"
at lanes[1].transactions[1]
for type = 0
=> Missing @.type 0
type = '00' => WrongKind @.type 0
type = 0.0 => WrongKind @.type 0
type = -1 => BadValue @.type -1
type = 256 => BadValue @.type 256
type = 0xff => read

for amount = 1000
=> Missing @.amount 0
amount = '1000' => WrongKind @.amount 0
amount = 1e3 => WrongKind @.amount 0
amount = 10.00 => WrongKind @.amount 0
amount = -1 => BadValue @.amount -1
amount = 1000000000000 => BadValue @.amount 1000000000000
amount = 0 => read
amount = 999999999999 => read

# unknown keys
amount = -1\ntypes = 1 => UnknownKey @ 5
with amount = 1000\n*
zz = 1 => UnknownKey @ 5
aa = 1 => UnknownKey @ 1
amount2 = 1 => UnknownKey @ 2
kind = 'A' => UnknownKey @ 3
host = ['3030'] => UnknownKey @ 3
presence = 1\nq = 1 => UnknownKey @ 4

# which cards are there in which round
for amount = 1000
with amount = 1\npresence = *
1 => WrongKind @.presence 0
[1] => WrongKind @.presence 0
[[], 1] => WrongKind @.presence 0
[[true]] => WrongKind @.presence 0
[['1']] => WrongKind @.presence 0
[[2], [[]]] => WrongKind @.presence 0
[[1, 1, 1, 1, 1]] => TooMany @.presence[1] 5
[[1], [2]] => BadValue @.presence[2][1] 2
[[1, 1, 0]] => BadValue @.presence[1][3] 0
[[-1]] => BadValue @.presence[1][1] -1
[<65:[2],>] => TooMany @.presence 65
[<64:[1],>] => read
[] => read
[[], [1, 1, 1, 1]] => read
for document
version = 1\nlanes = [{transactions = [{type = 0, amount = 0, presence = [[], [1]]}]}] => BadValue @.presence[2][1] 1

# fates
for amount = 1000
with amount = 1\nfates = *
'x x' => WrongKind @.fates 0
{} => WrongKind @.fates 0
[1, true] => WrongKind @.fates[2] 0
[[]] => WrongKind @.fates[1] 0
[0, true] => BadValue @.fates[1] 0
[1000001] => BadValue @.fates[1] 1000001
['- x', ''] => BadValue @.fates[2] 0
['-  x'] => BadValue @.fates[1] 4
['x'] => BadValue @.fates[1] 1
['- X'] => BadValue @.fates[1] 3
['- b4096:0001'] => BadValue @.fates[1] 12
[] => read
[1, 1000000, '- x', 'x -', 'v v'] => read
['b0:0000 b4095:FfFf', 'b0009:8001 v'] => read
[<4097:1,>] => TooMany @.fates 4097
[<4096:'- -',>] => read

# how many scripts
for script
=> read
[lanes.transactions.scripts] => WrongKind @.scripts 0
[[lanes.transactions.scripts]]\noutcome = 'end' => Missing @.scripts[1].kernel 0
<4:[[lanes.transactions.scripts]]\nkernel = 3\nsteps = [{send = "80ae8000"}]\noutcome = "approved 03"\n> => read
for amount = 1000
without script
with amount = 1\nscripts = *
1 => WrongKind @.scripts 0
['end'] => WrongKind @.scripts 0
[{}, []] => WrongKind @.scripts 0
[{}, {}, {}, {}, {}] => TooMany @.scripts 5

# a later transaction
at lanes[1].transactions[3]
for document
with version = 1\nlanes = [{transactions = [*]}]
with <2:{type = 0, amount = 0, cards = [{kind = 'A', uid = '01020304'}]}, >*, {}
{} => Missing @.type 0
{type = 0, amount = -5} => BadValue @.amount -5
{type = 0, amount = 5, scripts = 1} => WrongKind @.scripts 0
{type = 0, a = 5} => UnknownKey @ 1
for document
with version = 1\nlanes = [{transactions = [*]}]
<2:{type = 0, amount = 0, cards = [{kind = 'A', uid = '01020304'}]},> => read
"#;

/// Cards of a transaction.
pub const CARDS: &str = r#"
at lanes[1].transactions[1].cards
for card
=> read
<2:[[lanes.transactions.cards]]\nkind = "A"\nuid = "01020304"\nppse = ["6a82"]\n[[lanes.transactions.cards.apps]]\nname = "a0000000041010"\nselect = ["6f009000"]\n[[lanes.transactions.cards.apps.rules]]\nprefix = "80a8"\nresponses = ["80009000"]\n> => Conflict @[2].uid 1

# how many cards
with cards = *\n
{} => WrongKind @ 0
1 => WrongKind @ 0
[1] => WrongKind @ 0
[{}, 'A'] => WrongKind @ 0
[{}] => Missing @[1].kind 0
[{}, {}] => Missing @[1].kind 0
[{}, {}, {}, {}, {}] => TooMany @ 5
[] => read

# four cards
with [{kind = 'A', uid = '01020304'}, *]
{kind = 'A', uid = '01020305'}, {kind = 'B', pupi = '01020304'}, {kind = 'B', pupi = '01020305'} => read

# equal identifiers
{kind = 'B', pupi = '05060708'}, {kind = 'B', pupi = '05060708'}, {kind = 'A', uid = '01020304'} => Conflict @[3].pupi 2
{kind = 'A', uid = '01020304'}, {} => Missing @[3].kind 0
{kind = 'A', uid = '01020304', apps = 1} => WrongKind @[2].apps 0
{kind = 'B', pupi = '01020304'} => read
{kind = 'A', uid = '01020304050607'} => read
for card
with cards = [*]\n
{kind = 'A', uid = '0a020304'}, {kind = 'A', uid = '0A020304'} => Conflict @[2].uid 1
{kind = 'B', pupi = '01020304'}, {kind = 'A', uid = '01020304'}, {kind = 'B', pupi = '01020304'} => Conflict @[3].pupi 1
{kind = 'A', uid = '01020304050607'}, {kind = 'A', uid = '01020304'}, {kind = 'A', uid = '01020304'} => Conflict @[3].uid 2
{kind = 'A', uid = '01020305'}<3:, {kind = 'A', uid = '01020304'}> => Conflict @[3].uid 2
{kind = 'B', pupi = '01020304'}, {kind = 'A', uid = '01020304'}, {kind = 'B', pupi = '01020305'}, {kind = 'B', pupi = '01020304'} => Conflict @[4].pupi 1
"#;
