//! The keys of the root and of a lane, the turns, and the trace of an earlier run.

/// Keys of the root.
pub const ROOT: &str = r#"
for version = 1
# version
=> Missing version 0
version = '1' => WrongKind version 0
version = 1.0 => WrongKind version 0
version = true => WrongKind version 0
version = [1] => WrongKind version 0
version = 0 => BadValue version 0
version = 2 => BadValue version 2
version = -1 => BadValue version -1
version = 9223372036854775807 => BadValue version 9223372036854775807
version = -9223372036854775808 => BadValue version -9223372036854775808
version = 0x1 => read

# the numbers for amounts and frames
with version = 1\n*
exponent = -1 => BadValue exponent -1
exponent = 5 => BadValue exponent 5
exponent = '2' => WrongKind exponent 0
exponent = 2.0 => WrongKind exponent 0
exponent = 0 => read
exponent = 4 => read
fsdi = -1 => BadValue fsdi -1
fsdi = 9 => BadValue fsdi 9
fsdi = '8' => WrongKind fsdi 0
fsdi = [8] => WrongKind fsdi 0
fsdi = 0 => read
fsdi = 8 => read

# unknown keys
zz = 1 => UnknownKey . 4
Zz = 1 => UnknownKey . 1
'' = 1 => UnknownKey . 1
'é' = 1 => UnknownKey . 4
b = 1\na = 1 => UnknownKey . 1
combination = 1 => UnknownKey . 1
lane = 1 => UnknownKey . 2
lanes2.x = 1 => UnknownKey . 3
updates = [] => UnknownKey . 3
versions = 1 => UnknownKey . 4
for version = 1
version = 2\nfsdi = 9\nzz = 1 => UnknownKey . 5

# the trace of an earlier run
with version = 1\ntrace = *
1 => WrongKind trace 0
'x 1 S 52 0 -' => WrongKind trace 0
['x 9 S 52 0 -', 1] => WrongKind trace 0
['x 1 S 52 0 -', 'x 9 S 52 0 -'] => BadValue trace[2] 12
[''] => BadValue trace[1] 0
[<65537:'',>] => TooMany trace 65537

# no TOML
for document
a= => NotToml
version = 1\nversion = 1 => NotToml
version = 9223372036854775808 => NotToml
zz = 1\n[ => NotToml
for amount = 1000
amount = 1000\namount = -1 => NotToml
"#;

/// Lanes and turns.
pub const LANES: &str = r#"
for document
version = 1 => Missing lanes 0

# how many lanes
with version = 1\nlanes = *
{} => WrongKind lanes 0
1 => WrongKind lanes 0
[1] => WrongKind lanes 0
[{}, []] => WrongKind lanes 0
[] => BadValue lanes 0
[{}, {}] => Missing lanes[1].transactions 0
[<9:{},>] => TooMany lanes 9
[<10:{},>] => TooMany lanes 10
[<100:{},>] => TooMany lanes 100

# keys of a lane
at lanes[1]
with [*]
{} => Missing @.transactions 0
{transactions = 1} => WrongKind @.transactions 0
{transactions = {}} => WrongKind @.transactions 0
{transactions = [1]} => WrongKind @.transactions 0
{transactions = []} => BadValue @.transactions 0
{transactions = [{}]} => Missing @.transactions[1].type 0
{transactions = [], zz = 1} => UnknownKey @ 2
{aa = 1} => UnknownKey @ 1
{type = 1, transactions = 1} => UnknownKey @ 2

# a later lane
at lanes[3]
with {transactions = [{type = 0, amount = 0}]}, {transactions = [{type = 0, amount = 0}]}, *, {}
{} => Missing @.transactions 0
{transactions = []} => BadValue @.transactions 0
{zz = 1} => UnknownKey @ 1

# how many transactions
for document
with version = 1\nlanes = [{transactions = [*]}]
<64:{type = 0, amount = 0, cards = [{kind = 'A', uid = '01020304'}]},> => read
<65:{},> => TooMany lanes[1].transactions 65

# turns of no lane
for document
with version = 1\nlanes = [<1:{transactions = [{type = 0, amount = 0}]},>]\nturns = *
[2] => BadValue turns[1] 2
for document
with version = 1\nlanes = [<2:{transactions = [{type = 0, amount = 0}]},>]\nturns = *
[0] => BadValue turns[1] 0
[1, 2, 3, 0] => BadValue turns[3] 3
[2, -1] => BadValue turns[2] -1
[257] => BadValue turns[1] 257
[4294967297] => BadValue turns[1] 4294967297
[<4097:1,>] => TooMany turns 4097
[<4097:0,>] => TooMany turns 4097

# kinds of the turns
1 => WrongKind turns 0
'1' => WrongKind turns 0
true => WrongKind turns 0
{} => WrongKind turns 0
['1'] => WrongKind turns 0
[1, 2, '1'] => WrongKind turns 0
[0, 1.0] => WrongKind turns 0
[true] => WrongKind turns 0
[[1]] => WrongKind turns 0
[{}] => WrongKind turns 0
[<4097:'',>] => WrongKind turns 0
for document
with version = 1\nlanes = [<7:{transactions = [{type = 0, amount = 0}]},>]\nturns = *
[8] => BadValue turns[1] 8
for document
with version = 1\nlanes = [<8:{transactions = [{type = 0, amount = 0}]},>]\nturns = *
[8, 9] => BadValue turns[2] 9
"#;
