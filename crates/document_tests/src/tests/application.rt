//! The keys of an application on a card, and of its rules.

/// Keys of an application.
pub const APPLICATIONS: &str = r#"
at lanes[1].transactions[1].cards[1].apps[1]
for name = "a0000000041010"
=> Missing @.name 0
name = 0xa000 => WrongKind @.name 0
name = '' => BadValue @.name 0
name = 'a0000000' => BadValue @.name 8
name = 'a00000000' => BadValue @.name 9
name = 'visa000000' => BadValue @.name 10
name = '000102030405060708090a0b0c0d0e0f10' => BadValue @.name 34
name = 'a000000004' => read
name = '000102030405060708090A0B0C0D0E0F' => read

# unknown keys
name = 'a0'\nzz = 1 => UnknownKey @ 4
name = 'a0'\naa = 1 => UnknownKey @ 1
name = 'a0'\nprefix = '80' => UnknownKey @ 2
name = 'a0'\nwtx = 1\nwtxn = 1 => UnknownKey @ 5

# waiting at a SELECT
with name = 'a000000004'\n*
wtx = -1 => BadValue @.wtx -1
wtx = 9 => BadValue @.wtx 9
wtx = 'x' => WrongKind @.wtx 0
wtxm = 0 => BadValue @.wtxm 0
wtxm = 60 => BadValue @.wtxm 60
wtxm = true => WrongKind @.wtxm 0
wtxm = 60\nwtx = 9 => BadValue @.wtx 9
wtx = 0\nwtxm = 1 => read
wtx = 8\nwtxm = 59 => read

# answers to SELECT
for select = ["6f009000"]
=> Missing @.select 0
with select = *
'9000' => WrongKind @.select 0
['9000', {}] => WrongKind @.select 0
[] => BadValue @.select 0
['90'] => BadValue @.select[1] 2
['9000', '9'] => BadValue @.select[2] 1
[<17:'',>] => TooMany @.select 17
[<16:'6a82',>] => read

# the array
at lanes[1].transactions[1].cards[1].apps
for applications
=> read
<17:[[lanes.transactions.cards.apps]]\nname = "a0000000041010"\nselect = ["6f009000"]\n[[lanes.transactions.cards.apps.rules]]\nprefix = "80a8"\nresponses = ["80009000"]\n> => TooMany @ 17
<16:[[lanes.transactions.cards.apps]]\nname = "a0000000041010"\nselect = ["6f009000"]\n[[lanes.transactions.cards.apps.rules]]\nprefix = "80a8"\nresponses = ["80009000"]\n> => read
[[lanes.transactions.cards.apps]]\nname = "a0000000041010"\nselect = ["6f009000"]\n[[lanes.transactions.cards.apps.rules]]\nprefix = "80a8"\nresponses = ["80009000"]\n[[lanes.transactions.cards.apps]]\nname = 'a0'\n => BadValue @[2].name 2
with apps = *\n
1 => WrongKind @ 0
{} => WrongKind @ 0
[1] => WrongKind @ 0
[{}, 1] => WrongKind @ 0
[{}] => Missing @[1].name 0
[] => read
"#;

/// Keys of a rule.
pub const RULES: &str = r#"
at lanes[1].transactions[1].cards[1].apps[1].rules[1]
for prefix = "80a8"
=> Missing @.prefix 0
prefix = 80 => WrongKind @.prefix 0
prefix = ['80a8'] => WrongKind @.prefix 0
prefix = '' => BadValue @.prefix 0
prefix = '8' => BadValue @.prefix 1
prefix = '8g' => BadValue @.prefix 2
prefix = '<261:80>00' => BadValue @.prefix 524
prefix = '<261:80>' => read
prefix = '80' => read

# unknown keys
prefix = ''\nzz = 1 => UnknownKey @ 3
prefix = ''\naa = 1 => UnknownKey @ 1
prefix = ''\nq = 1 => UnknownKey @ 2
prefix = ''\nname = 'a000000004' => UnknownKey @ 1

# waiting
with prefix = '80'\n*
wtx = -1 => BadValue @.wtx -1
wtx = 9 => BadValue @.wtx 9
wtx = 1.0 => WrongKind @.wtx 0
wtxm = 0 => BadValue @.wtxm 0
wtxm = 60 => BadValue @.wtxm 60
wtxm = '1' => WrongKind @.wtxm 0
wtx = 0\nwtxm = 1 => read
wtx = 8\nwtxm = 59 => read

# responses
for responses = ["80009000"]
=> Missing @.responses 0
with responses = *
'9000' => WrongKind @.responses 0
[1] => WrongKind @.responses 0
[] => BadValue @.responses 0
['90'] => BadValue @.responses[1] 2
['9000', 'OK00'] => BadValue @.responses[2] 4
[<17:'9000',>] => TooMany @.responses 17
[<16:'9000',>] => read

# the array
at lanes[1].transactions[1].cards[1].apps[1].rules
for rules
=> read
<33:[[lanes.transactions.cards.apps.rules]]\nprefix = "80a8"\nresponses = ["80009000"]\n> => TooMany @ 33
<32:[[lanes.transactions.cards.apps.rules]]\nprefix = "80a8"\nresponses = ["80009000"]\n> => read
with rules = *\n
1 => WrongKind @ 0
['80a8'] => WrongKind @ 0
[{}] => Missing @[1].prefix 0
[{prefix = '80'}] => Missing @[1].responses 0
[] => read

# the last response of the last rule
at lanes[1].transactions[64].cards[1].apps[16].rules[32].responses[16]
for document
with version = 1\nlanes = [{transactions = [*]}]
with <63:{type = 0, amount = 0, cards = [{kind = 'A', uid = '01020304'}]},> {type = 0, amount = 0, cards = [*]}
with {kind = 'A', uid = '01020304', apps = [<15:{name = 'a000000004', select = ['9000']},> *]}
with {name = 'a000000004', select = ['9000'], rules = [<31:{prefix = '80', responses = ['9000']},> *]}
{prefix = '80', responses = [<15:'9000', > '90']} => BadValue @ 2
"#;
