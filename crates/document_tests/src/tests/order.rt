//! Documents with more than one fault: the first one in the order of the tables is told.

/// Keys in order.
pub const ORDER: &str = r#"
# the root
for document
zz = 1 => UnknownKey . 1
=> Missing version 0
lanes = [] => Missing version 0
version = 2 => BadValue version 2
version = 2\nfsdi = 1 => BadValue version 2
with version = 1\n*
exponent = 9\nfsdi = 9 => BadValue fsdi 9
exponent = 9\nfsdi = 1 => BadValue exponent 9
combinations = 1\nexponent = 9 => BadValue exponent 9
lanes = 1\ncombinations = 1 => WrongKind combinations 0
combinations = [{}] => Missing combinations[1].type 0
turns = 1\nlanes = 1 => WrongKind lanes 0
turns = 1 => Missing lanes 0
for version = 1
version = 1\ntrace = 1\nturns = 1 => WrongKind turns 0
version = 1\ntrace = 1\nturns = [1, 2] => BadValue turns[2] 2
version = 1\ntrace = 1\nturns = [1] => WrongKind trace 0
trace = 1\nturns = 1 => Missing version 0

# kinds before lengths before elements
for document
with version = 1\n*
lanes = [{}, {}, {}, {}, {}, {}, {}, {}, 1] => WrongKind lanes 0
lanes = [{}, {}, {}, {}, {}, {}, {}, {}, {}] => TooMany lanes 9
lanes = [{x = 1}, {}] => UnknownKey lanes[1] 1
turns = 1\nlanes = [{x = 1}] => UnknownKey lanes[1] 1

# a Combination
at combinations[1]
for combination
with combinations = [*]\n
{aid = 1} => Missing @.type 0
{type = 0, kernel = 0} => Missing @.aid 0
{aid = '', type = 256} => BadValue @.type 256
{type = 0, aid = '', kernel = 0} => BadValue @.aid 0
{type = 0, aid = 'a000000003'}, {} => Missing @.kernel 0
for kernel = 2
kernel = 0\nstatus_check = 1 => BadValue @.kernel 0
with kernel = 2\n*
zero_allowed = 1\nstatus_check = 1 => WrongKind @.status_check 0
limit = -1\nzero_allowed = 1 => WrongKind @.zero_allowed 0
floor = -2\nlimit = -1 => BadValue @.limit -1
terminal_floor = -3\nfloor = -2 => BadValue @.floor -2
cvm = -4\nterminal_floor = -3 => BadValue @.terminal_floor -3
extended = 1\ncvm = -4 => BadValue @.cvm -4
ttq = ''\nextended = 1 => WrongKind @.extended 0

# a transaction
at lanes[1].transactions[1]
for document
with version = 1\nlanes = [{transactions = [{*}, {}]}]
amount = -1 => Missing @.type 0
type = 0, cards = 1 => Missing @.amount 0
type = 0, amount = -1, cards = 1 => BadValue @.amount -1
with type = 0, amount = 0, *
presence = 1, fates = 1 => WrongKind @.presence 0
cards = [{}], fates = 1 => Missing @.cards[1].kind 0
cards = [{kind = 'A', uid = '01020304'}, {kind = 'A', uid = '01020304'}], presence = 1 => Conflict @.cards[2].uid 1
cards = [{kind = 'A', uid = '01020304'}], fates = 1, presence = [[2]] => BadValue @.presence[1][1] 2
cards = [{kind = 'A', uid = '01020304'}], fates = 1, scripts = 1 => WrongKind @.fates 0

# a card
at lanes[1].transactions[1].cards[1]
for kind = "A"\nuid = "01020304"
with kind = 'A'\n*
sak = '20' => Missing @.uid 0
uid = '88020304'\nsak = '20' => BadValue @.uid 8
uid = '01020304'\nhistorical = 1\nsak = '24' => BadValue @.sak 2
uid = '01020304'\nfsci = 9\nhistorical = 1 => WrongKind @.historical 0
uid = '01020304'\nfwi = 15\nfsci = 9 => BadValue @.fsci 9
for card
[[lanes.transactions.cards]]\nkind = 'A'\nuid = '01020304'\nppse = 1\nfwi = 15\n => BadValue @.fwi 15
for ppse = ["6a82"]\n[[lanes.transactions.cards.apps]]\nname = "a0000000041010"
ppse = ['90']\n[[lanes.transactions.cards.apps]] => BadValue @.ppse[1] 2
[[lanes.transactions.cards.apps]] => Missing @.apps[1].name 0

# an application
at lanes[1].transactions[1].cards[1].apps[1]
for name = "a0000000041010"\nselect = ["6f009000"]
name = 'a0'\nwtx = 1\nselect = [] => BadValue @.name 2
with name = 'a000000004'\n*
wtx = 1\nselect = [] => BadValue @.select 0
wtxm = 1 => Missing @.select 0
wtxm = 0\nwtx = 9\nselect = ['9000'] => BadValue @.wtx 9
wtxm = 0\nselect = ['9000'] => BadValue @.wtxm 0

# a rule
at lanes[1].transactions[1].cards[1].apps[1].rules[1]
for prefix = "80a8"\nresponses = ["80009000"]
wtx = 9\nresponses = [] => Missing @.prefix 0
prefix = ''\nwtx = 9 => BadValue @.prefix 0
with prefix = '80'\n*
wtx = 9 => Missing @.responses 0
wtxm = 1\nresponses = ['9'] => BadValue @.responses[1] 1
wtxm = 0\nwtx = 9\nresponses = ['9000'] => BadValue @.wtx 9

# a script
at lanes[1].transactions[1].scripts[1]
for kernel = 3\nsteps = [{send = "80ae8000"}]\noutcome = "approved 03"
steps = [{}] => Missing @.kernel 0
kernel = 0\nsteps = [{}] => BadValue @.kernel 0
with kernel = 1\n*
steps = [{}] => Missing @.steps[1].send 0
steps = 1\noutcome = '' => WrongKind @.steps 0
steps = [{send = '80', want = 1}] => BadValue @.steps[1].send 2
steps = [{other = 1, want = 1, send = '80a80000'}] => WrongKind @.steps[1].want 0
steps = [{send = '80a80000'}] => Missing @.outcome 0
[[lanes.transactions.scripts]]\nkernel = 0 => Missing @.outcome 0
"#;
