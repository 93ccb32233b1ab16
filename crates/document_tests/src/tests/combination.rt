//! The keys of a Combination, and how many there may be.

/// Keys of a combination.
pub const COMBINATIONS: &str = r#"
at combinations[1]
for type = 9
=> Missing @.type 0
type = '9' => WrongKind @.type 0
type = false => WrongKind @.type 0
type = -1 => BadValue @.type -1
type = 256 => BadValue @.type 256
type = 0 => read
type = 255 => read

for aid = "a0000000031010"
=> Missing @.aid 0
aid = 5 => WrongKind @.aid 0
aid = ['a000000003'] => WrongKind @.aid 0
aid = '' => BadValue @.aid 0
aid = 'a0000000' => BadValue @.aid 8
aid = 'a00000000' => BadValue @.aid 9
aid = 'a00000000g' => BadValue @.aid 10
aid = 'a0 00000003' => BadValue @.aid 11
aid = 'é00000000' => BadValue @.aid 10
aid = '0102030405060708090a0b0c0d0e0f1011' => BadValue @.aid 34
aid = 'A000000003' => read
aid = '0102030405060708090a0b0c0d0e0f10' => read

for kernel = 2
=> Missing @.kernel 0
kernel = 2.0 => WrongKind @.kernel 0
kernel = '02' => WrongKind @.kernel 0
kernel = 0 => BadValue @.kernel 0
kernel = -2 => BadValue @.kernel -2
kernel = 16777216 => BadValue @.kernel 16777216
kernel = 1 => read
kernel = 16777215 => read
kernel = 0\nttq = 1\nlimits = 1 => UnknownKey @ 3

# truths
with kernel = 2\n*
status_check = 1 => WrongKind @.status_check 0
status_check = 'true' => WrongKind @.status_check 0
status_check = false => read
zero_allowed = 1 => WrongKind @.zero_allowed 0
zero_allowed = 'true' => WrongKind @.zero_allowed 0
zero_allowed = false => read
extended = 1 => WrongKind @.extended 0
extended = 'true' => WrongKind @.extended 0
extended = false => read

# amounts
limit = '1' => WrongKind @.limit 0
limit = 1e3 => WrongKind @.limit 0
limit = -1 => BadValue @.limit -1
limit = 1000000000000 => BadValue @.limit 1000000000000
limit = 0 => read
limit = 999_999_999_999 => read
floor = '1' => WrongKind @.floor 0
floor = 1e3 => WrongKind @.floor 0
floor = -1 => BadValue @.floor -1
floor = 1000000000000 => BadValue @.floor 1000000000000
floor = 0 => read
floor = 999_999_999_999 => read
terminal_floor = '1' => WrongKind @.terminal_floor 0
terminal_floor = 1e3 => WrongKind @.terminal_floor 0
terminal_floor = -1 => BadValue @.terminal_floor -1
terminal_floor = 1000000000000 => BadValue @.terminal_floor 1000000000000
terminal_floor = 0 => read
terminal_floor = 999_999_999_999 => read
cvm = '1' => WrongKind @.cvm 0
cvm = 1e3 => WrongKind @.cvm 0
cvm = -1 => BadValue @.cvm -1
cvm = 1000000000000 => BadValue @.cvm 1000000000000
cvm = 0 => read
cvm = 999_999_999_999 => read

# qualifiers
ttq = 4 => WrongKind @.ttq 0
ttq = '' => BadValue @.ttq 0
ttq = '001122' => BadValue @.ttq 6
ttq = '0011223' => BadValue @.ttq 7
ttq = '0011223x' => BadValue @.ttq 8
ttq = '001122333' => BadValue @.ttq 9
ttq = 'é0112233' => BadValue @.ttq 9
ttq = '0011223344' => BadValue @.ttq 10
ttq = 'aBcD0011' => read

# unknown keys
zz = 1 => UnknownKey @ 4
version = 1 => UnknownKey @ 4
Aid = 'a000000003' => UnknownKey @ 1
b = 1 => UnknownKey @ 2

# the array
at combinations
for combination
=> read
with combinations = *\n
1 => WrongKind @ 0
{} => WrongKind @ 0
[1] => WrongKind @ 0
[{}, 1] => WrongKind @ 0
[{}] => Missing @[1].type 0
[{type = 0, aid = 'a000000003', kernel = 3}, {type = 256}] => BadValue @[2].type 256
[] => read
[<65:{},>] => TooMany @ 65

# how many of a type
for combination
<16:[[combinations]]\ntype = 0\naid = 'a000000003'\nkernel = 3\n><16:[[combinations]]\ntype = 255\naid = 'a000000003'\nkernel = 3\n><16:[[combinations]]\ntype = 7\naid = 'a000000003'\nkernel = 3\n><16:[[combinations]]\ntype = 8\naid = 'a000000003'\nkernel = 3\n> => read
<17:[[combinations]]\ntype = 0\naid = 'a000000003'\nkernel = 3\n> => TooMany @ 17
<16:[[combinations]]\ntype = 0\naid = 'a000000003'\nkernel = 3\n><17:[[combinations]]\ntype = 255\naid = 'a000000003'\nkernel = 3\n> => TooMany @ 17
<17:[[combinations]]\ntype = 0\naid = 'a000000003'\nkernel = 3\n><18:[[combinations]]\ntype = 9\naid = 'a000000003'\nkernel = 3\n> => TooMany @ 17
<17:[[combinations]]\ntype = 9\naid = 'a000000003'\nkernel = 3\n><18:[[combinations]]\ntype = 0\naid = 'a000000003'\nkernel = 3\n> => TooMany @ 18
<64:[[combinations]]\ntype = 3\naid = 'a000000003'\nkernel = 3\n> => TooMany @ 64
<17:[[combinations]]\ntype = 0\naid = 'a000000003'\nkernel = 3\n>[[combinations]]\ntype = 0\naid = 'a0'\n => BadValue @[18].aid 2
"#;
