//! The keys of a script, and of its steps.

/// Keys of a script.
pub const SCRIPTS: &str = r#"
at lanes[1].transactions[1].scripts[1]
for kernel = 3
=> Missing @.kernel 0
kernel = '3' => WrongKind @.kernel 0
kernel = 3.0 => WrongKind @.kernel 0
kernel = -3 => BadValue @.kernel -3
kernel = 0 => BadValue @.kernel 0
kernel = 16777216 => BadValue @.kernel 16777216
kernel = 1 => read
kernel = 0xffffff => read

# unknown keys
with kernel = 0\n*
zz = 1 => UnknownKey @ 4
after = [] => UnknownKey @ 1
restart = 'b' => UnknownKey @ 3
other = 'end' => UnknownKey @ 2

# the array of steps
for steps = [{send = "80ae8000"}]
=> read
with steps = *
1 => WrongKind @.steps 0
{} => WrongKind @.steps 0
['80a80000'] => WrongKind @.steps 0
[{}, 1] => WrongKind @.steps 0
[{}] => Missing @.steps[1].send 0
[<17:{},>] => TooMany @.steps 17
[<16:{send = '80a80000'},>] => read
[] => read

# outcomes that are none
for outcome = "approved 03"
=> Missing @.outcome 0
with outcome = *
3 => WrongKind @.outcome 0
['end'] => WrongKind @.outcome 0
'' => BadValue @.outcome 0
'ends' => BadValue @.outcome 4
'End' => BadValue @.outcome 3
' end' => BadValue @.outcome 4
'end ' => BadValue @.outcome 4
'end 1' => BadValue @.outcome 5
'end 99' => BadValue @.outcome 6
'end 1g' => BadValue @.outcome 6
'end  03' => BadValue @.outcome 7
'end 003' => BadValue @.outcome 7
'end 03 ' => BadValue @.outcome 7
'end 0303' => BadValue @.outcome 8
'03 end' => BadValue @.outcome 6
"end\t03" => BadValue @.outcome 6
'select next' => BadValue @.outcome 11
'try-another é' => BadValue @.outcome 14

# outcomes
'select-next' => read
'try-again' => read
'approved' => read
'declined' => read
'online' => read
'try-another' => read
'end' => read
'select-next 03' => read
'try-again 07' => read
'approved 15' => read
'declined 16' => read
'online 17' => read
'try-another 18' => read
'end 19' => read
'end 1c' => read
'end 1C' => read
'end 21' => read
"#;

/// Keys of a step.
pub const STEPS: &str = r#"
at lanes[1].transactions[1].scripts[1].steps[1]
for {send = "80ae8000"}
{} => Missing @.send 0
{want = '9000'} => Missing @.send 0
{send = 80} => WrongKind @.send 0
{send = ['80a80000']} => WrongKind @.send 0
{send = ''} => BadValue @.send 0
{send = '80a800'} => BadValue @.send 6
{send = '80a8000'} => BadValue @.send 7
{send = '80a8000x'} => BadValue @.send 8
{send = '80a800000000'} => BadValue @.send 12
{send = '80a800000201'} => BadValue @.send 12
{send = '80a800000102030405'} => BadValue @.send 18
{send = '80a80000ff<255:5a>0000'} => BadValue @.send 524
{send = '80a80000ff<255:5a>00'} => read
{send = '80a80000'} => read
{send = '80A8000000'} => read
{send = '80a80000ff'} => read
{send = '80a800000101'} => read
{send = '80a80000010100'} => read

# unknown keys
{x = 1} => UnknownKey @ 1
{send = '', x = 1} => UnknownKey @ 2
{send = '', a = 1} => UnknownKey @ 1
{send = '', want = '', wants = ''} => UnknownKey @ 3

# the status word and the outcome of another one
with {send = '80a80000', *}
want = 9000 => WrongKind @.want 0
want = '' => BadValue @.want 0
want = '90' => BadValue @.want 2
want = '900' => BadValue @.want 3
want = '90xx' => BadValue @.want 4
want = '900000' => BadValue @.want 6
want = '0000' => read
want = 'fFFf' => read
other = 1 => WrongKind @.other 0
other = '' => BadValue @.other 0
other = 'stop' => BadValue @.other 4
other = 'end 20' => BadValue @.other 6
other = 'select-next' => read
other = 'try-again 21' => read

# a later step
at lanes[1].transactions[1].scripts[1].steps[2]
for {send = "80ae8000"}
with {send = '80a80000'}, *
{} => Missing @.send 0
{send = '80a80000', want = '9'}, {} => BadValue @.want 1
"#;
