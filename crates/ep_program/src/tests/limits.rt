//! Purchases whose limits and qualifiers matter before any card is there.

pub const CASES: &str = r#"
%% unprepared
1.1 start type=00 amount=1000
1.1 outcome try-another
1.1 message 18 Please insert or swipe card
1.1 end done
%% not-allowed
1.1 start type=00 amount=1000
1.1 pre 1 aid=a0000000031010 kernel=3 allowed=0 status=0 zero=0 floor=0 cvm=0 ttq=-
1.1 outcome try-another
1.1 message 18 Please insert or swipe card
1.1 end done
%% of-zero
[[combinations]]
type = 0
aid = "a0000000031010"
kernel = 3
ttq = "26004000"
[[combinations]]
type = 0
aid = "a0000000031010"
kernel = 3
ttq = "26004000"
zero_allowed = false
[[combinations]]
type = 0
aid = "a0000000031010"
kernel = 3
ttq = "2e004000"
%% prepared-of-zero
1.1 start type=00 amount=0
1.1 pre 1 aid=a0000000031010 kernel=3 allowed=1 status=0 zero=1 floor=0 cvm=0 ttq=26804000
1.1 pre 2 aid=a0000000031010 kernel=3 allowed=0 status=0 zero=0 floor=0 cvm=0 ttq=26004000
1.1 pre 3 aid=a0000000031010 kernel=3 allowed=0 status=0 zero=1 floor=0 cvm=0 ttq=2e004000
%% = without Combinations
edit <combination> =>
text <unprepared>
%% = without Combinations and exchanges
words /run/trace
edit <combination> =>
text <unprepared>
%% = an empty list of Combinations
edit <combination> => combinations = []\n
text <unprepared>
%% = a Combination of another type
edit type = 0\namount => type = 32\namount
text <unprepared>
change type=00 => type=20
%% = an amount at the limit
edit kernel = 3\n[[lanes]] => kernel = 3\nlimit = 1000\n[[lanes]]
text <not-allowed>
%% = an amount below the limit
edit kernel = 3\n[[lanes]] => kernel = 3\nlimit = 1001\n[[lanes]]
%% = an amount at the floor and the CVM limit
edit kernel = 3\n[[lanes]] => kernel = 3\nfloor = 1000\ncvm = 1000\nttq = "36004000"\n[[lanes]]
change cvm=0 ttq=- => cvm=1 ttq=36404000
change 1010 ttq=- => 1010 ttq=36404000
%% = an amount of zero
edit <combination> => <of-zero>
edit amount = 1000 => amount = 0
change <prepared> => <prepared-of-zero>
change 1010 ttq=- => 1010 ttq=26804000
"#;
