//! Inventories: cards with UIDs of all lengths, cards that are never present, and cards of Type B.

pub const CASES: &str = r#"
%% first-lines
version = 1
[[lanes]]
%% transaction
[[lanes.transactions]]
type = 0
amount = 0
%% = two cards with long UIDs
words /inventory
document <first-lines><transaction>cards = [{ kind = "A", uid = "04112233445566" }, { kind = "A", uid = "041122778899aa" }]
text inventory 1.1 tags=2\ntag 04112233445566 sak=20\ntag 041122778899aa sak=20\n
%% = the first bit decides
words /inventory
document <first-lines><transaction>cards = [{ kind = "A", uid = "01020304" }, { kind = "A", uid = "02020304" }]
text inventory 1.1 tags=2\ntag 02020304 sak=20\ntag 01020304 sak=20\n
%% = no card
words /inventory
document <first-lines><transaction>cards = []
text inventory 1.1 tags=0\n
%% = four cards, two of them never present, and two lanes with a card of the other type
words /inventory
document <first-lines><transaction>presence = [[1, 3]]\ncards = [{ kind = "A", uid = "01020304" }, { kind = "A", uid = "0411a233445566778819", sak = "28" }, { kind = "A", uid = "02020304" }, { kind = "A", uid = "04112233445566" }]\n<transaction>[[lanes]]\n<transaction>cards = [{ kind = "B", pupi = "11223344" }, { kind = "A", uid = "041122778899aa" }]
text inventory 1.1 tags=4\ntag 04112233445566 sak=20\ntag 0411a233445566778819 sak=28\ntag 02020304 sak=20\ntag 01020304 sak=20\ninventory 1.2 tags=0\ninventory 2.1 tags=1\ntag 041122778899aa sak=20\n
"#;
