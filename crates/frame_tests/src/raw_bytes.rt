use raw_block::RawBlock;

#[test]
fn opens_empty(rt: HostRuntime) {
    let block = RawBlock::open(rt.alloc(), 64).ok().expect(&rt, "it opens");
    assert!(rt; block.len() == 0);
    assert!(rt; block.cap() == 64);
}

#[test]
fn ranges_that_overlap(rt: HostRuntime) {
    let mut block = RawBlock::open(rt.alloc(), 8).ok().expect(&rt, "it opens");
    block.append(&[1, 2, 3]);
    block.append(&[4, 5, 6, 7]);
    block.slide(2, 1, 4);
    assert!(rt; block.view(0, 7) == [1, 3, 4, 5, 6, 6, 7].as_slice());
    block.cut(5);
    block.append(&[8, 9, 10]);
    assert!(rt; block.view(3, 5) == [5, 6, 8, 9, 10].as_slice());
}
