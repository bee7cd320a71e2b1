// Records replayed: texts of runs, each refusal with its place, and what a refusal leaves.
use report::reply::{LONGEST, reply};
use search::replay::replay;
use std::test::Fail;
use table::rows::{Entry, Row};

// Records, each with what is answered to it.
const TOLD: [(&[u8], &str); 17] = [
    (b"", "refused 17 at 0\n"),
    (b"B", "refused 17 at 0\n"),
    (b"BG\x01", "refused 17 at 0\n"),
    (b"BG\x01\x13", "refused 17 at 4\n"),
    (b"XX", "refused 16 at 0\n"),
    (b"VL", "refused 18 at 0\n"),
    (b"BG\x01\x13NFVL\x00", "refused 18 at 6\n"),
    (b"BG\x00\x14NF", "refused 1 at 0\n"),
    (b"BG\x01\x14NF", "refused 2 at 0\n"),
    (b"BG\x00\x00VL\x3b\x9a\xca\x01", "refused 4 at 4\n"),
    (b"BG\x01\x13NFRENFVL\x3b\x9a\xca\x01", "refused 4 at 10\n"),
    (b"BG\x01\x13NFCP\x00RE", "refused 13 at 6\n"),
    (b"BG\x01\x13NFCP\x01RH\x27\x11", "refused 12 at 9\n"),
    (
        b"BG\x01\x01VL\x00\x00\x00\x05REVL\x00\x00\x00\x01VL\x00\x00\x00\x02CP\x01RE",
        "refused 6 at 27\n",
    ),
    (
        b"BG\x01\x13VL\xc4\x65\x36\x00",
        "directions 1 finest 19 rounds 0 boxes 1\n0 -1000000000 0/0\nbest 0\n",
    ),
    (
        b"BG\x01\x13VL\x00\x00\x00\x05REVL\x00\x00\x00\x03NF",
        "directions 1 finest 19 rounds 1 boxes 3\n0 5 387420489/1\n1 3 0/1\n2 - 774840978/1\nbest 1\n",
    ),
    (
        b"BG\x02\x13VL\x00\x56\xb9\x12CP\x01RH\x03\xe8VL\x00\x32\xb3\xd3VL\x00\x45\xee\x3aNFVL\x00\x34\x88\x8aRH\x03\xe8NFNFRENFNFVL\x01\xe8\x42\x51VL\x00\xeb\xec\xe5NFNF",
        "directions 2 finest 19 rounds 3 boxes 13\n0 5683474 387420489/1 387420489/1\n1 3322835 129140163/2 516560652/2\n2 4582970 774840978/1 387420489/1\n3 - 387420489/1 0/1\n4 3442826 387420489/1 774840978/1\n5 - 0/1 0/1\n6 - 0/1 774840978/1\n7 - 774840978/1 0/1\n8 - 774840978/1 774840978/1\n9 31998545 0/2 387420489/1\n10 15461605 258280326/2 387420489/1\n11 - 129140163/2 387420489/2\n12 - 129140163/2 645700815/2\nbest 1\n",
    ),
];

#[test]
fn texts(rt: HostRuntime) -> Result<(), Fail> {
    for (record, text) in TOLD {
        let told = reply(rt.alloc(), record)?;
        assert_eq!(rt; told.as_str(), text);
    }
    Ok(())
}

#[test]
fn too_long(rt: HostRuntime) -> Result<(), Fail> {
    let most = vec![in rt.alloc(); b'B'; LONGEST]?;
    assert_eq!(rt;
        reply(rt.alloc(), most.as_slice())?.as_str(),
        "refused 16 at 0\n"
    );
    let more = vec![in rt.alloc(); b'B'; LONGEST + 1]?;
    assert_eq!(rt;
        reply(rt.alloc(), more.as_slice())?.as_str(),
        "refused 19 at 16384\n"
    );
    Ok(())
}

// The number and the place of a refusal, or none for a record of a run.
fn refused(record: &[u8], table: &mut [Row]) -> Option<(u8, usize)> {
    match replay(record, table) {
        Ok(_) => None,
        Err(refused) => Some((refused.why.number(), refused.place)),
    }
}

// A replay that runs out of rows leaves what its accepted calls wrote, and nothing more.
#[test]
fn rows_run_out(rt: HostRuntime) {
    let mut none: [Row; 0] = [];
    assert_eq!(rt; refused(b"BG\x01\x13NF", &mut none), Some((3, 0)));
    let mut table = [Row::whole(Entry::Waiting); 3];
    assert_eq!(rt; refused(b"BG\x01\x13NFRENFNFRE", &mut table), Some((7, 12)));
    assert_eq!(rt; table[0].spans[0].level, 1);
    assert_eq!(rt; table[0].spans[0].first, 387_420_489);
    assert_eq!(rt; table[2].spans[0].first, 774_840_978);
}

// Points of an open round stay answered or waiting, and its box is not cut.
#[test]
fn points_due(rt: HostRuntime) {
    let mut table = [Row::whole(Entry::Waiting); 4];
    assert_eq!(rt; refused(b"BG\x01\x13NFRENF", &mut table), Some((17, 10)));
    assert!(rt; !table[1].entry.waits());
    assert!(rt; table[2].entry.waits());
    assert_eq!(rt; table[0].spans[0].level, 0);
}
