// One file checked, posted and posted again, and the questions around it; the registers have no key.
use book::mark::Counts;
use calls::answer::Answer;
use calls::call::{Call, Handed};
use gateway::run::run;
use layout::pair::Pair;
use register::bit_map::BitMap;
use register::five::Five;
use register::key_list::KeyList;
use small_book::SmallBook;
use std::test::Fail;

// Its Set ID is unknown.
const FILE: &[u8] =
    b"PCA    \nBIPAC000000040000123420260105001\nH00000000000000000000000000000000000999\n";

const PACKET: &[u8] =
    b"\x12\0\x01\0\x04\0\0\0\x03\0\0\0\x01\0\0\0\0\0\0\0\x0E\0\x02\0\x01\0\0\0\x1E\0\0\0\0\0\x25\0";

const PAIR: Pair = Pair {
    office: *b"01234",
    reference: *b"REF00001",
};

fn handed(file: &[u8], room: usize) -> Handed<'_> {
    Handed { file, day: 5, room }
}

fn is_packet(answer: &Answer) -> bool {
    matches!(answer, Answer::Packet(bytes) if bytes.as_slice() == PACKET)
}

fn has_code(answer: &Answer, code: u16) -> bool {
    matches!(answer, Answer::Refused(fault) if fault.code() == code)
}

fn is_count(answer: &Answer, accepted: u64, rejected: u64) -> bool {
    *answer == Answer::Counted(Counts { accepted, rejected })
}

#[test]
fn each_is_answered(rt: HostRuntime) -> Result<(), Fail> {
    let registers = Five {
        agencies: KeyList::of(b"", 8),
        offices: KeyList::of(b"", 5),
        symbols: KeyList::of(b"", 27),
        units: KeyList::of(b"", 2),
        accounts: BitMap::of(b""),
    };
    let mut book = SmallBook::new();
    let calls = [
        Call::Count,
        Call::Check(handed(FILE, 100)),
        Call::Post(handed(FILE, 35)),
        Call::Post(handed(FILE, 36)),
        Call::Post(handed(FILE, 36)),
        Call::Post(handed(b"", 36)),
        Call::Count,
        Call::Show(PAIR),
        Call::Seek(*b"01234"),
    ];
    let Ok(answers) = run(rt.alloc(), &registers, &mut book, &calls) else {
        return Err("memory was wanting".into());
    };
    assert_eq!(rt; answers.len(), 9);
    assert!(rt; is_count(&answers[0], 0, 0));
    assert!(rt; is_packet(&answers[1]));
    assert!(rt; has_code(&answers[2], 7));
    assert!(rt; is_packet(&answers[3]));
    assert!(rt; has_code(&answers[4], 6));
    assert!(rt; has_code(&answers[5], 2));
    assert!(rt; is_count(&answers[6], 0, 1));
    assert!(rt; answers[7] == Answer::Shown(None));
    assert!(rt; answers[8] == Answer::Sought(None));
    Ok(())
}
