use crate::{Fate, Kept, ReadyPlan, Work, Written, quick_plan};
use aes_core::Key;
use capture_io::Record;
use crypto_model::{DigestPlace, Range, slow_encrypt};
use crypto_op::{Card, Op};
use mbuf_chain::{FreshSegs, Mbuf};
use seg_list::Seg;
use session_file::parse;
use std::alloc::Global;
use std::test::Fail;

const KEY: &[u8; 16] = b"0123456789abcdef";

const NUMBER: u32 = 0x0a0b_0c0d;

const POS: u64 = 0x0102_0304_0506_0708;

// The plan of a text with session `s` behind its first line. Each key is `KEY`.
fn ready(alloc: Global, session: &str, rest: &str) -> Result<ReadyPlan, Fail> {
    let key = "30313233343536373839616263646566";
    let text = format!(in alloc; "capcrypt 1\nsession s {session}\n{rest}\n")?;
    let text = text.as_str().replace(alloc, "KEY", key)?;
    if 1 << 20 < text.len() {
        return Err("too long".into());
    }
    Ok(ReadyPlan::new(alloc, parse(alloc, text.as_bytes())?)?)
}

// A record of one segment, in which each byte is its own offset.
fn record(alloc: Global, len: usize) -> Result<Record, Fail> {
    if 2048 < len {
        return Err("not in a segment".into());
    }
    let mut seg = Seg::new(alloc, 0)?;
    seg.set(0, len);
    for (i, byte) in seg.data_mut().iter_mut().enumerate() {
        *byte = (i & 0xff) as u8;
    }
    Ok(Record {
        sec: 1,
        frac: 2,
        orig: 3000,
        packet: Mbuf::new(alloc, seg).ok().ok_or("no memory")?,
    })
}

fn begin(alloc: Global, plan: &ReadyPlan, len: usize) -> Result<Work, Fail> {
    let rec = record(alloc, len)?;
    if 2048 < rec.packet.len() || 1 < rec.packet.seg_count() || 3000 < rec.orig {
        return Err("not the record".into());
    }
    Ok(plan.begin(alloc, &mut FreshSegs::new(alloc), NUMBER, POS, rec)?)
}

fn operation(alloc: Global, plan: &ReadyPlan, len: usize) -> Result<Op<Card>, Fail> {
    match begin(alloc, plan, len)? {
        Work::Needs(_kept, op) => Ok(op),
        Work::Ready(_written) => Err("no operation".into()),
    }
}

// The fate of a record that needs no operation, or the flow of the operation.
fn outcome(work: Work) -> Result<u32, Fate> {
    match work {
        Work::Needs(_kept, op) => Ok(op.cargo().flow),
        Work::Ready(written) => Err(written.fate),
    }
}

const NONCE: &[u8] = &[1, 2, 3, 4, 0, 0, 0, 0, 10, 11, 12, 13];

const COUNTER: &[u8] = &[1, 2, 3, 4, 0, 0, 0, 0, 10, 11, 12, 13, 0, 0, 0, 1];

const NOTHING: &[u8] = &[];

const FRONT: &[u8] = &[0, 1, 2, 3, 4, 5, 6, 7, 8, 9, 10, 11, 12, 13];

fn range(off: u32, len: u32) -> Range {
    Range { off, len }
}

#[test]
fn a_packet_of_60_bytes_is_asked_for_by_its_session(rt: HostRuntime) -> Result<(), Fail> {
    let alloc = rt.alloc();
    for (session, skip, cipher, auth, place, aad, iv, len) in [
        (
            "ctr encrypt KEY 01020304",
            14,
            range(14, 46),
            range(0, 0),
            DigestPlace::Nowhere,
            NOTHING,
            COUNTER,
            60,
        ),
        (
            "ctr decrypt KEY 01020304",
            14,
            range(14, 46),
            range(0, 0),
            DigestPlace::Nowhere,
            NOTHING,
            COUNTER,
            60,
        ),
        (
            "gcm encrypt KEY 01020304 16 14",
            14,
            range(14, 46),
            range(0, 0),
            DigestPlace::InChain(60),
            FRONT,
            NONCE,
            76,
        ),
        (
            "gcm decrypt KEY 01020304 16 14",
            14,
            range(14, 30),
            range(0, 0),
            DigestPlace::InChain(44),
            FRONT,
            NONCE,
            60,
        ),
        (
            "hmac-sha256 generate KEY 16",
            0,
            range(0, 0),
            range(0, 60),
            DigestPlace::InChain(60),
            NOTHING,
            NOTHING,
            76,
        ),
        (
            "hmac-sha256 verify KEY 16",
            0,
            range(0, 0),
            range(0, 44),
            DigestPlace::InChain(44),
            NOTHING,
            NOTHING,
            60,
        ),
        (
            "ctr encrypt KEY 01020304 + hmac-sha256 generate KEY 16",
            14,
            range(14, 46),
            range(0, 60),
            DigestPlace::InChain(60),
            NOTHING,
            COUNTER,
            76,
        ),
        (
            "hmac-sha256 verify KEY 16 + ctr decrypt KEY 01020304",
            14,
            range(14, 30),
            range(0, 44),
            DigestPlace::InChain(44),
            NOTHING,
            COUNTER,
            60,
        ),
    ] {
        let rest = format!(in alloc; "default s {skip}")?;
        let op = operation(alloc, &ready(alloc, session, rest.as_str())?, 60)?;
        let spec = op.spec();
        assert_eq!(rt; (spec.cipher, spec.auth), (cipher, auth), "{session}");
        assert_eq!(rt; spec.place, place, "{session}");
        assert_eq!(rt; spec.aad.bytes(), aad, "{session}");
        assert_eq!(rt; spec.iv.bytes(), iv, "{session}");
        assert_eq!(rt;
            (op.chain().len(), spec.pos, op.cargo().packet),
            (len, POS, NUMBER),
            "{session}"
        );
    }
    Ok(())
}

#[test]
fn the_first_rule_whose_bytes_stand_in_the_packet_chooses(rt: HostRuntime) -> Result<(), Fail> {
    let alloc = rt.alloc();
    for (rules, wanted) in [
        ("rule 58 3a3b s 14\ndefault pass", Ok(1)),
        ("rule 59 3b3c s 14\ndefault pass", Err(Fate::Passed)),
        ("rule 59 3b3c pass\nrule 58 3a3b s 14\ndefault pass", Ok(2)),
        (
            "rule 0 0001 pass\nrule 0 00 s 14\ndefault s 14",
            Err(Fate::Passed),
        ),
        ("rule 9999999 00 pass\ndefault s 14", Ok(0)),
        ("rule 1 00 pass\ndefault s 14", Ok(0)),
    ] {
        let plan = ready(alloc, "ctr encrypt KEY 01020304", rules)?;
        assert_eq!(rt; outcome(begin(alloc, &plan, 60)?), wanted, "{rules}");
    }
    Ok(())
}

#[test]
fn a_packet_below_skip_and_digest_is_short(rt: HostRuntime) -> Result<(), Fail> {
    let alloc = rt.alloc();
    for (session, rest, len) in [
        ("ctr encrypt KEY 01020304", "default s 14", 14),
        ("ctr decrypt KEY 01020304", "default s 14", 14),
        ("gcm encrypt KEY 01020304 16 14", "default s 14", 14),
        ("gcm decrypt KEY 01020304 16 14", "default s 14", 30),
        ("hmac-sha256 verify KEY 16", "default s 0", 16),
        (
            "hmac-sha256 verify KEY 16 + ctr decrypt KEY 01020304",
            "default s 14",
            30,
        ),
    ] {
        let plan = ready(alloc, session, rest)?;
        assert_eq!(rt;
            outcome(begin(alloc, &plan, len - 1)?),
            Err(Fate::Short),
            "{session}"
        );
        assert_eq!(rt; outcome(begin(alloc, &plan, len)?), Ok(0), "{session}");
    }
    Ok(())
}

#[test]
fn the_iv_of_cbc_is_encrypted(rt: HostRuntime) -> Result<(), Fail> {
    let alloc = rt.alloc();
    let block = [1, 2, 3, 4, 5, 6, 7, 8, 0, 0, 0, 0, 10, 11, 12, 13];
    for session in [
        "cbc encrypt KEY 0102030405060708",
        "cbc decrypt KEY 0102030405060708",
    ] {
        let op = operation(alloc, &ready(alloc, session, "default s 14")?, 30)?;
        assert_eq!(rt; op.spec().iv.bytes(), slow_encrypt(KEY, block)?.as_slice());
    }
    Ok(())
}

#[test]
fn a_tag_is_given_room_in_the_last_segment_or_in_a_new_one(rt: HostRuntime) -> Result<(), Fail> {
    let alloc = rt.alloc();
    let plan = ready(alloc, "gcm encrypt KEY 01020304 16 14", "default s 14")?;
    for (len, segs) in [(2032, 1), (2033, 2), (2048, 2)] {
        let op = operation(alloc, &plan, len)?;
        assert_eq!(rt;
            (op.chain().seg_count(), op.chain().len()),
            (segs, len + 16)
        );
    }
    Ok(())
}

#[test]
fn a_plan_has_a_table_of_its_sessions(rt: HostRuntime) -> Result<(), Fail> {
    let alloc = rt.alloc();
    let plan = ready(
        alloc,
        "ctr encrypt KEY 01020304",
        "session t hmac-sha512 verify KEY 64\ndefault pass",
    )?;
    assert_eq!(rt; plan.table(alloc)?.len(), 2);
    Ok(())
}

#[test]
fn quick_works_on_every_packet_whole(rt: HostRuntime) -> Result<(), Fail> {
    let alloc = rt.alloc();
    let key = Key::expand(KEY)?;
    let plan = ReadyPlan::new(alloc, quick_plan(alloc, &key, [1, 2, 3, 4])?)?;
    let op = operation(alloc, &plan, 60)?;
    assert_eq!(rt; op.spec().cipher, range(0, 60));
    assert_eq!(rt; op.spec().iv.bytes(), COUNTER);
    assert_eq!(rt; plan.table(alloc)?.len(), 1);
    Ok(())
}

fn can_be_sent<T: Send>() {}

fn can_be_shared<T: Sync>() {}

#[test]
fn plans_and_what_is_kept_of_records_go_to_other_threads(_rt: HostRuntime) {
    can_be_sent::<ReadyPlan>();
    can_be_shared::<ReadyPlan>();
    can_be_sent::<Kept>();
    can_be_sent::<Written>();
    can_be_sent::<Work>();
}
