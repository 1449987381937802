use super::making::{
    Asked, COUNTER, KEY, NO_RANGE, TEXT, UNDER_CTR, add, aead, assert_op, assert_packet, cipher,
    code, of_cipher, one_session, operation, packet,
};
use crate::process;
use crypto_model::{Act, CipherAlg, DigestPlace, Dir, Range, Status};
use std::alloc::Global;
use std::array;
use std::test::Fail;
use sym_session::SessionTable;

const CBC_IV: u128 = 0x0001_0203_0405_0607_0809_0a0b_0c0d_0e0f;

// SP 800-38A, F.2.1, block 1.
const UNDER_CBC: u128 = 0x7649_abac_8119_b246_cee9_8e9b_12e9_197d;

// The first block five times, encrypted by OpenSSL.
const FIVE_UNDER_CBC: [u128; 5] = [
    UNDER_CBC,
    0x4cbb_c858_756b_3581_2552_9e96_98a3_8f44,
    0x9f6f_0796_ee3e_47b0_d87c_761b_2052_7f78,
    0x0701_3408_5f02_7517_55ef_ca3b_4cdc_7d62,
    0x1d93_10ca_ac69_e1ff_eee0_7120_2502_fa70,
];

// RFC 4231, 4.3.
const CODE: [u8; 32] = [
    0x5b, 0xdc, 0xc1, 0x46, 0xbf, 0x60, 0x75, 0x4e, 0x6a, 0x04, 0x24, 0x26, 0x08, 0x95, 0x75, 0xc7,
    0x5a, 0x00, 0x3f, 0x08, 0x9d, 0x27, 0x39, 0x83, 0x9d, 0xec, 0x58, 0xb9, 0x64, 0xec, 0x38, 0x43,
];

const CODED: &[u8] = b"what do ya want for nothing?";

// Of the block under CTR between two bytes aa and two more, by Python's hmac.
const CODE_OF_CIPHERTEXT: [u8; 16] = [
    0x59, 0xf7, 0xa6, 0x32, 0x22, 0x44, 0x10, 0xa4, 0xc6, 0x21, 0xa7, 0xce, 0xb3, 0x0c, 0x97, 0x48,
];

const CTR: u32 = 0;

const CBC: u32 = 1;

const CBC_BACK: u32 = 2;

const GENERATE: u32 = 3;

const VERIFY: u32 = 4;

const ENCRYPT_GENERATE: u32 = 5;

const VERIFY_DECRYPT: u32 = 6;

const SEAL: u32 = 7;

const OPEN: u32 = 8;

const SEAL_WITH_AAD: u32 = 9;

const UNKNOWN: u32 = 10;

// A session of each kind, by the numbers above. Pairs have digests of 16 bytes.
fn sessions(alloc: Global) -> Result<SessionTable, Fail> {
    let mut table = one_session(alloc, KEY)?;
    let all = &mut table;
    let (ctr, cbc) = (CipherAlg::AesCtr, CipherAlg::AesCbc);
    add(alloc, all, &[cipher(alloc, cbc, Dir::Encrypt, KEY)?])?;
    add(alloc, all, &[cipher(alloc, cbc, Dir::Decrypt, KEY)?])?;
    add(alloc, all, &[code(alloc, Act::Generate, 32)?])?;
    add(alloc, all, &[code(alloc, Act::Verify, 32)?])?;
    let encrypt = cipher(alloc, ctr, Dir::Encrypt, KEY)?;
    add(alloc, all, &[encrypt, code(alloc, Act::Generate, 16)?])?;
    let decrypt = cipher(alloc, ctr, Dir::Decrypt, KEY)?;
    add(alloc, all, &[code(alloc, Act::Verify, 16)?, decrypt])?;
    add(alloc, all, &[aead(alloc, Dir::Encrypt, 0)?])?;
    add(alloc, all, &[aead(alloc, Dir::Decrypt, 0)?])?;
    add(alloc, all, &[aead(alloc, Dir::Encrypt, 4)?])?;
    Ok(table)
}

// A block with two bytes before it and two behind it.
fn framed(block: u128) -> [u8; 20] {
    let mut packet = [0xaa; 20];
    packet[2..18].copy_from_slice(&block.to_be_bytes());
    packet
}

// The same, with a digest behind it.
fn sealed(block: u128, digest: &[u8; 16]) -> [u8; 36] {
    let mut packet = [0; 36];
    packet[..20].copy_from_slice(&framed(block));
    packet[20..].copy_from_slice(digest);
    packet
}

// A digest at the head of a field of bytes 55.
fn field(digest: &[u8; 32]) -> [u8; 64] {
    let mut field = [0x55; 64];
    field[..32].copy_from_slice(digest);
    field
}

#[test]
fn a_block_may_lie_in_several_segments(rt: HostRuntime) -> Result<(), Fail> {
    let alloc = rt.alloc();
    let table = sessions(alloc)?;
    for (session, iv, text, result) in [
        (CTR, COUNTER, TEXT, UNDER_CTR),
        (CBC, CBC_IV, TEXT, UNDER_CBC),
        (CBC_BACK, CBC_IV, UNDER_CBC, TEXT),
    ] {
        for (first, second) in [(1, 0), (7, 9), (0, 16), (5, 6)] {
            let chain = packet(alloc, &text.to_be_bytes(), first, second)?;
            let mut op = operation(alloc, of_cipher(session, iv, 0, 16), chain)?;
            process(&table, &mut op);
            assert_op(
                &rt,
                &op,
                Status::Success,
                &result.to_be_bytes(),
                &[0; 64],
                "cut",
            );
        }
    }
    Ok(())
}

fn five_blocks(blocks: [u128; 5]) -> [u8; 80] {
    array::from_fn(|i| blocks[i / 16].to_be_bytes()[i % 16])
}

#[test]
fn cbc_goes_on_from_one_segment_to_the_next(rt: HostRuntime) -> Result<(), Fail> {
    let alloc = rt.alloc();
    let table = sessions(alloc)?;
    let (plain, secret) = (five_blocks([TEXT; 5]), five_blocks(FIVE_UNDER_CBC));
    for (first, second) in [(0, 80), (16, 48), (17, 30), (40, 3), (79, 1)] {
        let chain = packet(alloc, &plain, first, second)?;
        let mut op = operation(alloc, of_cipher(CBC, CBC_IV, 0, 80), chain)?;
        process(&table, &mut op);
        assert_op(&rt, &op, Status::Success, &secret, &[0; 64], "encrypted");

        let chain = packet(alloc, &secret, first, second)?;
        let mut op = operation(alloc, of_cipher(CBC_BACK, CBC_IV, 0, 80), chain)?;
        process(&table, &mut op);
        assert_op(&rt, &op, Status::Success, &plain, &[0; 64], "decrypted");
    }
    Ok(())
}

#[test]
fn the_counter_carries_into_its_first_byte(rt: HostRuntime) -> Result<(), Fail> {
    let alloc = rt.alloc();
    let table = one_session(alloc, 0)?;
    let chain = packet(alloc, &[0; 32], 9, 10)?;
    let mut op = operation(alloc, of_cipher(CTR, u128::MAX, 0, 32), chain)?;
    process(&table, &mut op);
    assert!(rt; op.chain().len() == 32);
    let last = 0x66e9_4bd4_ef8a_2c3b_884c_fa59_ca34_2b2e_u128.to_be_bytes();
    let mut got = [0; 16];
    op.chain().read_at(16, &mut got);
    assert_eq!(rt; got, last);
    Ok(())
}

// A code over 28 bytes, with its digest in the own field.
fn of_code(session: u32, digest: [u8; 64]) -> Asked {
    Asked {
        session,
        iv: 0,
        iv_len: 3,
        cipher: Range { off: 99, len: 99 },
        auth: Range { off: 0, len: 28 },
        place: DigestPlace::OwnField,
        digest,
    }
}

// An authentication alone looks at neither IV nor cipher range.
#[test]
fn a_code_stands_in_the_own_field(rt: HostRuntime) -> Result<(), Fail> {
    let alloc = rt.alloc();
    let table = sessions(alloc)?;
    let mut wrong = CODE;
    wrong[31] ^= 1;
    for (session, before, status, after) in [
        (GENERATE, [0x55; 32], Status::Success, CODE),
        (VERIFY, CODE, Status::Success, CODE),
        (VERIFY, wrong, Status::AuthFailed, wrong),
    ] {
        let chain = packet(alloc, CODED, 4, 20)?;
        let mut op = operation(alloc, of_code(session, field(&before)), chain)?;
        process(&table, &mut op);
        assert_op(&rt, &op, status, CODED, &field(&after), "code");
    }
    Ok(())
}

// A pair on the framed block, with the digest behind it.
fn of_pair(session: u32, at: u32) -> Asked {
    Asked {
        auth: Range { off: 0, len: 20 },
        place: DigestPlace::InChain(at),
        ..of_cipher(session, COUNTER, 2, 16)
    }
}

#[test]
fn a_pair_covers_the_ciphertext(rt: HostRuntime) -> Result<(), Fail> {
    let alloc = rt.alloc();
    let table = sessions(alloc)?;
    let secret = sealed(UNDER_CTR, &CODE_OF_CIPHERTEXT);
    for (first, second) in [(0, 36), (3, 30), (20, 5)] {
        let chain = packet(alloc, &sealed(TEXT, &[0; 16]), first, second)?;
        let mut op = operation(alloc, of_pair(ENCRYPT_GENERATE, 20), chain)?;
        process(&table, &mut op);
        assert_op(&rt, &op, Status::Success, &secret, &[0; 64], "sealed");

        let chain = packet(alloc, &secret, first, second)?;
        let mut op = operation(alloc, of_pair(VERIFY_DECRYPT, 20), chain)?;
        process(&table, &mut op);
        let opened = sealed(TEXT, &CODE_OF_CIPHERTEXT);
        assert_op(&rt, &op, Status::Success, &opened, &[0; 64], "opened");
    }
    Ok(())
}

#[test]
fn a_forged_packet_stays_as_it_was(rt: HostRuntime) -> Result<(), Fail> {
    let alloc = rt.alloc();
    let table = sessions(alloc)?;
    let mut digest = CODE_OF_CIPHERTEXT;
    digest[0] ^= 0x80;
    let other_text = sealed(UNDER_CTR ^ 1, &CODE_OF_CIPHERTEXT);
    for forged in [other_text, sealed(UNDER_CTR, &digest)] {
        let chain = packet(alloc, &forged, 3, 30)?;
        let mut op = operation(alloc, of_pair(VERIFY_DECRYPT, 20), chain)?;
        process(&table, &mut op);
        assert_op(&rt, &op, Status::AuthFailed, &forged, &[0; 64], "forged");
    }
    Ok(())
}

// Test cases 1 and 2 of the mode's first publication.
const TAG_OF_NOTHING: u128 = 0x58e2_fcce_fa7e_3061_367f_1d57_a4e7_455a;

const SEALED_ZEROS: u128 = 0x0388_dace_60b6_a392_f328_c2b9_71b2_fe78;

const TAG_OF_ZEROS: u128 = 0xab6e_47d4_2cec_13bd_f53a_67b2_1257_bddf;

// A tag at the head of a field of bytes 55.
fn field_of_tag(tag: u128) -> [u8; 64] {
    let mut field = [0x55; 64];
    field[..16].copy_from_slice(&tag.to_be_bytes());
    field
}

// GCM on all bytes of a packet, with the tag in the own field.
fn of_aead(session: u32, len: u32, digest: [u8; 64]) -> Asked {
    Asked {
        iv_len: 12,
        place: DigestPlace::OwnField,
        digest,
        ..of_cipher(session, 0, 0, len)
    }
}

#[test]
fn gcm_seals_and_opens(rt: HostRuntime) -> Result<(), Fail> {
    let alloc = rt.alloc();
    let table = sessions(alloc)?;
    let chain = packet(alloc, &[], 0, 0)?;
    let mut op = operation(alloc, of_aead(SEAL, 0, [0x55; 64]), chain)?;
    process(&table, &mut op);
    let field = field_of_tag(TAG_OF_NOTHING);
    assert_op(&rt, &op, Status::Success, &[], &field, "no text");

    let (zeros, secret) = ([0; 16], SEALED_ZEROS.to_be_bytes());
    let field = field_of_tag(TAG_OF_ZEROS);
    let chain = packet(alloc, &zeros, 5, 0)?;
    let mut op = operation(alloc, of_aead(SEAL, 16, [0x55; 64]), chain)?;
    process(&table, &mut op);
    assert_op(&rt, &op, Status::Success, &secret, &field, "sealed");

    for (tag, status, text) in [
        (TAG_OF_ZEROS, Status::Success, zeros),
        (TAG_OF_ZEROS ^ 1, Status::AuthFailed, secret),
        (TAG_OF_NOTHING, Status::AuthFailed, secret),
    ] {
        let chain = packet(alloc, &secret, 5, 0)?;
        let mut op = operation(alloc, of_aead(OPEN, 16, field_of_tag(tag)), chain)?;
        process(&table, &mut op);
        assert_op(&rt, &op, status, &text, &field_of_tag(tag), "opened");
    }
    Ok(())
}

#[test]
fn each_check_refuses(rt: HostRuntime) -> Result<(), Fail> {
    let alloc = rt.alloc();
    let table = sessions(alloc)?;
    let ctr = of_cipher(CTR, COUNTER, 2, 16);
    let pair = of_pair(ENCRYPT_GENERATE, 20);
    let (args, session) = (Status::InvalidArgs, Status::InvalidSession);
    let seal = of_aead(SEAL, 16, [0; 64]);
    let in_text = DigestPlace::InChain(15);
    for (asked, status, what) in [
        (of_aead(SEAL, 37, [0; 64]), args, "range of GCM"),
        (Asked { iv_len: 16, ..seal }, args, "IV of 16 bytes for GCM"),
        (of_aead(SEAL_WITH_AAD, 16, [0; 64]), args, "no data beside"),
        (
            Asked {
                place: in_text,
                ..seal
            },
            args,
            "tag in the text",
        ),
        (
            of_cipher(UNKNOWN, COUNTER, 99, 99),
            session,
            "session before range",
        ),
        (of_cipher(CTR, COUNTER, 21, 16), args, "cipher range"),
        (
            of_cipher(CTR, COUNTER, 37, 0),
            args,
            "empty range past the end",
        ),
        (Asked { iv_len: 15, ..ctr }, args, "IV of 15 bytes"),
        (Asked { iv_len: 12, ..ctr }, args, "IV of 12 bytes"),
        (of_cipher(CBC, CBC_IV, 0, 15), args, "part of a block"),
        (
            of_cipher(CBC_BACK, CBC_IV, 0, 17),
            args,
            "more than a block",
        ),
        (
            Asked {
                auth: Range { off: 17, len: 20 },
                ..pair
            },
            args,
            "authentication range",
        ),
        (
            Asked {
                place: DigestPlace::Nowhere,
                ..pair
            },
            args,
            "no place",
        ),
        (
            Asked {
                place: DigestPlace::InChain(21),
                ..pair
            },
            args,
            "digest past the end",
        ),
        (
            Asked {
                place: DigestPlace::InChain(19),
                ..pair
            },
            args,
            "digest in the authentication range",
        ),
        (
            Asked {
                auth: NO_RANGE,
                place: DigestPlace::InChain(17),
                ..pair
            },
            args,
            "digest in the cipher range",
        ),
    ] {
        let before = sealed(TEXT, &[0; 16]);
        let chain = packet(alloc, &before, 3, 30)?;
        let mut op = operation(alloc, asked, chain)?;
        process(&table, &mut op);
        assert_op(&rt, &op, status, &before, &[0; 64], what);
    }
    Ok(())
}

#[test]
fn an_empty_range_changes_nothing(rt: HostRuntime) -> Result<(), Fail> {
    let alloc = rt.alloc();
    let table = sessions(alloc)?;
    for (session, off) in [(CTR, 0), (CTR, 20), (CBC, 20), (CBC_BACK, 3)] {
        let chain = packet(alloc, &framed(TEXT), 3, 0)?;
        let mut op = operation(alloc, of_cipher(session, CBC_IV, off, 0), chain)?;
        process(&table, &mut op);
        assert_eq!(rt; op.status(), Status::Success);
        assert_packet(&rt, op.chain(), &framed(TEXT), "empty");
    }
    Ok(())
}
