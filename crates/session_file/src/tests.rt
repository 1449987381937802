use crate::{
    Choice, Name, Named, ParseRefused, Pattern, Plan, Rule, Rules, Salt, Sessions, Xforms, parse,
    print,
};
use crypto_model::{Act, CipherAlg, Dir, Hash, SessId};
use std::alloc::Global;
use std::test::Fail;
use sym_session::{KeyBytes, Xform};

const MAX_TEXT: usize = 1 << 20;

// Reads a text, which is no longer than it may be.
fn read(alloc: Global, text: &[u8]) -> Result<Result<Plan, ParseRefused>, Fail> {
    if MAX_TEXT < text.len() {
        return Err("too long".into());
    }
    Ok(parse(alloc, text))
}

fn fault(alloc: Global, text: &str) -> Result<Option<ParseRefused>, Fail> {
    Ok(read(alloc, text.as_bytes())?.err())
}

#[test]
fn a_fault_is_told_by_its_line_and_kind(rt: HostRuntime) -> Result<(), Fail> {
    let alloc = rt.alloc();
    for (text, line, kind) in [
        ("", 1, 1),
        ("capcrypt 3", 1, 1),
        ("capcrypt 1\nsession s foo", 2, 2),
        (
            "capcrypt 1\nsession s gcm encrypt 00000000000000000000000000000000 00000000 16x 0",
            2,
            3,
        ),
        ("capcrypt 1\nsession s ctr encrypt 0g 00000000", 2, 4),
        (
            "capcrypt 1\nsession S ctr encrypt 00000000000000000000000000000000 00000000",
            2,
            5,
        ),
        ("capcrypt 1\ndefault x 0", 2, 6),
        ("capcrypt 1\nsession s ctr encrypt 00 00000000", 2, 7),
        (
            "capcrypt 1\nrule 0 0000000000000000000000000000000000000000000000000000000000000000000000000000000000000000000000000000000000000000000000000000000000 pass",
            2,
            9,
        ),
        ("capcrypt 1\n", 2, 10),
        ("capcrypt 1\ndefault pass\ndefault pass", 3, 10),
    ] {
        assert_eq!(rt;
            fault(alloc, text)?,
            Some(ParseRefused::Fault { line, kind }),
            "{text}"
        );
    }
    Ok(())
}

// Lines that say nothing count too. The head has five lines, with CR LF behind each.
#[test]
fn lines_are_counted_from_1(rt: HostRuntime) -> Result<(), Fail> {
    let alloc = rt.alloc();
    let head = "# a comment\r\n\r\n\tcapcrypt  1 \r\n \t\r\n#\r\n";
    for (rest, line, kind) in [
        ("capcrypt 1\r\n", 6, 2),
        ("session\r\n", 6, 2),
        ("rule 12345678 00 pass\r\n", 6, 3),
        ("rule 0 000 pass\r\n", 6, 4),
        (
            "session pass ctr encrypt 00000000000000000000000000000000 00000000\r\n",
            6,
            5,
        ),
        ("default a 0\r\n", 6, 6),
        (
            "session a cbc encrypt 00000000000000000000000000000000 00000000\r\n",
            6,
            7,
        ),
        (
            "session a hmac-sha256 verify 00 16\r\n#\r\ndefault a 1\r\n",
            8,
            8,
        ),
        (
            "rule 0 0000000000000000000000000000000000000000000000000000000000000000000000000000000000000000000000000000000000000000000000000000000000 pass\r\n",
            6,
            9,
        ),
        ("", 6, 10),
        ("default pass\r\n\r\n#\r\nrule\r\n", 9, 10),
    ] {
        let text = format!(in alloc; "{head}{rest}")?;
        assert_eq!(rt;
            fault(alloc, text.as_str())?,
            Some(ParseRefused::Fault { line, kind }),
            "{rest}"
        );
    }
    for (text, line) in [
        ("# none\r\n\r\ncapcrypt 2\r\n", 3),
        ("#\r\n \r\n", 3),
        ("capcrypt 1\r\r\n", 1),
    ] {
        assert_eq!(rt;
            fault(alloc, text)?,
            Some(ParseRefused::Fault { line, kind: 1 }),
            "{text}"
        );
    }
    assert_eq!(rt; fault(alloc, "capcrypt 1\r\ndefault pass\r")?, None);
    Ok(())
}

// The first kind that holds is told. `pass` names no session where another word stands behind it.
#[test]
fn the_first_kind_of_a_line_is_told(rt: HostRuntime) -> Result<(), Fail> {
    let alloc = rt.alloc();
    for (line, kind) in [
        ("session S hmac-sha256 generate 0 x", 3),
        ("session S hmac-sha256 generate 0 2", 4),
        ("session S hmac-sha256 generate 00 2", 5),
        ("session s hmac-sha256 generate 00 2", 7),
        ("rule x 0 s 0", 3),
        ("rule 0 0 s x", 3),
        ("rule 0 0 s 0", 4),
        ("rule 0 00 s 0", 6),
        ("rule 0 00 pass 0", 6),
        ("rule 0 00 pass x", 3),
        ("default pass x", 3),
        ("default pass 0", 6),
        (
            "session s cbc encrypt 000102030405060708090a0b0c0d0e0f 0001020304050607 + cbc encrypt 000102030405060708090a0b0c0d0e0f 0001020304050607",
            7,
        ),
        (
            "session s hmac-sha256 generate 00 16 + ctr encrypt 000102030405060708090a0b0c0d0e0f 00000000",
            7,
        ),
        ("session s hmac-sha256 generate 00 16 +", 2),
        (
            "session s hmac-sha256 generate 00 16 + hmac-sha256 generate 00 16 + hmac-sha256 generate 00 16",
            2,
        ),
    ] {
        let text = format!(in alloc; "capcrypt 1\n{line}\n")?;
        assert_eq!(rt;
            fault(alloc, text.as_str())?,
            Some(ParseRefused::Fault { line: 2, kind }),
            "{line}"
        );
    }
    Ok(())
}

// The fault of a text of so many lines of one form, and then a default line.
fn fault_of_many(
    alloc: Global,
    front: &str,
    back: &str,
    count: u32,
) -> Result<Option<ParseRefused>, Fail> {
    let mut text = String::from_str(alloc, "capcrypt 1\n")?;
    for number in 0..count {
        let line = format!(in alloc; "{front}{number}{back}\n")?;
        text.push_str(line.as_str())?;
    }
    text.push_str("default pass\n")?;
    fault(alloc, text.as_str())
}

#[test]
fn a_plan_has_1024_sessions_and_rules_at_most(rt: HostRuntime) -> Result<(), Fail> {
    let alloc = rt.alloc();
    for (front, back) in [
        ("session s", " hmac-sha256 generate 00 4"),
        ("rule ", " 00 pass"),
    ] {
        assert_eq!(rt; fault_of_many(alloc, front, back, 1024)?, None);
        assert_eq!(rt;
            fault_of_many(alloc, front, back, 1025)?,
            Some(ParseRefused::Fault {
                line: 1026,
                kind: 9
            })
        );
    }
    Ok(())
}

// A text whose second line has a HEX of so many bytes.
fn with_hex(alloc: Global, front: &str, bytes: usize, back: &str) -> Result<String, Fail> {
    let mut text = format!(in alloc; "capcrypt 1\n{front}")?;
    for _ in 0..bytes {
        text.push_str("5a")?;
    }
    text.push_str(back)?;
    text.push_str("\ndefault pass\n")?;
    Ok(text)
}

#[test]
fn keys_and_patterns_have_their_lengths(rt: HostRuntime) -> Result<(), Fail> {
    let alloc = rt.alloc();
    for (front, bytes, back, kind) in [
        ("session s hmac-sha512 verify ", 1024, " 64", None),
        ("session s hmac-sha512 verify ", 1025, " 64", Some(7)),
        ("session s ctr decrypt ", 32, " 00000000", None),
        ("session s ctr decrypt ", 33, " 00000000", Some(7)),
        ("session s ctr decrypt ", 1025, " 00000000", Some(7)),
        (
            "session s ctr decrypt 000102030405060708090a0b0c0d0e0f ",
            8,
            "",
            Some(7),
        ),
        (
            "session s cbc decrypt 000102030405060708090a0b0c0d0e0f ",
            8,
            "",
            None,
        ),
        ("rule 0 ", 64, " pass", None),
        ("rule 0 ", 65, " pass", Some(9)),
    ] {
        let text = with_hex(alloc, front, bytes, back)?;
        assert_eq!(rt;
            fault(alloc, text.as_str())?,
            kind.map(|kind| ParseRefused::Fault { line: 2, kind }),
            "{bytes} bytes behind {front}"
        );
    }
    Ok(())
}

fn same_xform(a: &Xform, b: &Xform) -> bool {
    match (a, b) {
        (
            Xform::Cipher { alg, dir, key },
            Xform::Cipher {
                alg: other_alg,
                dir: other_dir,
                key: other_key,
            },
        ) => alg == other_alg && dir == other_dir && key.bytes() == other_key.bytes(),
        (
            Xform::Auth {
                hash,
                act,
                key,
                digest_len,
            },
            Xform::Auth {
                hash: other_hash,
                act: other_act,
                key: other_key,
                digest_len: other_len,
            },
        ) => {
            hash == other_hash
                && act == other_act
                && key.bytes() == other_key.bytes()
                && digest_len == other_len
        }
        (
            Xform::Aead {
                dir,
                key,
                tag_len,
                aad_len,
            },
            Xform::Aead {
                dir: other_dir,
                key: other_key,
                tag_len: other_tag,
                aad_len: other_aad,
            },
        ) => {
            dir == other_dir
                && key.bytes() == other_key.bytes()
                && tag_len == other_tag
                && aad_len == other_aad
        }
        _ => false,
    }
}

fn same_session(a: &Named, b: &Named) -> bool {
    a.name.items() == b.name.items()
        && a.salt.items() == b.salt.items()
        && a.xforms.items().len() == b.xforms.items().len()
        && a.xforms
            .items()
            .iter()
            .zip(b.xforms.items())
            .all(|(a, b)| same_xform(a, b))
}

fn same_rule(a: &Rule, b: &Rule) -> bool {
    a.offset == b.offset && a.bytes.items() == b.bytes.items() && a.choice == b.choice
}

fn same_plan(a: &Plan, b: &Plan) -> bool {
    a.otherwise == b.otherwise
        && a.sessions.items().len() == b.sessions.items().len()
        && a.rules.items().len() == b.rules.items().len()
        && a.sessions
            .items()
            .iter()
            .zip(b.sessions.items())
            .all(|(a, b)| same_session(a, b))
        && a.rules
            .items()
            .iter()
            .zip(b.rules.items())
            .all(|(a, b)| same_rule(a, b))
}

// A plan of one session named s, and a default of it with skip 0.
fn plan_of_one(alloc: Global, xforms: Vec<Xform>, salt: &[u8]) -> Result<Plan, Fail> {
    let mut sessions = Vec::new(alloc);
    let named = Named {
        name: Name::new(b"s".to_vec(alloc)?),
        xforms: Xforms::new(xforms),
        salt: Salt::new(salt.to_vec(alloc)?),
    };
    sessions.push(named)?;
    Ok(Plan {
        sessions: Sessions::new(sessions),
        rules: Rules::new(Vec::new(alloc)),
        otherwise: Choice::Use {
            session: SessId(0),
            skip: 0,
        },
    })
}

#[test]
fn a_plan_is_printed_and_read(rt: HostRuntime) -> Result<(), Fail> {
    let alloc = rt.alloc();
    let mut xforms = Vec::new(alloc);
    xforms.push(Xform::Auth {
        hash: Hash::Sha384,
        act: Act::Verify,
        key: KeyBytes::copy(alloc, b"Jefe")?,
        digest_len: 48,
    })?;
    xforms.push(Xform::Cipher {
        alg: CipherAlg::AesCbc,
        dir: Dir::Decrypt,
        key: KeyBytes::copy(alloc, &[0x2b; 24])?,
    })?;
    let mut plan = plan_of_one(alloc, xforms, b"saltsalt")?;
    let mut rules = Vec::new(alloc);
    rules.push(Rule {
        offset: 23,
        bytes: Pattern::new(b"\x11".to_vec(alloc)?),
        choice: plan.otherwise,
    })?;
    plan.rules = Rules::new(rules);
    plan.otherwise = Choice::Pass;
    let text = print(alloc, &plan)?;
    let expected = "capcrypt 1\n\
        session s hmac-sha384 verify 4a656665 48 + cbc decrypt 2b2b2b2b2b2b2b2b2b2b2b2b2b2b2b2b2b2b2b2b2b2b2b2b 73616c7473616c74\n\
        rule 23 11 s 0\n\
        default pass\n";
    assert_eq!(rt; text.as_slice(), expected.as_bytes());
    assert!(rt; same_plan(&read(alloc, text.as_slice())??, &plan));
    Ok(())
}

#[test]
fn a_text_with_all_forms_is_read_and_printed(rt: HostRuntime) -> Result<(), Fail> {
    let alloc = rt.alloc();
    let text = "capcrypt 1\r\n\
        # ciphers\n\
        session cbc_out cbc encrypt 000102030405060708090A0B0C0D0E0F 0001020304050607\n\
        rule 0 fF pass\n\
        session  cbc_in\tcbc decrypt 000102030405060708090a0b0c0d0e0f1011121314151617 08090A0b0c0d0e0f\r\n\
        \tsession ctr-out ctr encrypt 000102030405060708090a0b0c0d0e0f101112131415161718191a1b1c1d1e1f 0000002A\n\
        session ctr-in ctr decrypt 00112233445566778899AABBCCDDEEFF FFFFFFFF\n\
        \n\
        # codes\n\
        session a hmac-sha224 generate 0B 0000004\n\
        session b hmac-sha256 verify 4a656665 32\n\
        session c hmac-sha384 generate 4a656665 48\n\
        session d hmac-sha512 verify 4a656665 64\n\
        # both\n\
        session e cbc encrypt 000102030405060708090a0b0c0d0e0f 0001020304050607 + hmac-sha512 generate 00 064\n\
        session f hmac-sha224 verify 01 28 + ctr decrypt 000102030405060708090a0b0c0d0e0f 00000001\n\
        rule 0000023 1100 a 0\n\
        rule 12 0800 cbc_out 0014\n\
        default f 9999999";
    let expected = "capcrypt 1\n\
        session cbc_out cbc encrypt 000102030405060708090a0b0c0d0e0f 0001020304050607\n\
        session cbc_in cbc decrypt 000102030405060708090a0b0c0d0e0f1011121314151617 08090a0b0c0d0e0f\n\
        session ctr-out ctr encrypt 000102030405060708090a0b0c0d0e0f101112131415161718191a1b1c1d1e1f 0000002a\n\
        session ctr-in ctr decrypt 00112233445566778899aabbccddeeff ffffffff\n\
        session a hmac-sha224 generate 0b 4\n\
        session b hmac-sha256 verify 4a656665 32\n\
        session c hmac-sha384 generate 4a656665 48\n\
        session d hmac-sha512 verify 4a656665 64\n\
        session e cbc encrypt 000102030405060708090a0b0c0d0e0f 0001020304050607 + hmac-sha512 generate 00 64\n\
        session f hmac-sha224 verify 01 28 + ctr decrypt 000102030405060708090a0b0c0d0e0f 00000001\n\
        rule 0 ff pass\n\
        rule 23 1100 a 0\n\
        rule 12 0800 cbc_out 14\n\
        default f 9999999\n";
    let plan = read(alloc, text.as_bytes())??;
    assert_eq!(rt;
        plan.otherwise,
        Choice::Use {
            session: SessId(9),
            skip: 9999999
        }
    );
    let printed = print(alloc, &plan)?;
    assert_eq!(rt; printed.as_slice(), expected.as_bytes());
    assert!(rt; same_plan(&read(alloc, printed.as_slice())??, &plan));
    Ok(())
}

#[test]
fn gcm_sessions_are_read(rt: HostRuntime) -> Result<(), Fail> {
    let alloc = rt.alloc();
    let mut xforms = Vec::new(alloc);
    xforms.push(Xform::Aead {
        dir: Dir::Encrypt,
        key: KeyBytes::copy(alloc, &[0; 16])?,
        tag_len: 16,
        aad_len: 0,
    })?;
    let plan = plan_of_one(alloc, xforms, &[0; 4])?;
    let text = print(alloc, &plan)?;
    let expected = "capcrypt 1\n\
        session s gcm encrypt 00000000000000000000000000000000 00000000 16 0\n\
        default s 0\n";
    assert_eq!(rt; text.as_slice(), expected.as_bytes());
    assert!(rt; same_plan(&read(alloc, text.as_slice())??, &plan));
    for (rest, line, kind) in [
        ("16 14\ndefault s 13", 3, 8),
        ("16 14\nrule 0 00 s 15", 3, 8),
        ("16 256", 2, 7),
        ("11 0", 2, 7),
        ("16 14\ndefault s 14\n\n#\ndefault pass", 6, 10),
    ] {
        let text = format!(in alloc;
            "capcrypt 1\nsession s gcm decrypt 00000000000000000000000000000000 00000000 {rest}"
        )?;
        assert_eq!(rt;
            fault(alloc, text.as_str())?,
            Some(ParseRefused::Fault { line, kind }),
            "{rest}"
        );
    }
    assert_eq!(rt;
        fault(
            alloc,
            "capcrypt 1\nsession s gcm encrypt 00000000000000000000000000000000 0000000000000000 16 0"
        )?,
        Some(ParseRefused::Fault { line: 2, kind: 7 })
    );
    Ok(())
}
