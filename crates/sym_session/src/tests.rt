use crate::{KeyBytes, MakeRefused, Session, SessionTable, Step, Xform, same};
use crypto_model::{Act, CipherAlg, Dir, Hash, SessId};
use hmac_core::{Hmac, HmacKey, MacTag};
use std::alloc::Global;
use std::test::Fail;

// A key of so many bytes.
fn key(alloc: Global, length: usize) -> Result<KeyBytes, Fail> {
    let bytes = [0x2b; 1024];
    Ok(KeyBytes::copy(alloc, bytes.get(..length).ok_or("key")?)?)
}

fn cipher(alloc: Global, dir: Dir, key_len: usize) -> Result<Xform, Fail> {
    Ok(Xform::Cipher {
        alg: CipherAlg::AesCbc,
        dir,
        key: key(alloc, key_len)?,
    })
}

fn code(
    alloc: Global,
    hash: Hash,
    act: Act,
    key_len: usize,
    digest_len: usize,
) -> Result<Xform, Fail> {
    Ok(Xform::Auth {
        hash,
        act,
        key: key(alloc, key_len)?,
        digest_len,
    })
}

fn aead(alloc: Global, key_len: usize, tag_len: usize, aad_len: usize) -> Result<Xform, Fail> {
    Ok(Xform::Aead {
        dir: Dir::Encrypt,
        key: key(alloc, key_len)?,
        tag_len,
        aad_len,
    })
}

fn refusal(alloc: Global, xforms: &[Xform]) -> Option<MakeRefused> {
    Session::make(alloc, xforms).err()
}

// FIPS 197, 5; FIPS 198-1, 3 leaves the lengths of HMAC's keys open.
#[test]
fn keys_have_the_lengths_of_their_algorithms(rt: HostRuntime) -> Result<(), Fail> {
    let alloc = rt.alloc();
    for (length, is_taken) in [
        (0, false),
        (15, false),
        (16, true),
        (17, false),
        (20, false),
        (24, true),
        (32, true),
        (33, false),
    ] {
        let fault = refusal(alloc, &[cipher(alloc, Dir::Encrypt, length)?]);
        assert_eq!(rt; fault, (!is_taken).then_some(MakeRefused::BadKeyLength));
    }
    for (length, is_taken) in [(0, false), (1, true), (1024, true)] {
        let fault = refusal(
            alloc,
            &[code(alloc, Hash::Sha256, Act::Verify, length, 32)?],
        );
        assert_eq!(rt; fault, (!is_taken).then_some(MakeRefused::BadKeyLength));
    }
    Ok(())
}

// FIPS 180-4, figure 1, for the lengths of the whole digests.
#[test]
fn digests_have_4_bytes_to_all(rt: HostRuntime) -> Result<(), Fail> {
    let alloc = rt.alloc();
    for (hash, full) in [
        (Hash::Sha224, 28),
        (Hash::Sha256, 32),
        (Hash::Sha384, 48),
        (Hash::Sha512, 64),
    ] {
        for (length, is_taken) in [(3, false), (4, true), (full, true), (full + 1, false)] {
            let fault = refusal(alloc, &[code(alloc, hash, Act::Generate, 20, length)?]);
            assert_eq!(rt; fault, (!is_taken).then_some(MakeRefused::BadDigestLength));
        }
    }
    Ok(())
}

// SP 800-38D, 5.2.1.2, for the lengths of tags.
#[test]
fn the_first_fault_is_told(rt: HostRuntime) -> Result<(), Fail> {
    let alloc = rt.alloc();
    for (key_len, tag_len, aad_len, fault) in [
        (17, 9, 256, Some(MakeRefused::BadKeyLength)),
        (16, 9, 256, Some(MakeRefused::BadDigestLength)),
        (16, 7, 0, Some(MakeRefused::BadDigestLength)),
        (16, 10, 0, Some(MakeRefused::BadDigestLength)),
        (16, 11, 0, Some(MakeRefused::BadDigestLength)),
        (16, 17, 0, Some(MakeRefused::BadDigestLength)),
        (16, 16, 256, Some(MakeRefused::BadAadLength)),
        (16, 16, 255, None),
        (24, 4, 0, None),
        (32, 8, 14, None),
        (16, 12, 14, None),
    ] {
        let xform = aead(alloc, key_len, tag_len, aad_len)?;
        assert_eq!(rt; refusal(alloc, &[xform]), fault);
    }
    let short_digest = code(alloc, Hash::Sha256, Act::Generate, 20, 3)?;
    let long_key = cipher(alloc, Dir::Encrypt, 17)?;
    assert_eq!(rt;
        refusal(alloc, &[short_digest, long_key]),
        Some(MakeRefused::BadKeyLength)
    );
    Ok(())
}

#[test]
fn other_chains_are_refused(rt: HostRuntime) -> Result<(), Fail> {
    let alloc = rt.alloc();
    let (encrypt, decrypt) = (Dir::Encrypt, Dir::Decrypt);
    let (generate, verify) = (Act::Generate, Act::Verify);
    assert_eq!(rt; refusal(alloc, &[]), Some(MakeRefused::BadChain));
    for (dir, act) in [(decrypt, generate), (encrypt, verify), (decrypt, verify)] {
        let chain = [
            cipher(alloc, dir, 16)?,
            code(alloc, Hash::Sha256, act, 20, 32)?,
        ];
        assert_eq!(rt; refusal(alloc, &chain), Some(MakeRefused::BadChain));
    }
    let two = [aead(alloc, 16, 16, 0)?, aead(alloc, 16, 16, 0)?];
    assert_eq!(rt; refusal(alloc, &two), Some(MakeRefused::BadChain));
    let six = [
        cipher(alloc, encrypt, 16)?,
        code(alloc, Hash::Sha256, generate, 20, 32)?,
        cipher(alloc, encrypt, 16)?,
        code(alloc, Hash::Sha256, generate, 20, 32)?,
        cipher(alloc, encrypt, 16)?,
        code(alloc, Hash::Sha256, generate, 20, 32)?,
    ];
    assert_eq!(rt; refusal(alloc, &six), Some(MakeRefused::BadChain));
    for (act, dir) in [(generate, encrypt), (generate, decrypt), (verify, encrypt)] {
        let chain = [
            code(alloc, Hash::Sha256, act, 20, 32)?,
            cipher(alloc, dir, 16)?,
        ];
        assert_eq!(rt; refusal(alloc, &chain), Some(MakeRefused::BadChain));
    }
    Ok(())
}

fn code_of_a_text(key: &HmacKey) -> MacTag {
    let mut code = Hmac::start(key);
    code.feed(b"what do ya want for nothing?");
    code.finish()
}

// Whether the step is what was asked for, with the key made ready.
fn is_asked(step: &Step, xform: &Xform) -> bool {
    match (step, xform) {
        (Step::Cipher(step), Xform::Cipher { alg, dir, key }) => {
            step.alg == *alg && step.dir == *dir && step.key.bytes() == key.bytes()
        }
        (
            Step::Auth(step),
            Xform::Auth {
                hash,
                act,
                key,
                digest_len,
            },
        ) => {
            step.hash() == *hash
                && step.act() == *act
                && step.key_bytes().bytes() == key.bytes()
                && HmacKey::new(*hash, key.bytes()).is_ok_and(|key| code_of_a_text(&key)
                    == code_of_a_text(step.key()))
                && step.digest_len() == *digest_len
        }
        (
            Step::Aead(step),
            Xform::Aead {
                dir,
                key,
                tag_len,
                aad_len,
            },
        ) => {
            step.dir() == *dir
                && step.key_bytes() == key.bytes()
                && step.tag_len() == *tag_len
                && step.aad_len() == *aad_len
        }
        _ => false,
    }
}

fn is_made(alloc: Global, xforms: &[Xform]) -> Result<bool, Fail> {
    let session = Session::make(alloc, xforms)?;
    let steps = session.steps();
    Ok(
        steps.len() == xforms.len()
            && steps
                .iter()
                .zip(xforms)
                .all(|(step, xform)| is_asked(step, xform)),
    )
}

#[test]
fn a_session_has_the_steps_that_were_asked(rt: HostRuntime) -> Result<(), Fail> {
    let alloc = rt.alloc();
    for dir in [Dir::Encrypt, Dir::Decrypt] {
        assert!(rt; is_made(alloc, &[cipher(alloc, dir, 24)?])?);
    }
    for act in [Act::Generate, Act::Verify] {
        assert!(rt; is_made(alloc, &[code(alloc, Hash::Sha512, act, 131, 16)?])?);
    }
    assert!(rt; is_made(alloc, &[aead(alloc, 32, 12, 8)?])?);
    let encrypt = cipher(alloc, Dir::Encrypt, 16)?;
    let generate = code(alloc, Hash::Sha256, Act::Generate, 20, 12)?;
    assert!(rt; is_made(alloc, &[encrypt, generate])?);
    let verify = code(alloc, Hash::Sha384, Act::Verify, 1024, 48)?;
    let decrypt = cipher(alloc, Dir::Decrypt, 32)?;
    assert!(rt; is_made(alloc, &[verify, decrypt])?);
    Ok(())
}

#[test]
fn a_table_numbers_its_sessions(rt: HostRuntime) -> Result<(), Fail> {
    let alloc = rt.alloc();
    let xforms = [cipher(alloc, Dir::Encrypt, 16)?];
    let mut table = SessionTable::new(alloc)?;
    assert!(rt; table.is_empty());
    for number in 0..1024 {
        let session = Session::make(alloc, &xforms)?;
        assert_eq!(rt; table.add(session).ok(), Some(SessId(number)));
    }
    let last = [cipher(alloc, Dir::Decrypt, 32)?];
    let returned = table
        .add(Session::make(alloc, &last)?)
        .err()
        .ok_or("added")?;
    let step = returned.0.steps().first().ok_or("no step")?;
    assert!(rt; is_asked(step, &last[0]));
    assert_eq!(rt; table.len(), 1024);
    assert!(rt; table.get(SessId(1023)).is_some());
    assert!(rt; table.get(SessId(1024)).is_none());
    Ok(())
}

// A table with a session of each of these codes.
fn table_of(alloc: Global, codes: &[(&[u8], usize)]) -> Result<SessionTable, Fail> {
    let mut table = SessionTable::new(alloc)?;
    for (key, digest_len) in codes {
        if 1024 < key.len() {
            return Err("key".into());
        }
        let xform = Xform::Auth {
            hash: Hash::Sha256,
            act: Act::Generate,
            key: KeyBytes::copy(alloc, key)?,
            digest_len: *digest_len,
        };
        table
            .add(Session::make(alloc, &[xform])?)
            .ok()
            .ok_or("full")?;
    }
    Ok(table)
}

#[test]
fn tables_are_the_same_by_each_byte(rt: HostRuntime) -> Result<(), Fail> {
    let alloc = rt.alloc();
    let table = table_of(alloc, &[(b"one", 32), (b"two", 16)])?;
    assert!(rt; same(&table, &table_of(alloc, &[(b"one", 32), (b"two", 16)])?));
    assert!(rt; !same(&table, &table_of(alloc, &[(b"one", 32)])?));
    assert!(rt;
        !same(
            &table,
            &table_of(alloc, &[(b"one", 32), (b"two", 16), (b"two", 16)])?
        )
    );
    assert!(rt; !same(&table, &table_of(alloc, &[(b"two", 16), (b"one", 32)])?));
    assert!(rt; !same(&table, &table_of(alloc, &[(b"one", 32), (b"twp", 16)])?));
    assert!(rt; !same(&table, &table_of(alloc, &[(b"one", 32), (b"two", 15)])?));
    assert!(rt; !same(&table, &table_of(alloc, &[(b"one", 32), (b"two\0", 16)])?));
    Ok(())
}

// A table with one session of this transform.
fn table_with(alloc: Global, xform: Xform) -> Result<SessionTable, Fail> {
    let mut table = SessionTable::new(alloc)?;
    table
        .add(Session::make(alloc, &[xform])?)
        .ok()
        .ok_or("full")?;
    Ok(table)
}

fn cipher_table(alloc: Global, alg: CipherAlg, dir: Dir, byte: u8) -> Result<SessionTable, Fail> {
    let key = KeyBytes::copy(alloc, &[byte; 16])?;
    table_with(alloc, Xform::Cipher { alg, dir, key })
}

fn aead_table(
    alloc: Global,
    dir: Dir,
    byte: u8,
    lengths: (usize, usize),
) -> Result<SessionTable, Fail> {
    let (tag_len, aad_len) = lengths;
    let xform = Xform::Aead {
        dir,
        key: KeyBytes::copy(alloc, &[byte; 32])?,
        tag_len,
        aad_len,
    };
    table_with(alloc, xform)
}

#[test]
fn ciphers_and_aeads_are_the_same_by_each_part(rt: HostRuntime) -> Result<(), Fail> {
    let alloc = rt.alloc();
    let table = cipher_table(alloc, CipherAlg::AesCbc, Dir::Encrypt, 1)?;
    for (alg, dir, byte, is_same) in [
        (CipherAlg::AesCbc, Dir::Encrypt, 1, true),
        (CipherAlg::AesCtr, Dir::Encrypt, 1, false),
        (CipherAlg::AesCbc, Dir::Decrypt, 1, false),
        (CipherAlg::AesCbc, Dir::Encrypt, 2, false),
    ] {
        assert_eq!(rt;
            same(&table, &cipher_table(alloc, alg, dir, byte)?),
            is_same
        );
    }
    let sealing = aead_table(alloc, Dir::Encrypt, 1, (16, 8))?;
    assert!(rt; !same(&table, &sealing));
    for (dir, byte, lengths, is_same) in [
        (Dir::Encrypt, 1, (16, 8), true),
        (Dir::Decrypt, 1, (16, 8), false),
        (Dir::Encrypt, 3, (16, 8), false),
        (Dir::Encrypt, 1, (12, 8), false),
        (Dir::Encrypt, 1, (16, 0), false),
    ] {
        assert_eq!(rt;
            same(&sealing, &aead_table(alloc, dir, byte, lengths)?),
            is_same
        );
    }
    Ok(())
}

fn sent<T: Send>(value: T) -> T {
    value
}

fn shared<T: Sync>(value: &T) -> &T {
    value
}

#[test]
fn a_table_can_be_sent_and_shared(rt: HostRuntime) -> Result<(), Fail> {
    let table = table_of(rt.alloc(), &[(b"one", 32)])?;
    assert_eq!(rt; shared(&table).len(), 1);
    assert_eq!(rt; sent(table).len(), 1);
    Ok(())
}
