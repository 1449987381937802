use crate::{Hmac, HmacKey};
use crypto_model::Hash;
use std::alloc::Global;
use std::test::Fail;

// The code of a text that comes in pieces of one byte, in hexadecimal.
fn code_of(alloc: Global, hash: Hash, key: &[u8], text: &[u8]) -> Result<String, Fail> {
    let mut code = Hmac::start(&HmacKey::new(hash, key)?);
    for piece in text.chunks(1) {
        code.feed(piece);
    }
    let tag = code.finish();
    Ok(hex::encode(alloc, &tag.bytes[..tag.len])?)
}

// RFC 4231, 4.2 and 4.3.
#[test]
fn codes_are_those_of_the_test_cases(rt: HostRuntime) -> Result<(), Fail> {
    let alloc = rt.alloc();
    let (first, second) = ([0x0b; 20], b"what do ya want for nothing?");
    for (hash, of_first, of_second) in [
        (
            Hash::Sha224,
            "896fb1128abbdf196832107cd49df33f47b4b1169912ba4f53684b22",
            "a30e01098bc6dbbf45690f3a7e9e6d0f8bbea2a39e6148008fd05e44",
        ),
        (
            Hash::Sha256,
            "b0344c61d8db38535ca8afceaf0bf12b881dc200c9833da726e9376c2e32cff7",
            "5bdcc146bf60754e6a042426089575c75a003f089d2739839dec58b964ec3843",
        ),
        (
            Hash::Sha384,
            "afd03944d84895626b0825f4ab46907f15f9dadbe4101ec682aa034c7cebc59cfaea9ea9076ede7f4af152e8b2fa9cb6",
            "af45d2e376484031617f78d2b58a6b1b9c7ef464f5a01b47e42ec3736322445e8e2240ca5e69e2c78b3239ecfab21649",
        ),
        (
            Hash::Sha512,
            "87aa7cdea5ef619d4ff0b4241a1d6cb02379f4e2ce4ec2787ad0b30545e17cdedaa833b7d6b8a702038b274eaea3f4e4be9d914eeb61f1702e696c203a126854",
            "164b7a7bfcf819e2e395fbe73b56e0a387bd64222e831fd610270cd7ea2505549758bf75c05a994a6d034f65f8f0e6fdcaeab1a34d4a6b4b636e070a38bce737",
        ),
    ] {
        let code = code_of(alloc, hash, &first, b"Hi There")?;
        assert_eq!(rt; code.as_str(), of_first);
        let code = code_of(alloc, hash, b"Jefe", second)?;
        assert_eq!(rt; code.as_str(), of_second);
    }
    Ok(())
}

// The first 8 bytes of codes, round the sizes of a block.
#[test]
fn keys_and_texts_of_each_length_count_whole(rt: HostRuntime) -> Result<(), Fail> {
    let alloc = rt.alloc();
    let (keys, texts) = ([0xaa; 1024], [0xdd; 129]);
    for (hash, key, text, head) in [
        (Hash::Sha224, 1, 0, "dfbe4c66cee5d9a1"),
        (Hash::Sha224, 64, 1, "9269d18719d87b64"),
        (Hash::Sha224, 65, 63, "57b66f2d3c1c4552"),
        (Hash::Sha224, 1024, 64, "2a42974eb87622ec"),
        (Hash::Sha224, 64, 65, "213dcef292063052"),
        (Hash::Sha256, 1, 0, "ed851f73fb60bb7d"),
        (Hash::Sha256, 64, 1, "bf123ce977551603"),
        (Hash::Sha256, 65, 63, "aafdec6458e40163"),
        (Hash::Sha256, 1024, 64, "6d8446636e86081d"),
        (Hash::Sha256, 64, 65, "c1e6d25901189eab"),
        (Hash::Sha384, 1, 0, "2973b548e4d7eaa9"),
        (Hash::Sha384, 128, 1, "30a46eb9b065cab2"),
        (Hash::Sha384, 129, 127, "e9c98ecfed168251"),
        (Hash::Sha384, 1024, 128, "b80e54eeb2dcebe8"),
        (Hash::Sha384, 128, 129, "a1bfd640e3aee3e1"),
        (Hash::Sha512, 1, 0, "4e9f386d58475d4e"),
        (Hash::Sha512, 128, 1, "529e485c942014dd"),
        (Hash::Sha512, 129, 127, "a0228fc11ce2490b"),
        (Hash::Sha512, 1024, 128, "f786eeed65d2f1b4"),
        (Hash::Sha512, 128, 129, "4ae51691aef46705"),
    ] {
        let (key, text) = (
            keys.get(..key).ok_or("key")?,
            texts.get(..text).ok_or("text")?,
        );
        let code = code_of(alloc, hash, key, text)?;
        assert!(rt; code.starts_with(head), "{code} and {head}");
    }
    Ok(())
}

#[test]
fn a_tag_is_the_first_bytes_of_the_code(rt: HostRuntime) -> Result<(), Fail> {
    let key = HmacKey::new(Hash::Sha256, b"Jefe")?;
    for (tag, is_right) in [
        ([0x5b, 0xdc, 0xc1, 0x46], true),
        ([0x5b, 0xdc, 0xc1, 0x47], false),
        ([0xdb, 0xdc, 0xc1, 0x46], false),
    ] {
        let mut code = Hmac::start(&key);
        code.feed(b"what do ya want for nothing?");
        assert_eq!(rt; code.verify(&tag), is_right);
    }
    Ok(())
}

#[test]
fn a_key_has_1_to_1024_bytes(rt: HostRuntime) {
    let key = [0x0b; 1025];
    for (length, is_taken) in [(0, false), (1, true), (1024, true), (1025, false)] {
        let made = key
            .get(..length)
            .map(|key| HmacKey::new(Hash::Sha384, key).is_ok());
        assert_eq!(rt; made, Some(is_taken));
    }
}
